//! A library search for Standard ML signatures.
#![tactic(auto)]

mod answering;
mod commands;
mod decimal;
mod fault;
#[cfg(test)]
mod found_tests;
mod laws;
mod lines;
mod loading;
mod refusing;
mod run;
#[cfg(test)]
mod tests;
mod writing;

use crate::run::run;
use sig_base::{HostFiles, HostSink};
use std::io::ErrorKind;
use std::process::ExitCode;
use std::{env, io};

fn words_of(rt: HostRuntime) -> io::Result<Vec<String>> {
    Ok(env::args(&rt)?.skip(1).collect(rt.alloc())?)
}

fn main(rt: HostRuntime) -> ExitCode {
    let mut err = HostSink::new(rt.stderr());
    match words_of(rt) {
        Ok(words) => {
            let mut files = HostFiles::new(rt);
            let mut out = HostSink::new(rt.stdout());
            ExitCode::from(run(rt.alloc(), &words, &mut files, &mut out, &mut err))
        }
        Err(e) if e.kind() == ErrorKind::InvalidData => {
            lines::usage(&mut err);
            ExitCode::from(2)
        }
        Err(_) => {
            lines::no_memory(&mut err);
            ExitCode::from(7)
        }
    }
}
