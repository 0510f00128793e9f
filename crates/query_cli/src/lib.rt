//! The command line: what a list of words asks for.
//!
//! The first word is the mode. The rest are options, which may stand anywhere before the first `--`, and values.
//! `request_of` tells what words ask for, or that it is nothing, and takes no memory. `read_words` copies it into a
//! command.
#![tactic(auto)]

mod arguments;
mod command;
mod count;
mod read;
mod request;
#[cfg(test)]
mod tests;

pub use command::{Command, FindMode, WordsRefusal};
pub use read::read_words;
pub use request::{Request, request_of};
