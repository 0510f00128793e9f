// The command of a list of words.
ghost use Rattle.std.specs.Prelude.{◌≡◌, ◌↔◌, map, string_bytes, IfOk, None, Some, Err};
ghost use Rattle.query_cli.specs.Commands.{command_of};
ghost use Rattle.query_cli.specs.Requests.{asked, values_in};

use crate::arguments::Arguments;
use crate::command::{Command, WordsRefusal};
use crate::request::{Request, request_of};
use sig_base::{List, NoMemory, Str};
use std::alloc::Global;

fn copies_of(alloc: Global, values: Arguments<'_>) -> Result<List<Str>, NoMemory>
    ensures value { IfOk result (λ copies. copies ≡ values_in values.entry) }
{
    let mut copies = List::new(alloc);
    let mut rest = values;
    'values: while let Some((value, others)) = rest.split_first() {
        copies.push(Str::copy_of(alloc, value)?)?;
        rest = others;
    }
    Ok(copies)
}

fn command_of(alloc: Global, request: Request<'_>) -> Result<Command, NoMemory>
    ensures value { IfOk result (λ command. command ≡ asked request.entry) }
{
    match request {
        Request::Listing { files, from_index } => Ok(Command::Listing {
            files: copies_of(alloc, files)?,
            from_index,
        }),
        Request::Find {
            mode,
            query,
            files,
            names,
            from_index,
        } => Ok(Command::Find {
            mode,
            query: Str::copy_of(alloc, query)?,
            files: copies_of(alloc, files)?,
            names,
            from_index,
        }),
        Request::Index { out, files } => Ok(Command::Index {
            out: Str::copy_of(alloc, out)?,
            files: copies_of(alloc, files)?,
        }),
        Request::Gen { n } => Ok(Command::Gen { n }),
    }
}

/// The command of the words after the program's name; `Usage` exactly where they are no command, which takes no
/// memory.
pub fn read_words(alloc: Global, words: &[String]) -> Result<Command, WordsRefusal>
    ensures command { IfOk result (λ command. command_of (map string_bytes words.now) ≡ Some command) }
    ensures usage { (result ≡ Err WordsRefusal.Usage) ↔ (command_of (map string_bytes words.now) ≡ None) }
{
    match request_of(words) {
        None => Err(WordsRefusal::Usage),
        Some(request) => Ok(command_of(alloc, request)?),
    }
}
