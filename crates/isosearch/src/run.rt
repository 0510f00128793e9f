// The command, over any files and sinks.
ghost use Rattle.std.specs.Prelude.{◌≡◌, ◌↔◌, ◌≤◌, map, string_bytes, None};
ghost use Rattle.sig_base.specs.Faults.{NoneFell};
ghost use Rattle.query_cli.specs.Commands.{command_of};
ghost use Rattle.isosearch.specs.Ending.{EndsAsAsked, IsAnswered, IsRefused};
ghost use Rattle.isosearch.specs.Lines.{Says, no_memory_line, usage_line};
ghost use Rattle.isosearch.specs.Outside.{outside, stream};

use crate::answering::{Answer, answer_to};
use crate::commands::{out_of, paths_of};
use crate::laws::{indexes_change_no_byte, one_outcome};
use crate::lines;
use crate::refusing::refuse;
use crate::writing::{print, write_file};
use query_cli::{WordsRefusal, read_words};
use sig_base::{Files, Sink};
use std::alloc::Global;

/// Does what the words ask, and answers the status: 0 where the command was done, but 1 for a search without a hit,
/// 2 where the words are no command, 3 where a file is refused or there are too many, 4 where the query is refused,
/// 5 where a file can't be read, 6 where the output or the index file can't be written, 7 where memory is wanted,
/// 8 where the file that is to be an index is none.
pub fn run<F: Files, O: Sink, E: Sink>(
    alloc: Global,
    words: &[String],
    files: &mut F,
    out: &mut O,
    err: &mut E,
) -> u8
    ensures statuses { result ≤ 8 }

    // What comes of the words, and of what they ask for.
    ensures usage { (result ≡ 2) ↔ (command_of (map string_bytes words.now) ≡ None) }
    ensures ends { EndsAsAsked F.Files (map string_bytes words.now) result (outside F.Files O.Sink E.Sink files.old out.old err.old) (outside F.Files O.Sink E.Sink files.new out.new err.new) }

    // What is written besides.
    ensures nothing { IsRefused result → O.written out.new ≡ O.written out.old }
    ensures quiet { IsAnswered result → E.written err.new ≡ E.written err.old }
    ensures says_usage { result ≡ 2 → Says (stream E.Sink err.old) (stream E.Sink err.new) usage_line }
    ensures says_memory { result ≡ 7 → Says (stream E.Sink err.old) (stream E.Sink err.new) no_memory_line }

    // What stays.
    ensures untouched { result ≡ 2 → files.new ≡ files.old }
    ensures read_counts { NoneFell (F.read_faults files.old) (F.read_faults files.new) }
    ensures write_counts { NoneFell (F.write_faults files.old) (F.write_faults files.new) }
{
    one_outcome();
    indexes_change_no_byte();
    let command = match read_words(alloc, words) {
        Ok(command) => command,
        Err(WordsRefusal::Usage) => {
            lines::usage(err);
            return 2;
        }
        Err(WordsRefusal::NoMemory) => {
            lines::no_memory(err);
            return 7;
        }
    };
    match answer_to(alloc, &command, files) {
        Ok(Answer::Report { text, found_none }) => print(text.as_slice(), found_none, out, err),
        Ok(Answer::Index(text)) => write_file(files, out_of(&command), text.as_slice(), err),
        Err(refusal) => refuse(err, paths_of(&command), refusal),
    }
}
