// The lines for standard error. None of them takes memory.
ghost use Rattle.std.specs.Prelude.{◌++◌, map};
ghost use Rattle.std.specs.List.{concat};
ghost use Rattle.isosearch.specs.Lines.{Says, fault_text as the_fault_text, no_index_line, no_memory_line, not_read_line, not_written_line, query_name, query_text as the_query_text, refusal_at, too_long_line, too_many_line, usage_line};
ghost use Rattle.isosearch.specs.Outside.{stream};

use crate::decimal::Decimal;
use crate::fault::{fault_text, query_text};
use lib_load::Fault;
use query_parser::QueryWhy;
use sig_base::{Sink, write_all};
use sml_lexer::LineCol;

// Writes pieces one after the other, until one fails.
fn say<E: Sink>(err: &mut E, pieces: &[&[u8]])
    ensures { Says (stream E.Sink err.old) (stream E.Sink err.new) (concat (map (λ piece. piece.now) pieces.now)) }
{
    for piece in pieces {
        match write_all(err, piece) {
            Ok(()) => {}
            Err(_) => return,
        }
    }
}

// Writes a name and what is said of it.
fn say_of<E: Sink>(err: &mut E, name: &str, text: &str)
    ensures { Says (stream E.Sink err.old) (stream E.Sink err.new) (name.now ++ text.now) }
{
    say(err, &[name.as_bytes(), text.as_bytes()]);
}

/// The words are no command.
pub fn usage<E: Sink>(err: &mut E)
    ensures { Says (stream E.Sink err.old) (stream E.Sink err.new) usage_line }
{
    say_of(
        err,
        "",
        "usage: isosearch list|same|iso|general|index|gen\n",
    );
}

/// Memory was wanted.
pub fn no_memory<E: Sink>(err: &mut E)
    ensures { Says (stream E.Sink err.old) (stream E.Sink err.new) no_memory_line }
{
    say_of(err, "", "out of memory\n");
}

/// Writing to the output, or to a file, failed.
pub fn not_written<E: Sink>(err: &mut E, name: &str)
    ensures { Says (stream E.Sink err.old) (stream E.Sink err.new) (not_written_line name.now) }
{
    say_of(err, name, ": cannot be written\n");
}

/// A file failed.
pub fn not_read<E: Sink>(err: &mut E, file: &str)
    ensures { Says (stream E.Sink err.old) (stream E.Sink err.new) (not_read_line file.now) }
{
    say_of(err, file, ": cannot be read\n");
}

/// A file is longer than a source may be.
pub fn too_long<E: Sink>(err: &mut E, file: &str)
    ensures { Says (stream E.Sink err.old) (stream E.Sink err.new) (too_long_line file.now) }
{
    say_of(err, file, ": longer than 4194304 bytes\n");
}

/// A file is the index text of no library.
pub fn no_index<E: Sink>(err: &mut E, file: &str)
    ensures { Says (stream E.Sink err.old) (stream E.Sink err.new) (no_index_line file.now) }
{
    say_of(err, file, ": not an index\n");
}

/// A file is one too many.
pub fn too_many<E: Sink>(err: &mut E, file: &str)
    ensures { Says (stream E.Sink err.old) (stream E.Sink err.new) (too_many_line file.now) }
{
    say_of(err, file, ": more than 512 files\n");
}

// A source is refused at a line and a column.
fn refusal<E: Sink>(err: &mut E, name: &str, at: LineCol, text: &str)
    ensures { Says (stream E.Sink err.old) (stream E.Sink err.new) (refusal_at name.now at.line at.col text.now) }
{
    let line = Decimal::of(at.line);
    let column = Decimal::of(at.col);
    say(
        err,
        &[
            name.as_bytes(),
            b":".as_slice(),
            line.as_slice(),
            b":".as_slice(),
            column.as_slice(),
            b": ".as_slice(),
            text.as_bytes(),
            b"\n".as_slice(),
        ],
    );
}

/// This is wrong with a file.
pub fn bad_file<E: Sink>(err: &mut E, file: &str, fault: Fault, at: LineCol)
    ensures { Says (stream E.Sink err.old) (stream E.Sink err.new) (refusal_at file.now at.line at.col (the_fault_text fault)) }
{
    refusal(err, file, at, fault_text(fault));
}

/// This is wrong with the query.
pub fn bad_query<E: Sink>(err: &mut E, why: QueryWhy, at: LineCol)
    ensures { Says (stream E.Sink err.old) (stream E.Sink err.new) (refusal_at query_name at.line at.col (the_query_text why)) }
{
    refusal(err, "query", at, query_text(why));
}
