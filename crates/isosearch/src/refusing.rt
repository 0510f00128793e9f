// What is said of a command that has no answer.
ghost use Rattle.std.specs.Prelude.{◌≡◌};
ghost use Rattle.isosearch.specs.Answering.{refusal_of};
ghost use Rattle.isosearch.specs.Lines.{Says};
ghost use Rattle.isosearch.specs.Outcome.{path_at as the_path, refused_files};
ghost use Rattle.isosearch.specs.Outside.{stream};

use crate::answering::Refusal;
use crate::lines;
use lib_load::{LoadRefusal, MAX_FILES};
use sig_base::{Sink, Str};
use sml_lexer::LineCol;

// The path of this number.
fn path_at(paths: &[Str], place: usize) -> &str
    ensures { result.now ≡ the_path paths.now place }
{
    match paths.get(place) {
        Some(path) => path.as_str(),
        None => "",
    }
}

// Says why the files at these paths have no library, and answers the status.
fn refuse_files<E: Sink>(err: &mut E, paths: &[Str], refusal: LoadRefusal) -> u8
    ensures status { result ≡ (refused_files paths.now refusal).status }
    ensures line { Says (stream E.Sink err.old) (stream E.Sink err.new) (refused_files paths.now refusal).err }
{
    match refusal {
        LoadRefusal::TooManyFiles => {
            lines::too_many(err, path_at(paths, MAX_FILES));
            3
        }
        LoadRefusal::ReadFault(file) => {
            lines::not_read(err, path_at(paths, file as usize));
            5
        }
        LoadRefusal::TooLong(file) => {
            lines::too_long(err, path_at(paths, file as usize));
            3
        }
        LoadRefusal::Bad {
            file,
            line,
            col,
            fault,
        } => {
            lines::bad_file(
                err,
                path_at(paths, file as usize),
                fault,
                LineCol { line, col },
            );
            3
        }
        LoadRefusal::NotAnIndex => {
            lines::no_index(err, path_at(paths, 0));
            8
        }
        LoadRefusal::NoMemory => {
            lines::no_memory(err);
            7
        }
    }
}

/// Says why there is no answer, where the files are at these paths, and answers the status.
pub fn refuse<E: Sink>(err: &mut E, paths: &[Str], refusal: Refusal) -> u8
    ensures status { result ≡ (refusal_of paths.now refusal).status }
    ensures line { Says (stream E.Sink err.old) (stream E.Sink err.new) (refusal_of paths.now refusal).err }
{
    match refusal {
        Refusal::Files(refusal) => refuse_files(err, paths, refusal),
        Refusal::Query(why, at) => {
            lines::bad_query(err, why, at);
            4
        }
        Refusal::NoMemory => {
            lines::no_memory(err);
            7
        }
    }
}
