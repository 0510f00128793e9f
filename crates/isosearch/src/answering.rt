// What a command comes to, before anything is written.
ghost use Rattle.std.specs.Prelude.{◌≡◌, ◌<◌, ◌≤◌, List, length, IfOk};
ghost use Rattle.lib_load.specs.Loading.{FailsAt, most_files};
ghost use Rattle.sig_base.specs.Faults.{NoneFell};
ghost use Rattle.isosearch.specs.Answering.{Fits, IfUnread, IsAnswerTo, IsDueGiven, IsDueTold, IsFinding, StopsAt, answered};
ghost use Rattle.isosearch.specs.Asked.{CanBeAsked, paths_of};
ghost use Rattle.isosearch.specs.Outcome.{searched};
ghost use Rattle.isosearch.specs.declared.answering.Refusal.TheVariants as refusal;
ghost use Rattle.query_cli.specs.declared.command.Command.{Command as ACommand};
ghost use Rattle.search_core.specs.declared.answer.Hit.{Hit};
ghost use Rattle.search_core.specs.Search.{AreHits, CanBeSearchedFor};
ghost use Rattle.type_core.specs.ValidLibrary.{IsValidLibrary};

use crate::commands::mode_of;
use crate::loading::load;
use lib_gen::gen_summary;
use lib_index::encode;
use lib_load::LoadRefusal;
use query_cli::Command;
use query_parser::{QueryRefusal, QueryWhy, read_query};
use search_core::{
    Mode, hits_are_members, list_report, report, search, valid_libraries_can_be_searched,
};
use sig_base::{Files, NoMemory, Text};
use sml_lexer::{LineCol, position};
use std::alloc::Global;
use type_core::{Library, Scheme};

/// What a command comes to.
#[derive(Drop)]
pub enum Answer {
    /// A text for the output, and whether it is that of a search which found nothing.
    Report { text: Text, found_none: bool },
    /// The index text of a library, for the file that the command writes.
    Index(Text),
}

/// Why there is no answer.
#[derive(Clone, Copy, Debug, PartialEq, Eq)]
pub enum Refusal {
    /// The files have no library.
    Files(LoadRefusal),
    /// This is wrong with the query, at a line and a column.
    Query(QueryWhy, LineCol),
    NoMemory,
}

impl From<NoMemory> for Refusal {
    ghost from_gives = { λ _ r. r ≡ refusal.NoMemory };

    fn from(_: NoMemory) -> Refusal {
        Refusal::NoMemory
    }
}

// The report of the hits of a scheme in a library.
fn report_hits(
    alloc: Global,
    library: &Library,
    mode: Mode,
    scheme: &Scheme,
    names_only: bool,
) -> Result<Answer, NoMemory>
    requires valid { IsValidLibrary library.now }
    requires scheme { CanBeSearchedFor scheme.now }
    ensures hits { IfOk result (λ a. (hits : List Hit) × AreHits library.now mode scheme.now hits × ((asked : ACommand) → answered asked a ≡ searched library.now hits names_only)) }
    ensures fits { IfOk result (λ a. (asked : ACommand) → Fits asked a) }
{
    valid_libraries_can_be_searched();
    hits_are_members();
    let answer = search(alloc, library, mode, scheme)?;
    let text = report(alloc, library, &answer, names_only)?;
    Ok(Answer::Report {
        text,
        found_none: answer.hits.is_empty(),
    })
}

// The report of a query over a library.
fn find(
    alloc: Global,
    library: &Library,
    mode: Mode,
    query: &str,
    names_only: bool,
) -> Result<Answer, Refusal>
    requires valid { IsValidLibrary library.now }
    ensures answer { IsFinding library.now mode query.now names_only result }
    ensures fits { IfOk result (λ a. (asked : ACommand) → Fits asked a) }
    ensures fault { IfUnread result (λ _. ⊥) }
{
    match read_query(alloc, library, query) {
        Ok(scheme) => {
            let report = report_hits(alloc, library, mode, &scheme, names_only)?;
            Ok(report)
        }
        Err(QueryRefusal::Refused(why, place)) => {
            Err(Refusal::Query(why, position(query.as_bytes(), place)))
        }
        Err(QueryRefusal::NoMemory) => Err(Refusal::NoMemory),
    }
}

// What a command comes to over a library.
fn answer_over(alloc: Global, library: &Library, command: &Command) -> Result<Answer, Refusal>
    requires valid { IsValidLibrary library.now }
    requires asked { CanBeAsked command.now }
    ensures answer { IsAnswerTo library.now command.now result }
    ensures fits { IfOk result (Fits command.now) }
    ensures fault { IfUnread result (λ _. ⊥) }
{
    match command {
        Command::Listing { .. } => {
            let text = list_report(alloc, library)?;
            Ok(Answer::Report {
                text,
                found_none: false,
            })
        }
        Command::Find {
            mode,
            query,
            names,
            ..
        } => find(alloc, library, mode_of(*mode), query.as_str(), *names),
        Command::Index { .. } => {
            let text = encode(alloc, library)?;
            Ok(Answer::Index(text))
        }
        Command::Gen { n } => {
            let text = gen_summary(alloc, *n)?;
            Ok(Answer::Report {
                text,
                found_none: false,
            })
        }
    }
}

/// What a command comes to. Files are only read for it: none is written before the whole index text is there.
pub fn answer_to<F: Files>(
    alloc: Global,
    command: &Command,
    files: &mut F,
) -> Result<Answer, Refusal>
    requires asked { CanBeAsked command.now }
    ensures given { IsDueGiven F.gives F.read_faults files.old files.new command.now result }
    ensures told { IsDueTold (F.files files.old) command.now result }
    ensures fits { IfOk result (Fits command.now) }
    ensures few { IfOk result (λ _. length (paths_of command.now) ≤ most_files) }
    ensures fault { IfUnread result (FailsAt (paths_of command.now) (F.read_faults files.old) (F.read_faults files.new)) }
    ensures stopped { IfUnread result (StopsAt F.gives F.read_faults command.now files.old files.new) }
    ensures unread { most_files < length (paths_of command.now) → files.new ≡ files.old }
    ensures counts { NoneFell (F.read_faults files.old) (F.read_faults files.new) }
    ensures no_write { F.write_faults files.new ≡ F.write_faults files.old }
    ensures kept { F.files files.new ≡ F.files files.old }
{
    match load(alloc, files, command) {
        Ok(library) => answer_over(alloc, &library, command),
        Err(refusal) => Err(Refusal::Files(refusal)),
    }
}
