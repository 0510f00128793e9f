// What commands read and write.
ghost use Rattle.std.specs.Prelude.{◌≡◌};
ghost use Rattle.isosearch.specs.Answering.{out_of as the_out};
ghost use Rattle.isosearch.specs.Asked.{mode_of as the_mode, paths_of as the_paths};

use query_cli::{Command, FindMode};
use search_core::Mode;
use sig_base::Str;

/// The mode of a search.
pub fn mode_of(mode: FindMode) -> Mode
    ensures { result ≡ the_mode mode }
{
    match mode {
        FindMode::Same => Mode::Same,
        FindMode::Iso => Mode::Iso,
        FindMode::General => Mode::General,
    }
}

/// The paths of the files that a command reads.
pub fn paths_of(command: &Command) -> &[Str]
    ensures { result.now ≡ the_paths command.now }
{
    match command {
        Command::Listing { files, .. }
        | Command::Find { files, .. }
        | Command::Index { files, .. } => files.as_slice(),
        Command::Gen { .. } => &[],
    }
}

/// The path of the file that a command writes, if any.
pub fn out_of(command: &Command) -> &str
    ensures { result.now ≡ the_out command.now }
{
    match command {
        Command::Index { out, .. } => out.as_str(),
        _ => "",
    }
}
