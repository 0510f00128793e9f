// The library of what a command reads.
ghost use Rattle.std.specs.Prelude.{◌≡◌, ◌<◌, ◌≤◌, length, IfOk, IfSome, IsTrue};
ghost use Rattle.sig_base.specs.Faults.{NoneFell};
ghost use Rattle.lib_load.specs.Given.{FromGiven, held};
ghost use Rattle.lib_load.specs.Loading.{FailsAt, IfReadFault, IsAnswer, IsDecided, most_files};
ghost use Rattle.isosearch.specs.Asked.{CanBeAsked, LoadsFor, LoadsFrom, OfHeld, limit_for, limit_of, paths_of};
ghost use Rattle.type_core.specs.ValidLibrary.{IsValidLibrary};

use lib_load::{LoadRefusal, load_files, load_index};
use query_cli::Command;
use sig_base::{Files, List, Str};
use std::alloc::Global;
use type_core::Library;

// The library of files, or of the one index.
fn load_from<F: Files>(
    alloc: Global,
    files: &mut F,
    paths: &List<Str>,
    from_index: bool,
) -> Result<Library, LoadRefusal>
    requires one { IsTrue from_index → length paths.now ≡ 1 }
    ensures given { IsAnswer result → FromGiven (limit_for from_index) F.gives F.read_faults paths.now files.old files.new (LoadsFrom from_index (length paths.now) result) }
    ensures told { IsDecided result → IfSome (F.files files.old) (λ told. LoadsFrom from_index (length paths.now) result (held (limit_for from_index) told paths.now)) }
    ensures valid { IfOk result IsValidLibrary }
    ensures few { IfOk result (λ _. length paths.now ≤ most_files) }
    ensures unread { most_files < length paths.now → files.new ≡ files.old }
    ensures read_fault { IfReadFault result (FailsAt paths.now (F.read_faults files.old) (F.read_faults files.new)) }
    ensures counts { NoneFell (F.read_faults files.old) (F.read_faults files.new) }
    ensures no_write { F.write_faults files.new ≡ F.write_faults files.old }
    ensures kept { F.files files.new ≡ F.files files.old }
{
    if !from_index {
        return load_files(alloc, files, paths);
    }
    match paths.get(0) {
        Some(path) => load_index(alloc, files, path.as_str()),
        None => unreachable!(),
    }
}

/// The library of what a command reads; that of no files, where it reads none.
pub fn load<F: Files>(
    alloc: Global,
    files: &mut F,
    command: &Command,
) -> Result<Library, LoadRefusal>
    requires asked { CanBeAsked command.now }
    ensures given { IsAnswer result → FromGiven (limit_of command.now) F.gives F.read_faults (paths_of command.now) files.old files.new (LoadsFor command.now result) }
    ensures told { IsDecided result → OfHeld (F.files files.old) command.now (LoadsFor command.now result) }
    ensures valid { IfOk result IsValidLibrary }
    ensures few { IfOk result (λ _. length (paths_of command.now) ≤ most_files) }
    ensures unread { most_files < length (paths_of command.now) → files.new ≡ files.old }
    ensures read_fault { IfReadFault result (FailsAt (paths_of command.now) (F.read_faults files.old) (F.read_faults files.new)) }
    ensures counts { NoneFell (F.read_faults files.old) (F.read_faults files.new) }
    ensures no_write { F.write_faults files.new ≡ F.write_faults files.old }
    ensures kept { F.files files.new ≡ F.files files.old }
{
    match command {
        Command::Listing {
            files: paths,
            from_index,
        } => load_from(alloc, files, paths, *from_index),
        Command::Find {
            files: paths,
            from_index,
            ..
        } => load_from(alloc, files, paths, *from_index),
        Command::Index { files: paths, .. } => load_from(alloc, files, paths, false),
        Command::Gen { .. } => load_from(alloc, files, &List::new(alloc), false),
    }
}
