// The library of signature files, and of a text.
ghost use Rattle.std.specs.Prelude.{◌≡◌, ◌↔◌, ◌<◌, ◌≤◌, [], ◌∷◌, length, IfOk, IsErrOf};
ghost use Rattle.sig_base.specs.Faults.{NoneFell, Rose};
ghost use Rattle.elab_rules.specs.Library.{empty_basis};
ghost use Rattle.type_core.specs.ValidLibrary.{IsValidLibrary};
ghost use Rattle.lib_load.specs.Given.{FromGiven, file_limit, text};
ghost use Rattle.lib_load.specs.Loading.{FailsAt, IfReadFault, IsAnswer, IsDecided, Loads, LoadsTold, TakesFiles, most_files};

use crate::elaborating::with_text;
use crate::laws::given_texts_are_held;
use crate::refusals::{FileRefusal, LoadRefusal};
use sig_base::{Files, List, ReadRefusal, Str, read_whole};
use sig_elab::Elab;
use sml_lexer::position;
use std::alloc::Global;
use type_core::Library;

const MAX_BYTES: u32 = 4_194_304;

/// The greatest number of files.
pub const MAX_FILES: usize = 512;

/// The library of the files at these paths, each elaborated over those before it.
///
/// Files are read in the order of their paths, and the first that can't be read or is refused ends the call. Where there
/// are more than 512 paths nothing is read.
pub fn load_files<F: Files>(
    alloc: Global,
    files: &mut F,
    paths: &List<Str>,
) -> Result<Library, LoadRefusal>
    ensures given { IsAnswer result → FromGiven file_limit F.gives F.read_faults paths.now files.old files.new (Loads (length paths.now) result) }
    ensures told { IsDecided result → LoadsTold (F.files files.old) paths.now result }
    ensures valid { IfOk result IsValidLibrary }
    ensures too_many { IsErrOf result LoadRefusal.TooManyFiles ↔ (most_files < length paths.now) }
    ensures unread { most_files < length paths.now → files.new ≡ files.old }
    ensures read_fault { IfReadFault result (FailsAt paths.now (F.read_faults files.old) (F.read_faults files.new)) }
    ensures counts { NoneFell (F.read_faults files.old) (F.read_faults files.new) }
    ensures no_write { F.write_faults files.new ≡ F.write_faults files.old }
    ensures kept { F.files files.new ≡ F.files files.old }
{
    if paths.len() > MAX_FILES {
        return Err(LoadRefusal::TooManyFiles);
    }
    given_texts_are_held::<F>();
    match take_all(alloc, files, paths.as_slice()) {
        Ok(elab) => {
            let library = elab.finish(alloc)?;
            Ok(library)
        }
        Err(refusal) => Err(refusal),
    }
}

/// The library of one file of this text.
pub fn library_of_text(alloc: Global, bytes: &[u8]) -> Result<Library, LoadRefusal>
    requires size { length bytes.now ≤ file_limit }
    ensures given { IsAnswer result → Loads 1 result (text bytes.now ∷ []) }
    ensures valid { IfOk result IsValidLibrary }
{
    let elab = Elab::new(alloc)?;
    match take_text(alloc, bytes, 0, elab) {
        Ok(elab) => {
            let library = elab.finish(alloc)?;
            Ok(library)
        }
        Err(refusal) => Err(refusal),
    }
}

// Takes the files at these paths in turn.
fn take_all<F: Files>(alloc: Global, files: &mut F, paths: &[Str]) -> Result<Elab, LoadRefusal>
    requires few { length paths.now ≤ most_files }
    ensures given { IsAnswer result → FromGiven file_limit F.gives F.read_faults paths.now files.old files.new (TakesFiles 0 empty_basis (length paths.now) result) }
    ensures few { IsErrOf result LoadRefusal.TooManyFiles → ⊥ }
    ensures read_fault { IfReadFault result (FailsAt paths.now (F.read_faults files.old) (F.read_faults files.new)) }
    ensures counts { NoneFell (F.read_faults files.old) (F.read_faults files.new) }
    ensures no_write { F.write_faults files.new ≡ F.write_faults files.old }
    ensures kept { F.files files.new ≡ F.files files.old }
{
    let mut elab = Elab::new(alloc)?;
    for i in 0..paths.len() {
        elab = take_file(alloc, files, paths[i].as_str(), i as u32, elab)?;
    }
    Ok(elab)
}

// Reads a file, before which there are so many, and elaborates it over them.
fn take_file<F: Files>(
    alloc: Global,
    files: &mut F,
    path: &str,
    before: u32,
    elab: Elab,
) -> Result<Elab, LoadRefusal>
    ensures given { IsAnswer result → FromGiven file_limit F.gives F.read_faults (path.now ∷ []) files.old files.new (TakesFiles before elab 1 result) }
    ensures few { IsErrOf result LoadRefusal.TooManyFiles → ⊥ }
    ensures read_fault { IfReadFault result (λ place. (place ≡ before) × Rose (F.read_faults files.old path.now) (F.read_faults files.new path.now)) }
    ensures counts { NoneFell (F.read_faults files.old) (F.read_faults files.new) }
    ensures no_write { F.write_faults files.new ≡ F.write_faults files.old }
    ensures kept { F.files files.new ≡ F.files files.old }
{
    match read_whole(alloc, files, path, MAX_BYTES) {
        Ok(bytes) => take_text(alloc, bytes.as_slice(), before, elab),
        Err(ReadRefusal::ReadFault) => Err(LoadRefusal::ReadFault(before)),
        Err(ReadRefusal::TooLong) => Err(LoadRefusal::TooLong(before)),
        Err(ReadRefusal::NoMemory) => Err(LoadRefusal::NoMemory),
    }
}

// Elaborates a file of this text, before which there are so many, over them.
fn take_text(alloc: Global, bytes: &[u8], before: u32, elab: Elab) -> Result<Elab, LoadRefusal>
    requires size { length bytes.now ≤ file_limit }
    ensures taken { IsAnswer result → TakesFiles before elab 1 result (text bytes.now ∷ []) }
    ensures few { IsErrOf result LoadRefusal.TooManyFiles → ⊥ }
    ensures read { IfReadFault result (λ place. ⊥) }
{
    match with_text(alloc, bytes, elab) {
        Ok(after) => Ok(after),
        Err(FileRefusal::Refused(fault, place)) => {
            let at = position(bytes, place);
            Err(LoadRefusal::Bad {
                file: before,
                line: at.line,
                col: at.col,
                fault,
            })
        }
        Err(FileRefusal::NoMemory) => Err(LoadRefusal::NoMemory),
    }
}
