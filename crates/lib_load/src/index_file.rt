// The library of an index file.
ghost use Rattle.std.specs.Prelude.{◌≡◌, [], ◌∷◌, IfErr, IfOk};
ghost use Rattle.sig_base.specs.Faults.{NoneFell};
ghost use Rattle.type_core.specs.ValidLibrary.{IsValidLibrary};
ghost use Rattle.lib_load.specs.Given.{FromGiven, index_limit};
ghost use Rattle.lib_load.specs.Indexes.{LoadsIndex, LoadsIndexTold, RefusesIndex};
ghost use Rattle.lib_load.specs.Loading.{FailsAt, IfReadFault, IsAnswer, IsDecided};

use crate::refusals::LoadRefusal;
use lib_index::{IndexRefusal, decode};
use sig_base::{Files, ReadRefusal, read_whole};
use std::alloc::Global;
use type_core::Library;

const MAX_INDEX_BYTES: u32 = 67_108_864;

/// The library of the index file at this path.
///
/// `NotAnIndex` comes exactly where what was read is the index text of no valid library. Where the file has more than
/// 67,108,864 bytes, no more are read: it is none either.
pub fn load_index<F: Files>(
    alloc: Global,
    files: &mut F,
    path: &str,
) -> Result<Library, LoadRefusal>
    ensures given { IsAnswer result → FromGiven index_limit F.gives F.read_faults (path.now ∷ []) files.old files.new (LoadsIndex result) }
    ensures told { IsDecided result → LoadsIndexTold (F.files files.old) path.now result }
    ensures valid { IfOk result IsValidLibrary }
    ensures refusals { IfErr result RefusesIndex }
    ensures read_fault { IfReadFault result (FailsAt (path.now ∷ []) (F.read_faults files.old) (F.read_faults files.new)) }
    ensures counts { NoneFell (F.read_faults files.old) (F.read_faults files.new) }
    ensures no_write { F.write_faults files.new ≡ F.write_faults files.old }
    ensures kept { F.files files.new ≡ F.files files.old }
{
    match read_whole(alloc, files, path, MAX_INDEX_BYTES) {
        Ok(bytes) => match decode(alloc, bytes.as_slice()) {
            Ok(library) => Ok(library),
            Err(IndexRefusal::NotAnIndex) => Err(LoadRefusal::NotAnIndex),
            Err(IndexRefusal::NoMemory) => Err(LoadRefusal::NoMemory),
        },
        Err(ReadRefusal::ReadFault) => Err(LoadRefusal::ReadFault(0)),
        Err(ReadRefusal::TooLong) => Err(LoadRefusal::NotAnIndex),
        Err(ReadRefusal::NoMemory) => Err(LoadRefusal::NoMemory),
    }
}
