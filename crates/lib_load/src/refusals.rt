// Why files have no library.
ghost use Rattle.std.specs.Prelude.{◌≡◌};
ghost use Rattle.lib_load.specs.Files.{text_fault, text_refusal};
ghost use Rattle.lib_load.specs.declared.refusals.FileRefusal.TheVariants as file_refusal;
ghost use Rattle.lib_load.specs.declared.refusals.LoadRefusal.TheVariants as refusal;

use elab_types::{TextFault, TextRefusal};
use sig_base::NoMemory;
use sig_elab::Why;

/// What is wrong with a file, at a place that is told beside it.
#[derive(Clone, Copy, Debug, PartialEq, Eq)]
pub enum Fault {
    /// No separator, comment or token begins there.
    BadByte,
    /// A comment begins there that isn't closed.
    OpenComment,
    /// A token begins there that has a part of more than 255 bytes.
    LongName,
    /// The tokens before it begin a file, and with the one there they don't.
    Syntax,
    /// A `(`, a `{` or a `sig` stands there, with 200 of them open before it.
    TooDeep,
    /// A condition of elaboration fails there.
    Elab(Why),
}

impl From<TextFault> for Fault {
    ghost from_gives = { λ wrong fault. fault ≡ text_fault wrong };

    fn from(wrong: TextFault) -> Fault {
        match wrong {
            TextFault::BadByte => Fault::BadByte,
            TextFault::OpenComment => Fault::OpenComment,
            TextFault::LongName => Fault::LongName,
            TextFault::Syntax => Fault::Syntax,
            TextFault::TooDeep => Fault::TooDeep,
        }
    }
}

/// Why a file can't follow those before it.
#[derive(Clone, Copy, Debug, PartialEq, Eq)]
pub enum FileRefusal {
    /// This is wrong with it, at this byte.
    Refused(Fault, u32),
    NoMemory,
}

impl From<TextRefusal> for FileRefusal {
    ghost from_gives = { λ wrong refusal. refusal ≡ text_refusal wrong };

    fn from(wrong: TextRefusal) -> FileRefusal {
        match wrong {
            TextRefusal::Refused(fault, place) => FileRefusal::Refused(Fault::from(fault), place),
            TextRefusal::NoMemory => FileRefusal::NoMemory,
        }
    }
}

/// Why files have no library. Files are numbered from 0, in the order of their paths.
#[derive(Clone, Copy, Debug, PartialEq, Eq)]
pub enum LoadRefusal {
    /// There are more than 512 paths.
    TooManyFiles,
    /// A read of this file failed: its path's count of faults rose.
    ReadFault(u32),
    /// This file has more than 4,194,304 bytes.
    TooLong(u32),
    /// This is wrong with a file, at a line and a column.
    Bad {
        file: u32,
        line: u32,
        col: u32,
        fault: Fault,
    },
    /// The file is no index of a library.
    NotAnIndex,
    /// Memory was wanted.
    NoMemory,
}

impl From<NoMemory> for LoadRefusal {
    ghost from_gives = { λ _ r. r ≡ refusal.NoMemory };

    fn from(_: NoMemory) -> LoadRefusal {
        LoadRefusal::NoMemory
    }
}
