// Reading a file whole.
ghost use Rattle.std.specs.Prelude.{◌≡◌, ◌≤◌, ◌<◌, ◌+◌, length, IfOk, IsErrOf, List, ℕ};
ghost use Rattle.sig_base.specs.Faults.{Rose, NoneFell};
ghost use Rattle.sig_base.specs.Reading.{FailedWithin, GaveAll, GaveMore, Holds, HoldsMore};
ghost use Rattle.sig_base.specs.Refusals.{refusal_of};
ghost use Rattle.sig_base.specs.declared.read.ReadRefusal.TheVariants.{NoMemory};

use crate::{Files, List, Trouble};
use std::alloc::{AllocError, Global};

// The least room of a read, for files that aren't expected to have many bytes.
const LEAST_PIECE: usize = 65_536;

/// Why a file was not read whole.
#[derive(Clone, Copy, Debug, PartialEq, Eq)]
pub enum ReadRefusal {
    /// A read failed: the path's count of faults rose.
    ReadFault,
    /// More bytes were read than are allowed.
    TooLong,
    /// Memory was wanted.
    NoMemory,
}

impl From<AllocError> for ReadRefusal {
    ghost from_gives = { λ _ refusal. refusal ≡ NoMemory };

    fn from(_: AllocError) -> ReadRefusal {
        ReadRefusal::NoMemory
    }
}

impl From<Trouble> for ReadRefusal {
    ghost from_gives = { λ trouble refusal. refusal ≡ refusal_of trouble };

    fn from(trouble: Trouble) -> ReadRefusal {
        match trouble {
            Trouble::Failed => ReadRefusal::ReadFault,
            Trouble::NoMemory => ReadRefusal::NoMemory,
        }
    }
}

// How much the next read has room for: all that the file is expected to have, and at least as much as was read so far,
// but never more than what makes the file too long.
fn piece_size(read: usize, expected: usize, limit: usize) -> usize
    requires { read ≤ limit }
    ensures some { 0 < result }
    ensures within { read + result ≤ limit + 1 }
{
    let left = limit - read;
    (read.max(expected).max(LEAST_PIECE) - 1).min(left) + 1
}

/// Reads a file to its end. Once it has more than `limit` bytes, none are read any more, and it is too long.
pub fn read_whole<F: Files>(
    alloc: Global,
    files: &mut F,
    path: &str,
    limit: u32,
) -> Result<List<u8>, ReadRefusal>
    ensures given { IfOk result (λ bytes. GaveAll F.gives path.now files.old bytes files.new) }
    ensures given_more { IsErrOf result ReadRefusal.TooLong → GaveMore F.gives path.now files.old limit files.new }
    ensures given_fault { IsErrOf result ReadRefusal.ReadFault → FailedWithin F.gives F.read_faults path.now files.old limit files.new }
    ensures whole { IfOk result (λ bytes. Holds (F.files files.old) path.now bytes) }
    ensures short { IfOk result (λ bytes. length bytes ≤ limit) }
    ensures too_long { IsErrOf result ReadRefusal.TooLong → HoldsMore (F.files files.old) path.now limit }
    ensures fault { IsErrOf result ReadRefusal.ReadFault → Rose (F.read_faults files.old path.now) (F.read_faults files.new path.now) }
    ensures counts { NoneFell (F.read_faults files.old) (F.read_faults files.new) }
    ensures no_write { F.write_faults files.new ≡ F.write_faults files.old }
    ensures kept { F.files files.new ≡ F.files files.old }
{
    let limit = limit as usize;
    let expected = usize::try_from(files.expected_length(path)).unwrap_or(limit);
    let mut bytes = Vec::new(alloc);
    let mut buffer = Vec::new(alloc);
    'pieces: while bytes.len() <= limit {
        buffer.resize(piece_size(bytes.len(), expected, limit), 0)?;
        let piece = buffer.as_mut_slice();
        let count = files.read(path, bytes.len() as u64, piece)?;
        let ended = count == 0;
        if ended {
            return Ok(List::from_vec(bytes));
        }
        bytes.extend_from_slice(&piece[..count])?;
    }
    Err(ReadRefusal::TooLong)
}

/// Where files tell what they hold, it is what reading them to the end gives.
pub fn files_hold_what_they_give<F: Files>()
    ensures whole { (path : List ℕ) (first last : F) (bytes : List ℕ) → GaveAll F.gives path first bytes last → Holds (F.files first) path bytes }
    ensures more { (path : List ℕ) (first last : F) (limit : ℕ) → GaveMore F.gives path first limit last → HoldsMore (F.files first) path limit }
{}
