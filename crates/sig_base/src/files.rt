// Files by their paths.
ghost use Rattle.std.specs.Prelude.{◌≡◌, IfOk, List, length, take, ℕ};
ghost use Rattle.std.specs.Io.{ReadsAtMost};
ghost use Rattle.std.specs.declared.option.Option.{Option};
ghost use Rattle.sig_base.specs.Faults.{HasCauseAt};
ghost use Rattle.sig_base.specs.FileMap.{FileMap};
ghost use Rattle.sig_base.specs.FileWrites.{AppendsTo, Changes, Creates};
ghost use Rattle.sig_base.specs.Reading.{Tells};
ghost use Rattle.sig_base.specs.declared.files.Trouble.TheVariants.{NoMemory};

/// Why a call on files gave nothing.
#[derive(Clone, Copy, Debug, PartialEq, Eq)]
pub enum Trouble {
    /// The files failed: the path's count of faults rose.
    Failed,
    /// Memory was wanted.
    NoMemory,
}

impl From<crate::NoMemory> for Trouble {
    ghost from_gives = { λ _ trouble. trouble ≡ NoMemory };

    fn from(_: crate::NoMemory) -> Trouble {
        Trouble::NoMemory
    }
}

/// Files that can be read and written.
pub trait Files {
    /// The bytes of every file, where they are told.
    ghost files: { Self → Option FileMap };

    /// How many reads of each path have failed, up to the last value of `u64`.
    ghost read_faults: { Self → List ℕ → ℕ };

    /// How many calls that write to each path have failed, up to the last value of `u64`.
    ghost write_faults: { Self → List ℕ → ℕ };

    /// Which reads are answered: the files before, the path, the place, the room, the bytes given, and the files after.
    ghost gives: { Self → List ℕ → ℕ → ℕ → List ℕ → Self → Type 0 };

    /// How many bytes the file is expected to have: room for these is made at once. It decides no answer.
    fn expected_length(&self, path: &str) -> u64;

    /// Reads bytes of a file from the place `at` on into the front of `buf`, and says how many. No file changes.
    fn read(&mut self, path: &str, at: u64, buf: &mut [u8]) -> Result<usize, Trouble>
        ensures bound { ReadsAtMost result buf.new }
        ensures given { IfOk result (λ n. gives self.old path.now at (length buf.new) (take n buf.new) self.new) }
        ensures kept { files self.new ≡ files self.old }
        ensures cause { HasCauseAt path.now (read_faults self.old) (read_faults self.new) result }
        ensures no_write { write_faults self.new ≡ write_faults self.old };

    /// Leaves the file at this path with no bytes, and makes it where there is none.
    fn create(&mut self, path: &str) -> Result<(), Trouble>
        ensures created { Changes (files self.old) (files self.new) (Creates path.now result) }
        ensures cause { HasCauseAt path.now (write_faults self.old) (write_faults self.new) result }
        ensures no_read { read_faults self.new ≡ read_faults self.old };

    /// Adds a piece at the end of the file at this path, which is made first where there is none.
    fn append(&mut self, path: &str, piece: &[u8]) -> Result<(), Trouble>
        ensures appended { Changes (files self.old) (files self.new) (AppendsTo path.now piece.now result) }
        ensures cause { HasCauseAt path.now (write_faults self.old) (write_faults self.new) result }
        ensures no_read { read_faults self.new ≡ read_faults self.old };

    /// Where the files are told, what a read gives is theirs, and they stay.
    ghost tells: { (before after : Self) (path : List ℕ) (place room : ℕ) (bytes : List ℕ) → gives before path place room bytes after → Tells (files before) (files after) path place room bytes };
}
