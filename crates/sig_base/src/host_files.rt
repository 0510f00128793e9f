// The files of the system that the program runs on.
ghost use Rattle.std.specs.Prelude.{◌≡◌, ◌+◌, ◌-◌, ◌^◌, ◌≤◌, min, length, take, refl, None, IfOk, OnOk, OnErr};
ghost use Rattle.std.specs.Io.{ReadsAtMost};
ghost use Rattle.sig_base.specs.Faults.{HasCauseAt};

use crate::{Files, Trouble};
use std::fs::{File, OpenOptions, metadata};
use std::io::{Read, Seek, SeekFrom, Write};
use std::marker::Model;
use std::{io, rt};

/// The files of a system. Contracts see them as their counts of reading and of writing faults, each that of every path; what they hold isn't told.
#[derive(Drop)]
pub struct HostFiles<R> {
    system: R,
    read_faults: u64,
    write_faults: u64,
}

impl<R> Model for HostFiles<R> {
    ghost use Rattle.std.specs.Coded.{coded_ℕ, coded×};
    ghost use Rattle.std.specs.Prelude.{ℕ};

    ghost Value = { ℕ × ℕ };

    ghost coded = { coded× coded_ℕ coded_ℕ };

    ghost view = { λ host. (host.read_faults, host.write_faults) };
}

impl<R> HostFiles<R> {
    /// The files of this system, with no faults so far.
    pub fn new(system: R) -> HostFiles<R>
        ensures zero { result ≡ (0, 0) }
    {
        HostFiles {
            system,
            read_faults: 0,
            write_faults: 0,
        }
    }
}

// Opens a file, goes to a place and reads once.
fn read_at<R: rt::Files>(system: &R, path: &str, at: u64, buf: &mut [u8]) -> io::Result<usize>
    ensures bound { ReadsAtMost result buf.new }
{
    let mut file = File::open(system, path)?;
    file.seek(SeekFrom::Start(at))?;
    file.read(buf)
}

// Makes a file, or takes what is in it away.
fn make<R: rt::Files>(system: &R, path: &str) -> io::Result<()> {
    File::create(system, path)?;
    Ok(())
}

// Writes a piece at the end of a file, which is made where there is none.
fn add<R: rt::Files>(system: &R, path: &str, piece: &[u8]) -> io::Result<()> {
    let mut file = OpenOptions::new()
        .append(true)
        .create(true)
        .open(system, path)?;
    file.write_all(piece)
}

impl<R: rt::Files> Files for HostFiles<R> {
    ghost files = { λ _. None };

    ghost read_faults = { λ counts _. counts.0 };

    ghost write_faults = { λ counts _. counts.1 };

    ghost gives = { λ before _ _ room bytes after. (after ≡ before) × (length bytes ≤ room) };

    ghost tells = { λ _ _ _ _ _ _ _. record { kept = refl; piece = tt } };

    fn expected_length(&self, path: &str) -> u64 {
        match metadata(&self.system, path) {
            Ok(found) => found.len(),
            Err(_) => 0,
        }
    }

    fn read(&mut self, path: &str, at: u64, buf: &mut [u8]) -> Result<usize, Trouble>
        ensures bound { ReadsAtMost result buf.new }
        ensures given { IfOk result (λ n. (self.new ≡ self.old) × (length (take n buf.new) ≤ length buf.new)) }
        ensures cause { HasCauseAt path.now (λ _. self.old.0) (λ _. self.new.0) result }
        ensures no_write { self.new.1 ≡ self.old.1 }
        ensures raised { OnErr result (self.new.0 ≡ min (self.old.0 + 1) (2 ^ 64 - 1)) }
        ensures quiet { OnOk result (self.new.0 ≡ self.old.0) }
    {
        match read_at(&self.system, path, at, buf) {
            Ok(count) => Ok(count),
            Err(_) => {
                self.read_faults = self.read_faults.saturating_add(1);
                Err(Trouble::Failed)
            }
        }
    }

    fn create(&mut self, path: &str) -> Result<(), Trouble>
        ensures cause { HasCauseAt path.now (λ _. self.old.1) (λ _. self.new.1) result }
        ensures no_read { self.new.0 ≡ self.old.0 }
        ensures raised { OnErr result (self.new.1 ≡ min (self.old.1 + 1) (2 ^ 64 - 1)) }
        ensures quiet { OnOk result (self.new.1 ≡ self.old.1) }
    {
        match make(&self.system, path) {
            Ok(()) => Ok(()),
            Err(_) => {
                self.write_faults = self.write_faults.saturating_add(1);
                Err(Trouble::Failed)
            }
        }
    }

    fn append(&mut self, path: &str, piece: &[u8]) -> Result<(), Trouble>
        ensures cause { HasCauseAt path.now (λ _. self.old.1) (λ _. self.new.1) result }
        ensures no_read { self.new.0 ≡ self.old.0 }
        ensures raised { OnErr result (self.new.1 ≡ min (self.old.1 + 1) (2 ^ 64 - 1)) }
        ensures quiet { OnOk result (self.new.1 ≡ self.old.1) }
    {
        match add(&self.system, path, piece) {
            Ok(()) => Ok(()),
            Err(_) => {
                self.write_faults = self.write_faults.saturating_add(1);
                Err(Trouble::Failed)
            }
        }
    }
}
