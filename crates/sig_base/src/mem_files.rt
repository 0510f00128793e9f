// Files in memory.
ghost use Rattle.std.specs.Prelude.{◌≡◌, ◌-◌, ◌<◌, ◌++◌, ◌⊎◌, ◌↔◌, List, min, length, take, drop, Some, None, ℕ, IfOk, IfSome, IfNone, OnOk, OnErr, IsErr, IsErrOf};
ghost use Rattle.std.specs.FinMap.{get, insert};
ghost use Rattle.std.specs.Io.{ReadsAtMost};
ghost use Rattle.sig_base.specs.Faults.{HasCauseAt, NoneFell, Rose};
ghost use Rattle.sig_base.specs.FileMap.{appended, bytes_at, emptied};
ghost use Rattle.sig_base.specs.FileWrites.{AppendsTo, Creates};
ghost use Rattle.sig_base.specs.MemFiles.{place_in, map_of, counts_in, DistinctPaths, files_of, read_counts_of, write_counts_of, script_of, call_of, with_bytes, IsScripted, FailsAt, RaisedAt};
ghost use Rattle.sig_base.specs.Reading.{Tells};
ghost use Rattle.sig_base.specs.Script.{CountsOn};

use crate::fault_counts::FaultCounts;
use crate::mem_file::MemFile;
use crate::script::Script;
use crate::{Files, List, NoMemory, Text, Trouble};
use std::alloc::Global;

/// Files whose bytes are kept in memory. A call fails where it is told to, and a read also at a path that no file has.
#[derive(Drop)]
pub struct MemFiles {
    alloc: Global,
    files: Vec<MemFile>,
    read_faults: FaultCounts,
    write_faults: FaultCounts,
    script: Script,
}

impl MemFiles {
    /// These files. Calls are numbered from 1, and those in `fails` fail.
    pub fn new(alloc: Global, files: List<MemFile>, fails: List<u64>) -> MemFiles
        requires { DistinctPaths files }
        ensures files { files_of result ≡ map_of files }
        ensures zero { (path : List ℕ) → read_counts_of result path ≡ 0 }
        ensures zero_writes { (path : List ℕ) → write_counts_of result path ≡ 0 }
        ensures script { script_of result ≡ fails }
        ensures first { call_of result ≡ Some 1 }
    {
        MemFiles {
            alloc,
            files: files.into_vec(),
            read_faults: FaultCounts::new(alloc),
            write_faults: FaultCounts::new(alloc),
            script: Script::new(fails),
        }
    }

    // Puts a file of these bytes at the path, in place of the one there. One that is made has the counts of the paths outside.
    fn put(&mut self, path: &str, bytes: List<u8>) -> Result<(), NoMemory>
        ensures put { OnOk result (files_of self.new ≡ insert (files_of self.old) path.now bytes) }
        ensures kept { OnErr result (files_of self.new ≡ files_of self.old) }
        ensures no_read { read_counts_of self.new ≡ read_counts_of self.old }
        ensures no_write { write_counts_of self.new ≡ write_counts_of self.old }
        ensures script { self.new.script ≡ self.old.script }
    {
        if let Some(place) = place_of(&self.files, path) {
            set_bytes(&mut self.files, place, bytes);
            return Ok(());
        }
        let path = Text::from_slice(self.alloc, path.as_bytes())?;
        let place = self.files.len();
        self.read_faults.copy_outside(place)?;
        self.write_faults.copy_outside(place)?;
        self.files.push(MemFile { path, bytes })?;
        Ok(())
    }
}

impl Files for MemFiles {
    ghost files = { λ memory. Some (files_of memory) };

    ghost read_faults = { λ memory. read_counts_of memory };

    ghost write_faults = { λ memory. write_counts_of memory };

    ghost gives = { λ before path place room bytes after. Tells (Some (files_of before)) (Some (files_of after)) path place room bytes };

    ghost tells = { λ _ _ _ _ _ _ told. told };

    fn expected_length(&self, path: &str) -> u64 {
        content_of(&self.files, path).len() as u64
    }

    fn read(&mut self, path: &str, at: u64, buf: &mut [u8]) -> Result<usize, Trouble>
        ensures bound { ReadsAtMost result buf.new }
        ensures given { IfOk result (λ n. Tells (Some (files_of self.old)) (Some (files_of self.new)) path.now at (length buf.new) (take n buf.new)) }
        ensures kept { files_of self.new ≡ files_of self.old }
        ensures cause { HasCauseAt path.now (read_counts_of self.old) (read_counts_of self.new) result }
        ensures no_write { write_counts_of self.new ≡ write_counts_of self.old }
        ensures long { IfOk result (λ n. IfSome (get (files_of self.old) path.now) (λ bytes. n ≡ min (length buf.new) (length bytes - at))) }
        ensures fails { IsErr result ↔ FailsAt self.old path.now }
        ensures raised { IsErrOf result Trouble.Failed → RaisedAt (files_of self.old) path.now (read_counts_of self.old) (read_counts_of self.new) }
        ensures quiet { IsErrOf result Trouble.Failed ⊎ (read_counts_of self.new ≡ read_counts_of self.old) }
        ensures counted { CountsOn (call_of self.old) (call_of self.new) }
        ensures script { script_of self.new ≡ script_of self.old }
    {
        if !self.script.fails_now()
            && let Some(bytes) = bytes_of(&self.files, path)
        {
            return Ok(copy_from(bytes, at, buf));
        }
        Err(count_failure(&self.files, &mut self.read_faults, path))
    }

    fn create(&mut self, path: &str) -> Result<(), Trouble>
        ensures created { Creates path.now result (files_of self.old) (files_of self.new) }
        ensures cause { HasCauseAt path.now (write_counts_of self.old) (write_counts_of self.new) result }
        ensures no_read { read_counts_of self.new ≡ read_counts_of self.old }
        ensures kept { OnErr result (files_of self.new ≡ files_of self.old) }
        ensures fails { IsScripted self.old → IsErr result }
        ensures failed { IsErrOf result Trouble.Failed → IsScripted self.old × RaisedAt (files_of self.old) path.now (write_counts_of self.old) (write_counts_of self.new) }
        ensures quiet { IsErrOf result Trouble.Failed ⊎ (write_counts_of self.new ≡ write_counts_of self.old) }
        ensures counted { CountsOn (call_of self.old) (call_of self.new) }
        ensures script { script_of self.new ≡ script_of self.old }
    {
        if self.script.fails_now() {
            return Err(count_failure(&self.files, &mut self.write_faults, path));
        }
        match self.put(path, List::new(self.alloc)) {
            Ok(()) => Ok(()),
            Err(NoMemory) => Err(Trouble::NoMemory),
        }
    }

    fn append(&mut self, path: &str, piece: &[u8]) -> Result<(), Trouble>
        ensures appended { AppendsTo path.now piece.now result (files_of self.old) (files_of self.new) }
        ensures cause { HasCauseAt path.now (write_counts_of self.old) (write_counts_of self.new) result }
        ensures no_read { read_counts_of self.new ≡ read_counts_of self.old }
        ensures kept { OnErr result (files_of self.new ≡ files_of self.old) }
        ensures fails { IsScripted self.old → IsErr result }
        ensures failed { IsErrOf result Trouble.Failed → IsScripted self.old × RaisedAt (files_of self.old) path.now (write_counts_of self.old) (write_counts_of self.new) }
        ensures quiet { IsErrOf result Trouble.Failed ⊎ (write_counts_of self.new ≡ write_counts_of self.old) }
        ensures counted { CountsOn (call_of self.old) (call_of self.new) }
        ensures script { script_of self.new ≡ script_of self.old }
    {
        if self.script.fails_now() {
            return Err(count_failure(&self.files, &mut self.write_faults, path));
        }
        let present = content_of(&self.files, path);
        let bytes = joined(self.alloc, present, piece)?;
        match self.put(path, bytes) {
            Ok(()) => Ok(()),
            Err(NoMemory) => Err(Trouble::NoMemory),
        }
    }
}

// The place of the first file at this path.
fn place_of(files: &[MemFile], path: &str) -> Option<usize>
    ensures place { result ≡ place_in files.now path.now }
    ensures within { IfSome result (λ place. place < length files.now) }
{
    files
        .iter()
        .position(|file| path.as_bytes() == file.path.as_slice())
}

// The bytes of the file at this path.
fn bytes_of<'a>(files: &'a [MemFile], path: &str) -> Option<&'a [u8]>
    ensures some { IfSome result (λ bytes. get (map_of files.now) path.now ≡ Some bytes.now) }
    ensures none { IfNone result (get (map_of files.now) path.now ≡ None) }
{
    match place_of(files, path) {
        Some(place) => Some(files[place].bytes.as_slice()),
        None => None,
    }
}

// The bytes of the file at this path, and none where there is no file.
fn content_of<'a>(files: &'a [MemFile], path: &str) -> &'a [u8]
    ensures value { result.now ≡ bytes_at (map_of files.now) path.now }
{
    match bytes_of(files, path) {
        Some(bytes) => bytes,
        None => &[],
    }
}

// Bytes one behind another.
fn joined(alloc: Global, front: &[u8], back: &[u8]) -> Result<List<u8>, NoMemory>
    ensures value { IfOk result (λ bytes. bytes ≡ front.now ++ back.now) }
{
    let mut bytes = Vec::from_slice(alloc, front)?;
    bytes.extend_from_slice(back)?;
    Ok(List::from_vec(bytes))
}

// Gives the file of this place other bytes.
fn set_bytes(files: &mut Vec<MemFile>, place: usize, bytes: List<u8>)
    requires { place < length files.old.items }
    ensures value { files.new.items ≡ with_bytes files.old.items place bytes }
{
    files[place].bytes = bytes;
}

// Counts a failure at this path. What it answers tells whether memory was there for it.
fn count_failure(files: &[MemFile], counts: &mut FaultCounts, path: &str) -> Trouble
    ensures raised { result ≡ Trouble.Failed → RaisedAt (map_of files.now) path.now (counts_in files.now counts.old) (counts_in files.now counts.new) }
    ensures rose { result ≡ Trouble.Failed → Rose (counts_in files.now counts.old path.now) (counts_in files.now counts.new path.now) }
    ensures quiet { (result ≡ Trouble.Failed) ⊎ (counts_in files.now counts.new ≡ counts_in files.now counts.old) }
    ensures later { NoneFell (counts_in files.now counts.old) (counts_in files.now counts.new) }
{
    match counts.raise(place_of(files, path)) {
        Ok(()) => Trouble::Failed,
        Err(NoMemory) => Trouble::NoMemory,
    }
}

// Copies bytes from a place on, as many as the buffer takes, and says how many.
fn copy_from(bytes: &[u8], at: u64, buf: &mut [u8]) -> usize
    ensures count { result ≡ min (length buf.new) (length bytes.now - at) }
    ensures bytes { take result buf.new ≡ take result (drop at bytes.now) }
{
    let Ok(at) = usize::try_from(at) else {
        return 0;
    };
    if at >= bytes.len() {
        return 0;
    }
    let rest = &bytes[at..];
    let count = rest.len().min(buf.len());
    buf[..count].copy_from_slice(&rest[..count]);
    count
}
