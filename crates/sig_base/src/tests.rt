// What no clause says: that calls can succeed, and what the system gives.
ghost use Rattle.std.specs.Prelude.{◌≡◌, ◌+◌, ◌<◌, IfOk};
ghost use Rattle.sig_base.specs.Faults.{HasCauseAt};
ghost use Rattle.sig_base.specs.MemFiles.{DistinctPaths};

use crate::*;
use std::alloc::Global;
use std::fs::{OpenOptions, remove_file};
use std::marker::Brand;
use std::mem::size_of;
use std::sync::ledger::{Blank, Ledger};
use std::test::Fail;

#[test]
fn holds_values(rt: HostRuntime) -> Result<(), Fail> {
    let alloc = rt.alloc();
    let mut list = List::new(alloc);
    assert!(rt; list.is_empty());
    list.push(3u64)?;
    list.push(5)?;
    assert_eq!(rt; list.len(), 2);
    assert_eq!(rt; list.get(1), Some(&5));
    assert_eq!(rt; list.get(2), None);
    assert_eq!(rt; list.pop(), Some(5));
    assert_eq!(rt; list.as_slice(), [3].as_slice());

    let mut text = Text::from_slice(alloc, b"in")?;
    text.push(b't')?;
    text.extend(b" list")?;
    assert_eq!(rt; text.as_slice(), b"int list".as_slice());
    assert_eq!(rt; text.get(2), Some(&b't'));
    assert_eq!(rt; text.len(), 8);
    assert!(rt; Text::new(alloc).is_empty());

    assert_eq!(rt; Str::copy_of(alloc, "unit")?.as_str(), "unit");

    let boxed = Boxed::new(alloc, 7u8)?;
    assert_eq!(rt; *boxed.get(), 7);
    assert_eq!(rt; boxed.into_inner(), 7);
    Ok(())
}

#[test]
fn takes_the_last_values_off(rt: HostRuntime) -> Result<(), Fail> {
    let mut stack = Stack::new(rt.alloc());
    let below = stack.push_counted(0, 1u64)?;
    let count = stack.push_counted(0, 2)?;
    let count = stack.push_counted(count, 3)?;
    let taken = stack.take_last(count)?;
    assert_eq!(rt; taken.as_slice(), [2, 3].as_slice());
    assert!(rt; !stack.has_none(below));
    assert_eq!(rt; stack.pop(), Some(1));
    assert!(rt; stack.has_none(below));
    // A count of more than there are stands for all of them.
    assert_eq!(rt; stack.push_counted(5, 4)?, 1);
    let taken = stack.take_all()?;
    assert_eq!(rt; taken.as_slice(), [4].as_slice());
    assert!(rt; stack.is_empty());
    Ok(())
}

// So many bytes, all alike.
fn bytes_of(alloc: Global, count: usize) -> Result<List<u8>, NoMemory> {
    Ok(List::from_vec(vec![in alloc; 7u8; count]?))
}

fn mem_file(alloc: Global, path: &str, count: usize) -> Result<MemFile, NoMemory>
    ensures path { IfOk result (λ file. file.path ≡ path.now) }
{
    let path = Text::from_slice(alloc, path.as_bytes())?;
    let bytes = bytes_of(alloc, count)?;
    Ok(MemFile { path, bytes })
}

// The numbers of the calls that fail: this one alone.
fn only(alloc: Global, number: u64) -> Result<List<u64>, NoMemory> {
    let mut numbers = List::new(alloc);
    numbers.push(number)?;
    Ok(numbers)
}

// A file of 10 bytes and a long one, of whose calls this one fails.
fn two_files(alloc: Global, failing: u64, long: usize) -> Result<MemFiles, NoMemory> {
    let mut files = List::new(alloc);
    files.push(mem_file(alloc, "short.sig", 10)?)?;
    files.push(mem_file(alloc, "long.sig", long)?)?;
    Ok(MemFiles::new(alloc, files, only(alloc, failing)?))
}

// How many bytes a reading gives.
fn length_of<F: Files>(
    alloc: Global,
    files: &mut F,
    path: &str,
    limit: u32,
) -> Result<usize, ReadRefusal> {
    Ok(read_whole(alloc, files, path, limit)?.len())
}

#[test]
fn reads_files_whole(rt: HostRuntime) -> Result<(), Fail> {
    for (path, limit, failing, want) in [
        ("short.sig", 10, 9, Ok(10)),
        ("short.sig", 9, 9, Err(ReadRefusal::TooLong)),
        ("long.sig", 300_000, 9, Ok(300_000)),
        ("long.sig", 299_999, 9, Err(ReadRefusal::TooLong)),
        ("long.sig", 0, 2, Err(ReadRefusal::TooLong)),
        ("long.sig", 300_000, 2, Err(ReadRefusal::ReadFault)),
        ("short.sig", 10, 1, Err(ReadRefusal::ReadFault)),
        ("short.sig", 10, 3, Ok(10)),
        ("none.sig", 10, 9, Err(ReadRefusal::ReadFault)),
    ] {
        let mut files = two_files(rt.alloc(), failing, 300_000)?;
        assert_eq!(rt;
            length_of(rt.alloc(), &mut files, path, limit),
            want,
            "{path} {limit} {failing}"
        );
    }
    Ok(())
}

// A file of five bytes that comes a byte at a time.
#[derive(Drop)]
struct Drip;

impl Files for Drip {
    ghost use Rattle.std.specs.Prelude.{None, ⊤, refl};

    ghost files = { λ _. None };

    ghost read_faults = { λ _ _. 0 };

    ghost write_faults = { λ _ _. 0 };

    ghost gives = { λ _ _ _ _ _ _. ⊤ };

    ghost tells = { λ _ _ _ _ _ _ _. record { kept = refl; piece = tt } };

    fn expected_length(&self, _path: &str) -> u64 {
        5
    }

    fn read(&mut self, _path: &str, at: u64, buf: &mut [u8]) -> Result<usize, Trouble> {
        if at >= 5 || buf.is_empty() {
            return Ok(0);
        }
        buf[0] = b"hello"[at as usize];
        Ok(1)
    }

    fn create(&mut self, _path: &str) -> Result<(), Trouble> {
        Err(Trouble::NoMemory)
    }

    fn append(&mut self, _path: &str, _piece: &[u8]) -> Result<(), Trouble> {
        Err(Trouble::NoMemory)
    }
}

#[test]
fn reads_on_after_a_short_read(rt: HostRuntime) -> Result<(), Fail> {
    let bytes = read_whole(rt.alloc(), &mut Drip, "drip", 5)?;
    assert_eq!(rt; bytes.as_slice(), b"hello".as_slice());
    assert_eq!(rt;
        length_of(rt.alloc(), &mut Drip, "drip", 4),
        Err(ReadRefusal::TooLong)
    );
    Ok(())
}

// What is at a path after one that creates and two that append, of which calls this one fails.
fn written(alloc: Global, path: &str, failing: u64) -> Result<List<u8>, ReadRefusal> {
    let Ok(mut files) = two_files(alloc, failing, 3) else {
        return Err(ReadRefusal::NoMemory);
    };
    let _created = files.create(path);
    let _first = files.append(path, b"ab");
    let _second = files.append(path, b"c");
    read_whole(alloc, &mut files, path, 99)
}

#[test]
fn writes_files(rt: HostRuntime) -> Result<(), Fail> {
    for (path, failing, want) in [
        ("new.idx", 9, "abc"),
        ("new.idx", 1, "abc"),
        ("new.idx", 2, "c"),
        ("long.sig", 9, "abc"),
        ("long.sig", 1, "\u{7}\u{7}\u{7}abc"),
        ("long.sig", 3, "ab"),
    ] {
        let bytes = written(rt.alloc(), path, failing)?;
        assert_eq!(rt; bytes.as_slice(), want.as_bytes(), "{path} {failing}");
    }
    Ok(())
}

#[test]
fn writes_texts_whole(rt: HostRuntime) -> Result<(), Fail> {
    for (room, chunk, failing, want, written) in [
        (100, 16, 9, Ok(()), 50),
        (100, 16, 3, Err(Failed), 32),
        (50, 100, 9, Ok(()), 50),
        (40, 16, 9, Err(Failed), 40),
        (100, 0, 9, Err(Failed), 0),
    ] {
        let mut sink = MemSink::new(rt.alloc(), room, chunk, only(rt.alloc(), failing)?)?;
        let text = bytes_of(rt.alloc(), 50)?;
        assert_eq!(rt;
            write_all(&mut sink, text.as_slice()),
            want,
            "{room} {chunk} {failing}"
        );
        assert_eq!(rt; sink.bytes().len(), written, "{room} {chunk} {failing}");
    }
    Ok(())
}

#[test]
fn reads_files_of_the_system(rt: HostRuntime) -> Result<(), Fail> {
    let alloc = rt.alloc();
    let mut files = HostFiles::new(rt);
    let mut buf = [1u8; 4];
    assert_eq!(rt; files.read("/dev/zero", 9, &mut buf), Ok(4));
    assert_eq!(rt; buf, [0u8; 4]);
    assert_eq!(rt; files.read("/proc/sys/kernel/ostype", 2, &mut buf), Ok(4));
    assert_eq!(rt; &buf, b"nux\n");
    assert_eq!(rt; length_of(alloc, &mut files, "/dev/null", 9), Ok(0));
    assert_eq!(rt;
        length_of(alloc, &mut files, "/dev/zero", 9),
        Err(ReadRefusal::TooLong)
    );
    assert_eq!(rt; files.read("/", 0, &mut buf), Err(Trouble::Failed));
    assert_eq!(rt;
        files.read("/dev/null/none.sig", 0, &mut buf),
        Err(Trouble::Failed)
    );
    Ok(())
}

#[test]
fn writes_files_of_the_system(rt: HostRuntime) -> Result<(), Fail> {
    let alloc = rt.alloc();
    let path = "sig_base_test.txt";
    let mut files = HostFiles::new(rt);
    for _ in 0..2 {
        assert_eq!(rt; files.create(path), Ok(()));
        assert_eq!(rt; files.append(path, b"one "), Ok(()));
        assert_eq!(rt; files.append(path, b"two"), Ok(()));
        let bytes = read_whole(alloc, &mut files, path, 99)?;
        assert_eq!(rt; bytes.as_slice(), b"one two".as_slice());
    }
    remove_file(&rt, path)?;
    assert_eq!(rt; files.append("/dev/full", b"x"), Err(Trouble::Failed));
    assert_eq!(rt; files.create("/dev/null/x"), Err(Trouble::Failed));
    Ok(())
}

// Counts two more.
fn tick_twice<L: Ledger>(steps: &mut Steps<L>)
    ensures two { steps.new ≡ steps.old + 2 }
{
    steps.tick();
    steps.tick();
}

fn count_two<L: Ledger>(blank: Blank)
    requires name { blank.name ≡ L.name }
    requires parts { blank.parts ≡ L.parts }
    requires some { 0 < blank.parts }
{
    tick_twice(&mut Steps::<L>::new(blank));
}

#[test]
fn counts_without_bytes(rt: HostRuntime) -> Result<(), Fail> {
    count_two::<Brand>(Blank::new(1));
    assert_eq!(rt; size_of::<Steps<Brand>>(), 0);
    Ok(())
}

#[test]
fn writes_to_streams_of_the_system(rt: HostRuntime) -> Result<(), Fail> {
    for (path, want) in [("/dev/null", Ok(())), ("/dev/full", Err(Failed))] {
        let stream = OpenOptions::new().write(true).open(&rt, path)?;
        assert_eq!(rt;
            write_all(&mut HostSink::new(stream), b"text"),
            want,
            "{path}"
        );
    }
    Ok(())
}
