// What files in memory and texts give, as tables.
ghost use Rattle.std.specs.Prelude.{◌≡◌, IfOk};

use crate::{Fault, LoadRefusal, library_of_text, load_files, load_index};
use lib_index::encode;
use sig_base::{List, MemFile, MemFiles, NoMemory, Str, Text};
use sig_elab::Why;
use std::alloc::Global;
use std::test::Fail;
use type_core::Library;

const P: &[u8] = b"signature P = sig type t val x : t end\n";

const Q: &[u8] = b"signature Q = sig include P val y : t end\n";

fn mem_file(alloc: Global, path: &str, bytes: &[u8]) -> Result<MemFile, NoMemory>
    ensures path { IfOk result (λ file. file.path ≡ path.now) }
{
    let path = Text::from_slice(alloc, path.as_bytes())?;
    let bytes = List::from_vec(Vec::from_slice(alloc, bytes)?);
    Ok(MemFile { path, bytes })
}

// The files F and G, where the call of this number fails. No call has the number 0.
fn mem_files(
    alloc: Global,
    first: &[u8],
    second: &[u8],
    failing: u64,
) -> Result<MemFiles, NoMemory> {
    let mut files = List::new(alloc);
    files.push(mem_file(alloc, "F", first)?)?;
    files.push(mem_file(alloc, "G", second)?)?;
    let mut fails = List::new(alloc);
    fails.push(failing)?;
    Ok(MemFiles::new(alloc, files, fails))
}

fn paths_of(alloc: Global, names: &[&str]) -> Result<List<Str>, NoMemory> {
    let mut paths = List::new(alloc);
    for name in names {
        paths.push(Str::copy_of(alloc, name)?)?;
    }
    Ok(paths)
}

// How many members the library has.
fn members(library: Result<Library, LoadRefusal>) -> Result<usize, LoadRefusal> {
    match library {
        Ok(library) => Ok(library.members.len()),
        Err(refusal) => Err(refusal),
    }
}

// The index text of the library of this text; none where there is no library.
fn index_of(alloc: Global, text: &[u8]) -> Result<Text, NoMemory> {
    if text.len() > 4_194_304 {
        return Err(NoMemory);
    }
    match library_of_text(alloc, text) {
        Ok(library) => encode(alloc, &library),
        Err(_) => Ok(Text::new(alloc)),
    }
}

fn refused_at(file: u32, line: u32, col: u32, fault: Fault) -> Result<usize, LoadRefusal> {
    Err(LoadRefusal::Bad {
        file,
        line,
        col,
        fault,
    })
}

#[test]
fn files_are_loaded(rt: HostRuntime) -> Result<(), Fail> {
    let alloc = rt.alloc();
    let names = ["F", "G"];
    let unbound = Fault::Elab(Why::UnboundSignature);
    let rows = [
        (P, Q, 0, Ok(3)),
        (Q, P, 0, refused_at(0, 1, 27, unbound)),
        (
            P,
            b"signature\n R == sig end",
            0,
            refused_at(1, 2, 4, Fault::Syntax),
        ),
        (b"\x01", P, 0, refused_at(0, 1, 1, Fault::BadByte)),
        (P, Q, 1, Err(LoadRefusal::ReadFault(0))),
        (P, Q, 3, Err(LoadRefusal::ReadFault(1))),
    ];
    for (first, second, failing, wanted) in rows {
        let mut files = mem_files(alloc, first, second, failing)?;
        let paths = paths_of(alloc, &names)?;
        let got = members(load_files(alloc, &mut files, &paths));
        assert!(rt; got == wanted);
    }
    let mut files = mem_files(alloc, P, Q, 0)?;
    let many = paths_of(alloc, &["F"; 513])?;
    let got = members(load_files(alloc, &mut files, &many));
    assert!(rt; got == Err(LoadRefusal::TooManyFiles));
    Ok(())
}

#[test]
fn indexes_are_loaded(rt: HostRuntime) -> Result<(), Fail> {
    let alloc = rt.alloc();
    let index = index_of(alloc, P)?;
    let mut longer = Text::from_slice(alloc, index.as_slice())?;
    longer.push(0)?;
    let rows = [
        (index.as_slice(), 0, "F", Ok(1)),
        (longer.as_slice(), 0, "F", Err(LoadRefusal::NotAnIndex)),
        (P, 0, "F", Err(LoadRefusal::NotAnIndex)),
        (b"", 0, "F", Err(LoadRefusal::NotAnIndex)),
        (index.as_slice(), 2, "F", Err(LoadRefusal::ReadFault(0))),
        (index.as_slice(), 0, "H", Err(LoadRefusal::ReadFault(0))),
    ];
    for (bytes, failing, path, wanted) in rows {
        let mut files = mem_files(alloc, bytes, b"", failing)?;
        let got = members(load_index(alloc, &mut files, path));
        assert!(rt; got == wanted);
    }
    Ok(())
}
