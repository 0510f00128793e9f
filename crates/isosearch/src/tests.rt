// What the command answers and writes over files and sinks in memory, as tables.
ghost use Rattle.std.specs.Prelude.{◌≡◌, IfOk};

use crate::run::run;
use sig_base::{List, MemFile, MemFiles, MemSink, NoMemory, Text, read_whole};
use std::alloc::{AllocError, Global};
use std::test::Fail;

const USAGE: &str = "usage: isosearch list|same|iso|general|index|gen\n";

pub const L: &str = "signature L = sig
  val map : ('a -> 'b) -> 'a list -> 'b list
  val add : int * int -> int
  val divMod : int * int -> int * int
  val ignore : 'a -> unit
  val eq : ''a * ''a -> bool
  val curry : ('a * 'b -> 'c) -> 'a -> 'b -> 'c
end
";

const P: &str = "signature P = sig val x : int end";

// The index text of P.
const INDEX: &str =
    "isosrch1\0\0\0\x01\0\0\0\0\x01P\0\0\0\0\0\0\0\0\0\0\0\x01\0\0\0\0\x03P.x\0\0\0\0\x01\0\0\0\0";

// The files F and G, and the numbers of the calls that fail: a call on files, a put to the output and a put to
// standard error. No call has the number 0.
#[derive(Clone, Copy)]
pub struct Outside<'a> {
    first: &'a str,
    second: &'a str,
    file: u64,
    out: u64,
    err: u64,
}

// Two files, where no call fails.
fn both<'a>(first: &'a str, second: &'a str) -> Outside<'a> {
    Outside {
        first,
        second,
        file: 0,
        out: 0,
        err: 0,
    }
}

// A file F beside an empty one, where no call fails.
pub fn sound(text: &str) -> Outside<'_> {
    both(text, "")
}

fn mem_file(alloc: Global, path: &str, text: &str) -> Result<MemFile, NoMemory>
    ensures path { IfOk result (λ file. file.path ≡ path.now) }
{
    let path = Text::from_slice(alloc, path.as_bytes())?;
    let bytes = List::from_vec(Vec::from_slice(alloc, text.as_bytes())?);
    Ok(MemFile { path, bytes })
}

// The numbers of the calls that fail: this one alone.
fn only(alloc: Global, number: u64) -> Result<List<u64>, NoMemory> {
    let mut numbers = List::new(alloc);
    numbers.push(number)?;
    Ok(numbers)
}

fn mem_files(alloc: Global, outside: &Outside<'_>) -> Result<MemFiles, NoMemory> {
    let mut files = List::new(alloc);
    files.push(mem_file(alloc, "F", outside.first)?)?;
    files.push(mem_file(alloc, "G", outside.second)?)?;
    Ok(MemFiles::new(alloc, files, only(alloc, outside.file)?))
}

// A sink that takes 16 bytes in a put.
fn mem_sink(alloc: Global, failing: u64) -> Result<MemSink, NoMemory> {
    MemSink::new(alloc, 4096, 16, only(alloc, failing)?)
}

fn words_of(alloc: Global, words: &[&str]) -> Result<Vec<String>, AllocError> {
    let mut all = Vec::new(alloc);
    for word in words {
        all.push(String::from_str(alloc, word)?)?;
    }
    Ok(all)
}

// The status, the output and standard error of a run over these files.
fn answer(
    alloc: Global,
    words: &[&str],
    files: &mut MemFiles,
    outside: &Outside<'_>,
) -> Result<(u8, String, String), Fail> {
    let words = words_of(alloc, words)?;
    let mut out = mem_sink(alloc, outside.out)?;
    let mut err = mem_sink(alloc, outside.err)?;
    let status = run(alloc, &words, files, &mut out, &mut err);
    let out = String::from_utf8_lossy(alloc, out.bytes())?;
    let err = String::from_utf8_lossy(alloc, err.bytes())?;
    Ok((status, out, err))
}

// Whether a run ends with this status, this output and this text on standard error.
pub fn ends(
    alloc: Global,
    words: &[&str],
    outside: Outside<'_>,
    status: u8,
    out: &str,
    err: &str,
) -> Result<bool, Fail> {
    let mut files = mem_files(alloc, &outside)?;
    let got = answer(alloc, words, &mut files, &outside)?;
    Ok(got.0 == status && got.1.as_str() == out && got.2.as_str() == err)
}

// Words, and how the run ends over the files L and P.
#[test]
fn tells_commands(rt: HostRuntime) -> Result<(), Fail> {
    let map = "('x -> 'y) -> 'x list -> 'y list";
    let hit = "val L.map : ('a -> 'b) -> 'a list -> 'b list\n1 found\n";
    let rows = [
        ([].as_slice(), 2, "", USAGE),
        (&["list", "F", "--names"], 2, "", USAGE),
        (&["iso", "int", "F", "G", "--from-index"], 2, "", USAGE),
        (&["gen", "0"], 2, "", USAGE),
        (
            &["gen", "14"],
            0,
            "members 14, queries 1, iso 1, general 1\n",
            "",
        ),
        (&["same", map, "--names", "F"], 0, hit, ""),
        (&["list", "G", "F", "G"], 3, "", "G:1:11: described twice\n"),
        (&["iso", "int", "--", "F"], 1, "0 found\n", ""),
        (
            &["same", "-", "F"],
            4,
            "",
            "query:1:1: unbound identifier\n",
        ),
        (&["same", "int ->", "M"], 5, "", "M: cannot be read\n"),
        (
            &["list", "--", "--names"],
            5,
            "",
            "--names: cannot be read\n",
        ),
        (&["list", "--from-index", "F"], 8, "", "F: not an index\n"),
        (&["index", "F", "M"], 5, "", "M: cannot be read\n"),
    ];
    for (words, status, out, err) in rows {
        assert!(rt;
            ends(rt.alloc(), words, both(L, P), status, out, err)?,
            "{words:?}"
        );
    }
    Ok(())
}

// Words of mode `index` over the files L and P, how the run ends, and what it leaves in the file that it writes; then
// what a command over the index of P answers.
#[test]
fn writes_indexes(rt: HostRuntime) -> Result<(), Fail> {
    let alloc = rt.alloc();
    let rows = [
        (["index", "O", "G"], 0, 0, INDEX, ""),
        (["index", "G", "G"], 0, 0, INDEX, ""),
        (["index", "F", "G"], 4, 6, "", "F: cannot be written\n"),
        (["index", "F", "G"], 3, 6, L, "F: cannot be written\n"),
    ];
    for (words, file, status, left, err) in rows {
        let outside = Outside { file, ..both(L, P) };
        let mut files = mem_files(alloc, &outside)?;
        let got = answer(alloc, &words, &mut files, &outside)?;
        assert_eq!(rt; got.0, status, "{words:?}");
        assert!(rt; got.1.is_empty() && got.2.as_str() == err, "{words:?}");
        let Ok(bytes) = read_whole(alloc, &mut files, words[1], 4096) else {
            return Err(Fail::from(NoMemory));
        };
        assert!(rt; bytes.as_slice() == left.as_bytes(), "{words:?}");
    }
    let listed = ["list", "F", "--from-index"];
    let out = "val P.x : int\n1 found\n";
    assert!(rt; ends(alloc, &listed, sound(INDEX), 0, out, "")?);
    let longer = format!(in alloc; "{INDEX}\0")?;
    let err = "F: not an index\n";
    assert!(rt; ends(alloc, &listed, sound(&longer), 8, "", err)?);
    Ok(())
}

// Two files, words, and how the run ends.
#[test]
fn takes_files_in_turn(rt: HostRuntime) -> Result<(), Fail> {
    let used = both(
        "structure S : sig type t end signature A = sig type u val x : u end",
        "structure B : A where type u = S.t list signature D = A",
    );
    let late = both(
        "structure S : sig type t end",
        "signature B = sig val x : S.t * int C.t end",
    );
    let rows = [
        (
            used,
            ["list", "F", "G"].as_slice(),
            0,
            "val A.x : A.u\nval B.x : S.t list\nval D.x : D.u\n3 found\n",
            "",
        ),
        (
            used,
            &["list", "G", "F"],
            3,
            "",
            "G:1:15: unbound signature\n",
        ),
        (
            late,
            &["iso", "int C.t * S.t", "F", "G", "--names"],
            0,
            "val B.x : S.t * int C.t\n1 found\n",
            "",
        ),
        (
            late,
            &["list", "G", "F"],
            3,
            "",
            "F:1:11: identifier was used for an external type\n",
        ),
    ];
    for (files, words, status, out, err) in rows {
        assert!(rt;
            ends(rt.alloc(), words, files, status, out, err)?,
            "{words:?}"
        );
    }
    Ok(())
}

// The word `list`, followed by 513 times the word `f`; and a file that is one byte too long.
#[test]
fn keeps_limits(rt: HostRuntime) -> Result<(), Fail> {
    let mut words = Vec::new(rt.alloc());
    words.push("list")?;
    for _ in 0..513 {
        words.push("f")?;
    }
    let err = "f: more than 512 files\n";
    assert!(rt; ends(rt.alloc(), words.as_slice(), sound(L), 3, "", err)?);
    let mut text = String::new(rt.alloc());
    for _ in 0..4_194_305 {
        text.push(' ')?;
    }
    let err = "F: longer than 4194304 bytes\n";
    assert!(rt; ends(rt.alloc(), &["list", "F"], sound(&text), 3, "", err)?);
    Ok(())
}

// The numbers of the calls that fail, and how the run ends.
#[test]
fn ends_where_calls_fail(rt: HostRuntime) -> Result<(), Fail> {
    let find = ["same", "('x -> 'y) -> 'x list -> 'y list", "F"].as_slice();
    let list = ["list", "F"].as_slice();
    let rows = [
        (list, 2, 0, 5, "", "F: cannot be read\n"),
        (find, 0, 1, 6, "", "output: cannot be written\n"),
        (
            list,
            0,
            3,
            6,
            "val L.map : ('a -> 'b) -> 'a lis",
            "output: cannot be written\n",
        ),
    ];
    for (words, file, out, status, written, line) in rows {
        let outside = Outside {
            first: L,
            second: "",
            file,
            out,
            err: 0,
        };
        assert!(rt;
            ends(rt.alloc(), words, outside, status, written, line)?,
            "{words:?} {file} {out}"
        );
        // Where the line fails, the status stays.
        let failing = Outside { err: 1, ..outside };
        assert!(rt;
            ends(rt.alloc(), words, failing, status, written, "")?,
            "{words:?} {file} {out}"
        );
    }
    Ok(())
}
