// Lists of words, and the commands that they are, written as words again: the mode, the options, `--` and the values.
use crate::{Command, FindMode, WordsRefusal, read_words};
use sig_base::{NoMemory, Str, Text};
use std::alloc::{AllocError, Global};
use std::test::Fail;

fn write_options(out: &mut Text, names: bool, from_index: bool) -> Result<(), NoMemory> {
    if names {
        out.extend(b"--names ")?;
    }
    if from_index {
        out.extend(b"--from-index ")?;
    }
    out.extend(b"--")
}

fn write_values(out: &mut Text, values: &[Str]) -> Result<(), NoMemory> {
    for value in values {
        out.push(b' ')?;
        out.extend(value.as_str().as_bytes())?;
    }
    Ok(())
}

fn write_value(out: &mut Text, value: &Str) -> Result<(), NoMemory> {
    out.push(b' ')?;
    out.extend(value.as_str().as_bytes())
}

fn mode_word(mode: FindMode) -> &'static [u8] {
    match mode {
        FindMode::Same => b"same ",
        FindMode::Iso => b"iso ",
        FindMode::General => b"general ",
    }
}

fn write_command(out: &mut Text, command: &Command) -> Result<(), NoMemory> {
    match command {
        Command::Listing { files, from_index } => {
            out.extend(b"list ")?;
            write_options(out, false, *from_index)?;
            write_values(out, files.as_slice())
        }
        Command::Find {
            mode,
            query,
            files,
            names,
            from_index,
        } => {
            out.extend(mode_word(*mode))?;
            write_options(out, *names, *from_index)?;
            write_value(out, query)?;
            write_values(out, files.as_slice())
        }
        Command::Index { out: path, files } => {
            out.extend(b"index --")?;
            write_value(out, path)?;
            write_values(out, files.as_slice())
        }
        Command::Gen { n } => {
            out.extend(b"gen -- ")?;
            match *n {
                1 => out.push(b'1'),
                70 => out.extend(b"70"),
                20_000 => out.extend(b"20000"),
                _ => out.push(b'?'),
            }
        }
    }
}

// The words of a text, which have one blank between each two.
fn words_of(alloc: Global, text: &str) -> Result<Vec<String>, AllocError> {
    let mut words = Vec::new(alloc);
    for word in text.split(' ') {
        words.push(String::from_str(alloc, word)?)?;
    }
    Ok(words)
}

// Whether the words of a text are this command, or none where it has no bytes.
fn reads(alloc: Global, text: &str, due: &[u8]) -> Result<bool, Fail> {
    let words = words_of(alloc, text)?;
    let mut told = Text::new(alloc);
    match read_words(alloc, &words) {
        Ok(command) => write_command(&mut told, &command)?,
        Err(WordsRefusal::Usage) => {}
        Err(WordsRefusal::NoMemory) => return Ok(false),
    }
    Ok(told.as_slice() == due)
}

#[test]
fn reads_commands(rt: HostRuntime) -> Result<(), Fail> {
    let rows = [
        ("list F", b"list -- F".as_slice()),
        ("list F - G F", b"list -- F - G F"),
        ("list --from-index F", b"list --from-index -- F"),
        ("list F --from-index", b"list --from-index -- F"),
        ("list -- -- F", b"list -- -- F"),
        ("list F -- --from-index -G", b"list -- F --from-index -G"),
        ("list -- --names --names", b"list -- --names --names"),
        ("list ", b"list -- "),
        ("same int F", b"same -- int F"),
        ("iso int F G", b"iso -- int F G"),
        ("iso list F --names", b"iso --names -- list F"),
        (
            "iso --from-index - --names F",
            b"iso --names --from-index -- - F",
        ),
        ("general --names -- --x --", b"general --names -- --x --"),
        ("general int F --", b"general -- int F"),
        ("index O F", b"index -- O F"),
        ("index O -- F --", b"index -- O F --"),
        ("gen 1", b"gen -- 1"),
        ("gen -- 70", b"gen -- 70"),
        ("gen 20000", b"gen -- 20000"),
    ];
    for (text, due) in rows {
        assert!(rt; reads(rt.alloc(), text, due)?, "{text}");
    }
    Ok(())
}

#[test]
fn refuses_words(rt: HostRuntime) -> Result<(), Fail> {
    let texts = [
        "",
        "--help",
        "help",
        "--",
        "-- list F",
        "--names iso int F",
        "List F",
        "list",
        "list --",
        "list --from-index",
        "list --from-index F G",
        "list --from-index F -- G",
        "list --names F",
        "list -F",
        "list --from-index=F",
        "list --from-index F --from-index",
        "iso",
        "iso int",
        "iso int --",
        "same --names int",
        "same --names int F --names",
        "general int -x F",
        "general --Names int F",
        "iso int a b --from-index",
        "index O",
        "index O F --names",
        "index --from-index O F",
        "gen",
        "gen ",
        "gen 0",
        "gen 007",
        "gen +7",
        "gen -7",
        "gen 7x",
        "gen 20001",
        "gen 4294967297",
        "gen 1234567890123456789012345678901234567890",
        "gen 1 2",
        "gen --names 1",
    ];
    for text in texts {
        assert!(rt; reads(rt.alloc(), text, b"")?, "{text}");
    }
    let none = Vec::new(rt.alloc());
    assert!(rt; matches!(read_words(rt.alloc(), &none), Err(WordsRefusal::Usage)));
    Ok(())
}
