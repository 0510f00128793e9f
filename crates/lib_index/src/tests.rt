// Index texts that were written by another program, and what isn't one.
use crate::{IndexRefusal, decode, encode};
use sig_base::{List, NoMemory, Text};
use std::alloc::Global;
use std::test::Fail;

// The index of `signature P = sig val x : int end`.
const SMALL: &[u8] = b"isosrch1\0\0\0\x01\0\0\0\0\x01P\0\0\0\0\0\0\0\0\
\0\0\0\x01\0\0\0\0\x03P.x\0\0\0\0\x01\0\0\0\0";

// The index of `signature Q = sig eqtype t datatype 'a d = D of {a : 'a, b : t} | E exception X
// val f : ''a * 'b -> (unit -> O.z) -> ''a end`.
const LARGE: &[u8] = b"isosrch1\0\0\0\x01\0\0\0\0\x01Q\
\0\0\0\x03\0\0\0\x03Q.t\0\0\0\0\x01\0\0\0\0\x03Q.d\0\0\0\x01\x01\0\0\0\0\x03O.z\0\0\0\0\x01\x01\
\0\0\0\x02\0\0\0\x03Q.t\0\0\0\0\x01\0\0\0\x0e\0\0\0\x03Q.d\0\0\0\x01\x01\0\0\0\x0f\0\0\0\0\0\
\0\0\0\x04\x01\0\0\0\x03Q.D\0\0\0\x01\0\x03\x04\0\0\0\x02\0\0\0\x01a\0\0\0\0\0\0\0\0\x01b\x01\0\0\0\x0e\
\x01\0\0\0\x0f\0\0\0\0\0\x01\0\0\0\x03Q.E\0\0\0\x01\0\x01\0\0\0\x0f\0\0\0\0\0\
\x02\0\0\0\x03Q.X\0\0\0\0\x01\0\0\0\x06\
\0\0\0\0\x03Q.f\0\0\0\x02\x01\0\x03\x02\0\0\0\x02\0\0\0\0\0\0\0\0\0\x01\
\x03\x03\x02\0\0\0\0\x01\0\0\0\x10\0\0\0\0\0";

fn is_index(alloc: Global, bytes: &[u8]) -> Result<bool, NoMemory> {
    match decode(alloc, bytes) {
        Ok(_) => Ok(true),
        Err(IndexRefusal::NotAnIndex) => Ok(false),
        Err(IndexRefusal::NoMemory) => Err(NoMemory),
    }
}

// Whether the library whose text the bytes are is written with these bytes.
fn is_written_again(alloc: Global, bytes: &[u8]) -> Result<bool, NoMemory> {
    match decode(alloc, bytes) {
        Ok(library) => {
            let text = encode(alloc, &library)?;
            Ok(text.as_slice() == bytes)
        }
        Err(_) => Ok(false),
    }
}

// The bytes, with something added to the one at a place.
fn with_change(alloc: Global, bytes: &[u8], at: usize, change: u8) -> Result<Text, NoMemory> {
    let mut changed = Text::new(alloc);
    for i in 0..bytes.len() {
        let added = if i == at { change } else { 0 };
        changed.push(bytes[i].wrapping_add(added))?;
    }
    Ok(changed)
}

// Whether just at these places of the small index the byte may be so much more.
fn may_change_at(alloc: Global, change: u8, places: &[usize]) -> Result<bool, NoMemory> {
    let mut found = List::new(alloc);
    for i in 0..SMALL.len() {
        let changed = with_change(alloc, SMALL, i, change)?;
        if is_index(alloc, changed.as_slice())? {
            found.push(i)?;
        }
    }
    Ok(found.as_slice() == places)
}

// Whether no proper prefix of the small index is an index.
fn has_no_prefix(alloc: Global) -> Result<bool, NoMemory> {
    for end in 0..SMALL.len() {
        if is_index(alloc, &SMALL[..end])? {
            return Ok(false);
        }
    }
    Ok(true)
}

fn with_byte_behind(alloc: Global) -> Result<Text, NoMemory> {
    let mut longer = Text::from_slice(alloc, SMALL)?;
    longer.push(0)?;
    Ok(longer)
}

#[test]
fn indexes_are_written_again(rt: HostRuntime) -> Result<(), Fail> {
    let alloc = rt.alloc();
    assert!(rt; SMALL.len() == 47);
    assert!(rt; is_written_again(alloc, SMALL)?);
    assert!(rt; is_written_again(alloc, LARGE)?);
    Ok(())
}

#[test]
fn other_bytes_are_refused(rt: HostRuntime) -> Result<(), Fail> {
    let alloc = rt.alloc();
    assert!(rt; has_no_prefix(alloc)?);
    let longer = with_byte_behind(alloc)?;
    assert!(rt; !is_index(alloc, longer.as_slice())?);
    assert!(rt; !is_index(alloc, b"isosrch1\xff\xff\xff\xff")?);
    Ok(())
}

#[test]
fn changed_bytes_are_refused(rt: HostRuntime) -> Result<(), Fail> {
    let alloc = rt.alloc();
    assert!(rt; may_change_at(alloc, 1, &[12, 30, 37, 42, 46])?);
    assert!(rt; may_change_at(alloc, 2, &[30, 37, 46])?);
    assert!(rt; may_change_at(alloc, 14, &[])?);
    assert!(rt; may_change_at(alloc, 128, &[])?);
    Ok(())
}
