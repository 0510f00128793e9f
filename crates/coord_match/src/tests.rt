// Types by hand, and the least pairings of their coordinates.
ghost use Rattle.std.specs.Prelude.{◌≡◌, ◌+◌, IfSome, IsTrue};
ghost use Rattle.iso_normal.specs.Shapes.{nodes_of};
ghost use Rattle.coord_match.specs.Names.{HaveOneMark};

use crate::names::gather_coordinates;
use crate::{first, first_identical};
use iso_normal::normal;
use sig_base::{List, NoMemory, Row, Shared, Text};
use std::alloc::Global;
use std::test::Fail;
use type_core::{Coordinate, Field, NameId, Ty, VarId};

fn named(name: u32) -> Ty {
    Ty::Con(NameId(name), Row::empty())
}

/// The type last read; unit where there is none.
fn top(stack: &mut List<Ty>) -> Ty {
    match stack.pop() {
        Some(t) => t,
        None => Ty::Tup(Row::empty()),
    }
}

fn two(alloc: Global, stack: &mut List<Ty>) -> Result<Row<Ty>, NoMemory> {
    let second = top(stack);
    let mut both = List::new(alloc);
    both.push(top(stack))?;
    both.push(second)?;
    Row::new(alloc, both)
}

fn arrow(alloc: Global, stack: &mut List<Ty>) -> Result<Ty, NoMemory> {
    let to = Shared::new(alloc, top(stack))?;
    let from = Shared::new(alloc, top(stack))?;
    Ok(Ty::Arrow(from, to))
}

fn list_of(alloc: Global, t: Ty) -> Result<Ty, NoMemory> {
    let mut arguments = List::new(alloc);
    arguments.push(t)?;
    Ok(Ty::Con(NameId(7), Row::new(alloc, arguments)?))
}

fn record_of(alloc: Global, t: Ty) -> Result<Ty, NoMemory> {
    let label = Text::from_slice(alloc, b"x")?;
    let mut fields = List::new(alloc);
    fields.push(Field { label, ty: t })?;
    Ok(Ty::Rec(Row::new(alloc, fields)?))
}

/// The type that a byte makes of those read before it.
fn step(alloc: Global, stack: &mut List<Ty>, byte: u8) -> Result<Ty, NoMemory> {
    match byte {
        b'1' => Ok(Ty::Tup(Row::empty())),
        b'I' => Ok(named(0)),
        b'S' => Ok(named(4)),
        b'B' => Ok(named(6)),
        b'L' => list_of(alloc, top(stack)),
        b'R' => record_of(alloc, top(stack)),
        b'*' => Ok(Ty::Tup(two(alloc, stack)?)),
        b'>' => arrow(alloc, stack),
        letter => {
            let n = letter.wrapping_sub(b'a') as u32;
            Ok(Ty::Var(VarId { n, eq: n >= 8 }))
        }
    }
}

/// The coordinates of the type in postfix notation: `a` to `h` are variables, later letters are variables with the
/// equality mark, `1` is unit, `I` int, `S` string, `B` bool, `L` list, `R` a record of one field, `*` a pair and `>` an
/// arrow.
fn read(alloc: Global, text: &[u8]) -> Result<List<Coordinate>, NoMemory> {
    let mut stack = List::new(alloc);
    for byte in text {
        let t = step(alloc, &mut stack, *byte)?;
        stack.push(t)?;
    }
    let t = top(&mut stack);
    normal(alloc, &t)
}

/// Whether just the variables from number 8 on have the mark, so that a number has one.
fn are_marked_by_number(variables: &[VarId]) -> bool
    ensures one_mark { IsTrue result → HaveOneMark variables.now }
{
    for v in variables {
        if v.eq != (v.n >= 8) {
            return false;
        }
    }
    true
}

/// How much is left of the number, once each coordinate at every depth has taken one; `None` where there is too little.
#[cycle(left_of)]
#[tactic(auto, using(iso_normal::proofs::ReadWords::letters_steps, std::proofs::lemmas::Grind::common_steps))]
fn left_of(all: &[Coordinate], number: u32) -> Option<u32>
    ensures some { IfSome result (λ left. number ≡ nodes_of all.now + left) }
{
    let mut left = number;
    for c in all {
        if left == 0 {
            return None;
        }
        match left_of(c.arguments.as_slice(), left - 1) {
            Some(others) => left = others,
            None => return None,
        }
    }
    Some(left)
}

/// The word and the names of the least pairing, as digits and letters, or `none`.
fn written(alloc: Global, a: &[u8], b: &[u8]) -> Result<Text, NoMemory> {
    let a = read(alloc, a)?;
    let b = read(alloc, b)?;
    let mut variables = List::new(alloc);
    gather_coordinates(&mut variables, a.as_slice())?;
    if !are_marked_by_number(variables.as_slice()) {
        return Err(NoMemory);
    }
    let Some(_) = left_of(b.as_slice(), 1000) else {
        return Err(NoMemory);
    };
    let Some(pairs) = first(alloc, &a, &b)? else {
        return Text::from_slice(alloc, b"none");
    };
    let mut text = Text::new(alloc);
    for place in pairs.word.as_slice() {
        text.push(b'0' + (*place % 10) as u8)?;
    }
    text.push(b'/')?;
    for name in pairs.names.as_slice() {
        match name {
            Some(v) => text.push(b'a' + (v.n % 26) as u8)?,
            None => text.push(b'-')?,
        }
    }
    Ok(text)
}

/// The word of the least pairing with identical heads, as digits, or `none`.
fn written_identical(alloc: Global, a: &[u8], b: &[u8]) -> Result<Text, NoMemory> {
    let a = read(alloc, a)?;
    let b = read(alloc, b)?;
    let Some(_) = left_of(b.as_slice(), 1000) else {
        return Err(NoMemory);
    };
    let Some(word) = first_identical(alloc, &a, &b)? else {
        return Text::from_slice(alloc, b"none");
    };
    let mut text = Text::new(alloc);
    for place in word.as_slice() {
        text.push(b'0' + (*place % 10) as u8)?;
    }
    Ok(text)
}

#[test]
fn least_pairings(rt: HostRuntime) -> Result<(), Fail> {
    let alloc = rt.alloc();
    let cases = [
        // one renaming for all coordinates, one to one
        (
            b"ab>ba>*".as_slice(),
            b"ab>ab>*".as_slice(),
            b"none".as_slice(),
        ),
        (b"ab>ba>*", b"ba>ab>*", b"0010/ba"),
        (b"ab*", b"aa*", b"none"),
        (b"aa*", b"ab*", b"none"),
        (b"abab>**", b"abba>**", b"1020/ba"),
        (b"bba>a*>", b"dac>cd>>", b"none"),
        (b"aLb*I>", b"abLI>>", b"010/ba"),
        // coordinates in any order, but none beneath a name or a label
        (b"IB*S>", b"BIS>>", b"010/"),
        (b"IS*I>", b"II*S>", b"none"),
        (b"IB*L", b"BI*L", b"none"),
        (b"IB*L", b"IB*L", b"0/"),
        (b"ab*R", b"ba*R", b"0/ba"),
        (b"ab*R", b"aa*R", b"none"),
        // the least word of several
        (b"II*II*>", b"II*II*>", b"001101/"),
        (b"ab*", b"ab*", b"01/ab"),
        (b"Iab>I**", b"Iab>I**", b"0102/ab"),
        // marks, and variables that vanish
        (b"i", b"j", b"0/--------j"),
        (b"i", b"a", b"none"),
        (b"a", b"i", b"none"),
        (b"ba1>*", b"c", b"0/-c"),
        (b"ab1>>", b"1", b"/"),
        // lists of different lengths
        (b"II*", b"I", b"none"),
        (b"III*>", b"II>", b"none"),
    ];
    for (a, b, wanted) in cases {
        let text = written(alloc, a, b)?;
        assert!(rt; text.as_slice() == wanted);
    }
    Ok(())
}

#[test]
fn orders_that_cannot_matter(rt: HostRuntime) -> Result<(), Fail> {
    let alloc = rt.alloc();
    let cases = [
        (
            b"IIIIIIIIIIII***********".as_slice(),
            b"IIIIIIIIIIII***********".as_slice(),
            b"012345678901/".as_slice(),
        ),
        (
            b"IIIIIIIIIIIB***********",
            b"IIIIIIIIIIII***********",
            b"none",
        ),
        (
            b"IIIIIIIIIIII***********",
            b"IIIIIIIIIIIS***********",
            b"none",
        ),
        (
            b"IIIIIIIIIIIB***********S>",
            b"IIIIIIIIIIII***********S>",
            b"none",
        ),
        (
            b"IIIIIIIIIIIIab>ba>*************",
            b"IIIIIIIIIIIIab>ab>*************",
            b"none",
        ),
    ];
    for (a, b, wanted) in cases {
        let text = written(alloc, a, b)?;
        assert!(rt; text.as_slice() == wanted);
    }
    Ok(())
}

#[test]
fn least_pairings_with_identical_heads(rt: HostRuntime) -> Result<(), Fail> {
    let alloc = rt.alloc();
    let cases = [
        (b"ab*".as_slice(), b"ba*".as_slice(), b"10".as_slice()),
        (b"ab>ba>*", b"ba>ab>*", b"1000"),
        (b"aIa**", b"Iaa**", b"102"),
        (b"a", b"b", b"none"),
        (b"aaLb*>", b"bbLa*>", b"none"),
    ];
    for (a, b, wanted) in cases {
        let text = written_identical(alloc, a, b)?;
        assert!(rt; text.as_slice() == wanted);
    }
    Ok(())
}
