// Types in postfix notation, pairings by hand, and the converters that they give.
ghost use Rattle.std.specs.Prelude.{◌≤◌, IfOk};
ghost use Rattle.iso_normal.specs.PairTrees.{IsPermuted};

use crate::converters::contracted;
use conv_terms::Term;
use iso_normal::{Entry, PairTree};
use sig_base::{List, NoMemory, Row, Shared, Text};
use std::alloc::Global;
use std::test::Fail;
use type_core::{NameId, Ty, push_decimal};

fn top(stack: &mut List<Ty>) -> Ty {
    match stack.pop() {
        Some(t) => t,
        None => Ty::Tup(Row::empty()),
    }
}

fn step(alloc: Global, stack: &mut List<Ty>, byte: u8) -> Result<Ty, NoMemory> {
    match byte {
        b'1' => Ok(Ty::Tup(Row::empty())),
        b'*' => {
            let second = top(stack);
            let mut both = List::new(alloc);
            both.push(top(stack))?;
            both.push(second)?;
            Ok(Ty::Tup(Row::new(alloc, both)?))
        }
        b'>' => {
            let to = Shared::new(alloc, top(stack))?;
            let from = Shared::new(alloc, top(stack))?;
            Ok(Ty::Arrow(from, to))
        }
        letter => Ok(Ty::Con(NameId(u32::from(letter)), Row::empty())),
    }
}

fn read(alloc: Global, text: &[u8]) -> Result<Ty, NoMemory> {
    let mut stack = List::new(alloc);
    for byte in text {
        let t = step(alloc, &mut stack, *byte)?;
        stack.push(t)?;
    }
    Ok(top(&mut stack))
}

fn none(alloc: Global) -> PairTree
    ensures permuted { IsPermuted result }
{
    PairTree {
        entries: List::new(alloc),
    }
}

fn one(alloc: Global, args: PairTree) -> Result<PairTree, NoMemory>
    requires inner { IsPermuted args }
    ensures permuted { IfOk result IsPermuted }
{
    let mut entries = List::new(alloc);
    entries.push(Entry { place: 0, args })?;
    Ok(PairTree { entries })
}

fn two(alloc: Global, first: u32, a: PairTree, b: PairTree) -> Result<PairTree, NoMemory>
    requires low { first ≤ 1 }
    requires left { IsPermuted a }
    requires right { IsPermuted b }
    ensures permuted { IfOk result IsPermuted }
{
    let mut entries = List::new(alloc);
    entries.push(Entry {
        place: first,
        args: a,
    })?;
    entries.push(Entry {
        place: 1 - first,
        args: b,
    })?;
    Ok(PairTree { entries })
}

fn flat(alloc: Global, first: u32) -> Result<PairTree, NoMemory>
    requires low { first ≤ 1 }
    ensures permuted { IfOk result IsPermuted }
{
    two(alloc, first, none(alloc), none(alloc))
}

#[cycle(show)]
fn show(alloc: Global, t: &Term, out: &mut Text) -> Result<(), NoMemory> {
    match t {
        Term::Var(n) => push_decimal(alloc, out, u64::from(*n)),
        Term::Lam(_, body) => {
            out.push(b'\\')?;
            show(alloc, body.get(), out)
        }
        Term::App(function, argument) => {
            out.push(b'(')?;
            show(alloc, function.get(), out)?;
            out.push(b' ')?;
            show(alloc, argument.get(), out)?;
            out.push(b')')
        }
        Term::Tup(components) => {
            out.push(b'[')?;
            show_all(alloc, components.as_slice(), out)?;
            out.push(b']')
        }
        Term::Proj(i, _, e) => {
            out.push(b'#')?;
            push_decimal(alloc, out, u64::from(*i))?;
            out.push(b':')?;
            show(alloc, e.get(), out)
        }
    }
}

#[cycle(show)]
fn show_all(alloc: Global, terms: &[Term], out: &mut Text) -> Result<(), NoMemory> {
    for t in terms {
        show(alloc, t, out)?;
        out.push(b',')?;
    }
    Ok(())
}

/// Whether these are the converters of the two types in postfix notation.
fn converts(
    alloc: Global,
    a: &[u8],
    b: &[u8],
    p: &PairTree,
    wanted: &[u8],
) -> Result<bool, NoMemory>
    requires permuted { IsPermuted p.now }
{
    let a = read(alloc, a)?;
    let b = read(alloc, b)?;
    let made = contracted(alloc, &a, &b, p)?;
    let mut text = Text::new(alloc);
    show(alloc, &made.to, &mut text)?;
    text.push(b'/')?;
    show(alloc, &made.from, &mut text)?;
    Ok(text.as_slice() == wanted)
}

#[test]
fn units_are_given_and_taken(rt: HostRuntime) -> Result<(), Fail> {
    let alloc = rt.alloc();
    let p = one(alloc, none(alloc))?;
    assert!(rt; converts(alloc, b"1I>", b"I", &p, b"\\(0 [])/\\\\0")?);
    assert!(rt; converts(alloc, b"1I>", b"1I>", &p, b"\\\\(0 [])/\\\\(0 [])")?);
    assert!(rt; converts(alloc, b"A1>", b"1", &none(alloc), b"\\[]/\\\\[]")?);
    Ok(())
}

#[test]
fn pairs_are_left_where_they_stay(rt: HostRuntime) -> Result<(), Fail> {
    let alloc = rt.alloc();
    let p = two(alloc, 0, flat(alloc, 0)?, flat(alloc, 0)?)?;
    assert!(rt; converts(alloc, b"II*II*>", b"II*II*>", &p, b"\\0/\\0")?);
    Ok(())
}

#[test]
fn arguments_change_places(rt: HostRuntime) -> Result<(), Fail> {
    let alloc = rt.alloc();
    let p = one(alloc, flat(alloc, 1)?)?;
    assert!(rt;
        converts(
            alloc,
            b"ISB>>",
            b"SI*B>",
            &p,
            b"\\\\((0 #2:1) #1:1)/\\\\\\(0 [2,1,])"
        )?
    );
    Ok(())
}
