// Terms in postfix notation, and their texts.
use crate::{print_open, print_term};
use conv_terms::Term;
use sig_base::{Boxed, List, NoMemory, Row, Shared};
use std::alloc::Global;
use std::test::Fail;
use type_core::{NameId, Ty, initial_names};

/// The term last read; the tuple of none where there is none.
fn top(alloc: Global, stack: &mut List<Term>) -> Term {
    match stack.pop() {
        Some(t) => t,
        None => Term::Tup(List::new(alloc)),
    }
}

fn abstraction(alloc: Global, stack: &mut List<Term>, a: Ty) -> Result<Term, NoMemory> {
    let body = Boxed::new(alloc, top(alloc, stack))?;
    let a = Boxed::new(alloc, a)?;
    Ok(Term::Lam(a, body))
}

fn application(alloc: Global, stack: &mut List<Term>) -> Result<Term, NoMemory> {
    let argument = Boxed::new(alloc, top(alloc, stack))?;
    let function = Boxed::new(alloc, top(alloc, stack))?;
    Ok(Term::App(function, argument))
}

fn pair(alloc: Global, stack: &mut List<Term>) -> Result<Term, NoMemory> {
    let second = top(alloc, stack);
    let mut both = List::new(alloc);
    both.push(top(alloc, stack))?;
    both.push(second)?;
    Ok(Term::Tup(both))
}

fn projection(alloc: Global, stack: &mut List<Term>, i: u32) -> Result<Term, NoMemory> {
    let e = Boxed::new(alloc, top(alloc, stack))?;
    Ok(Term::Proj(i, 2, e))
}

fn int() -> Ty {
    Ty::Con(NameId(0), Row::empty())
}

fn int_to_int(alloc: Global) -> Result<Ty, NoMemory> {
    let from = Shared::new(alloc, int())?;
    let to = Shared::new(alloc, int())?;
    Ok(Ty::Arrow(from, to))
}

/// The term that a byte makes of those read before it: `a` is the first variable and `b` the second, `0` the tuple of
/// none, `,` a pair, `1` and `2` are projections from a pair, `@` applies, `\` abstracts over int, `^` over int -> int.
fn step(alloc: Global, stack: &mut List<Term>, byte: u8) -> Result<Term, NoMemory> {
    match byte {
        b'0' => Ok(Term::Tup(List::new(alloc))),
        b',' => pair(alloc, stack),
        b'1' => projection(alloc, stack, 1),
        b'2' => projection(alloc, stack, 2),
        b'@' => application(alloc, stack),
        b'\\' => abstraction(alloc, stack, int()),
        b'^' => {
            let a = int_to_int(alloc)?;
            abstraction(alloc, stack, a)
        }
        letter => Ok(Term::Var(u32::from(letter.wrapping_sub(b'a')))),
    }
}

fn read(alloc: Global, text: &[u8]) -> Result<Term, NoMemory> {
    let mut stack = List::new(alloc);
    for byte in text {
        let t = step(alloc, &mut stack, *byte)?;
        stack.push(t)?;
    }
    Ok(top(alloc, &mut stack))
}

/// Whether this is the text of the term under so many abstractions.
fn prints(alloc: Global, depth: u32, t: &[u8], wanted: &[u8]) -> Result<bool, NoMemory> {
    let t = read(alloc, t)?;
    let names = initial_names(alloc)?;
    let text = print_open(alloc, &names, depth, &t)?;
    Ok(text.as_slice() == wanted)
}

#[test]
fn terms_under_abstractions(rt: HostRuntime) -> Result<(), Fail> {
    let alloc = rt.alloc();
    let cases = [
        (1, b"a".as_slice(), b"x1".as_slice()),
        (10, b"j", b"x10"),
        (0, b"0", b"()"),
        (1, b"a0@", b"x1 ()"),
        (3, b"acb,@", b"x1 (x3, x2)"),
        (2, b"ab2@b1@", b"x1 (#2 x2) (#1 x2)"),
        (2, b"a1b@", b"#1 x1 x2"),
        (1, b"a12", b"#2 (#1 x1)"),
        (2, b"ab@1", b"#1 (x1 x2)"),
        (3, b"ab@c@", b"x1 x2 x3"),
        (3, b"abc@@", b"x1 (x2 x3)"),
        (1, b"ab\\@", b"x1 (fn (x2 : int) => x2)"),
        (1, b"b\\a@", b"(fn (x2 : int) => x2) x1"),
        (1, b"b\\1", b"#1 (fn (x2 : int) => x2)"),
        (1, b"ab^,", b"(x1, fn (x2 : int -> int) => x2)"),
    ];
    for (depth, t, wanted) in cases {
        assert!(rt; prints(alloc, depth, t, wanted)?);
    }
    Ok(())
}

#[test]
fn closed_terms(rt: HostRuntime) -> Result<(), Fail> {
    let alloc = rt.alloc();
    let t = read(alloc, b"ab@^\\")?;
    let names = initial_names(alloc)?;
    let text = print_term(alloc, &names, &t)?;
    let wanted = b"fn (x1 : int) => fn (x2 : int -> int) => x1 x2".as_slice();
    assert!(rt; text.as_slice() == wanted);
    Ok(())
}
