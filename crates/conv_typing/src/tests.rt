// Terms by hand, and the types that they have.
use crate::type_of;
use conv_terms::Term;
use sig_base::{Boxed, List, NoMemory, Row, Shared};
use std::alloc::Global;
use std::test::Fail;
use type_core::{NameId, Ty, initial_names, print_type};

fn int() -> Ty {
    Ty::Con(NameId(0), Row::empty())
}

fn string() -> Ty {
    Ty::Con(NameId(4), Row::empty())
}

fn arrow(alloc: Global, from: Ty, to: Ty) -> Result<Ty, NoMemory> {
    let from = Shared::new(alloc, from)?;
    let to = Shared::new(alloc, to)?;
    Ok(Ty::Arrow(from, to))
}

fn one<T: Drop>(alloc: Global, x: T) -> Result<List<T>, NoMemory> {
    let mut list = List::new(alloc);
    list.push(x)?;
    Ok(list)
}

fn two<T: Drop>(alloc: Global, x: T, y: T) -> Result<List<T>, NoMemory> {
    let mut list = one(alloc, x)?;
    list.push(y)?;
    Ok(list)
}

/// A tuple of one component, which is no type.
fn wrapped(alloc: Global) -> Result<Ty, NoMemory> {
    let components = Row::new(alloc, one(alloc, int())?)?;
    Ok(Ty::Tup(components))
}

fn abstraction(alloc: Global, a: Ty, body: Term) -> Result<Term, NoMemory> {
    let a = Boxed::new(alloc, a)?;
    let body = Boxed::new(alloc, body)?;
    Ok(Term::Lam(a, body))
}

fn application(alloc: Global, function: Term, argument: Term) -> Result<Term, NoMemory> {
    let function = Boxed::new(alloc, function)?;
    let argument = Boxed::new(alloc, argument)?;
    Ok(Term::App(function, argument))
}

/// Component `i` of `n` of the variable of level 0.
fn projection(alloc: Global, i: u32, n: u32) -> Result<Term, NoMemory> {
    let e = Boxed::new(alloc, Term::Var(0))?;
    Ok(Term::Proj(i, n, e))
}

/// Whether the term has this type in the context, or none where the text is empty.
fn has_type(alloc: Global, ctx: List<Ty>, t: Term, wanted: &[u8]) -> Result<bool, NoMemory> {
    let names = initial_names(alloc)?;
    match type_of(alloc, &ctx, &t)? {
        Some(a) => {
            let shown = print_type(alloc, &names, &a)?;
            Ok(shown.as_slice() == wanted)
        }
        None => Ok(wanted.is_empty()),
    }
}

/// Whether the projection from an `int * string` has this type.
fn projects(alloc: Global, i: u32, n: u32, wanted: &[u8]) -> Result<bool, NoMemory> {
    let pair = Ty::Tup(Row::new(alloc, two(alloc, int(), string())?)?);
    has_type(alloc, one(alloc, pair)?, projection(alloc, i, n)?, wanted)
}

#[test]
fn variables_have_the_types_of_the_context(rt: HostRuntime) -> Result<(), Fail> {
    let alloc = rt.alloc();
    let cases = [
        (0, b"int".as_slice()),
        (1, b"string".as_slice()),
        (2, b"".as_slice()),
    ];
    for (level, wanted) in cases {
        let ctx = two(alloc, int(), string())?;
        assert!(rt; has_type(alloc, ctx, Term::Var(level), wanted)?);
    }
    Ok(())
}

#[test]
fn functions_have_types(rt: HostRuntime) -> Result<(), Fail> {
    let alloc = rt.alloc();
    let identity = abstraction(alloc, int(), Term::Var(0))?;
    assert!(rt; has_type(alloc, List::new(alloc), identity, b"int -> int")?);
    let first = abstraction(alloc, string(), Term::Var(0))?;
    let first = abstraction(alloc, int(), first)?;
    assert!(rt; has_type(alloc, List::new(alloc), first, b"int -> string -> int")?);
    let body = Term::Tup(two(alloc, Term::Var(0), Term::Var(0))?);
    let twice = abstraction(alloc, int(), body)?;
    assert!(rt; has_type(alloc, List::new(alloc), twice, b"int -> int * int")?);
    Ok(())
}

#[test]
fn functions_are_applied_to_their_arguments(rt: HostRuntime) -> Result<(), Fail> {
    let alloc = rt.alloc();
    let itself = application(alloc, Term::Var(0), Term::Var(0))?;
    let t = abstraction(alloc, int(), itself)?;
    assert!(rt; has_type(alloc, List::new(alloc), t, b"")?);
    let cases = [(1, b"string".as_slice()), (0, b"".as_slice())];
    for (argument, wanted) in cases {
        let function = arrow(alloc, int(), string())?;
        let ctx = two(alloc, function, int())?;
        let t = application(alloc, Term::Var(0), Term::Var(argument))?;
        assert!(rt; has_type(alloc, ctx, t, wanted)?);
    }
    Ok(())
}

#[test]
fn components_are_projected(rt: HostRuntime) -> Result<(), Fail> {
    let alloc = rt.alloc();
    assert!(rt; projects(alloc, 1, 2, b"int")?);
    assert!(rt; projects(alloc, 2, 2, b"string")?);
    assert!(rt; projects(alloc, 0, 2, b"")?);
    assert!(rt; projects(alloc, 3, 2, b"")?);
    assert!(rt; projects(alloc, 1, 3, b"")?);
    Ok(())
}

#[test]
fn no_tuple_has_one_component(rt: HostRuntime) -> Result<(), Fail> {
    let alloc = rt.alloc();
    let unit = Term::Tup(List::new(alloc));
    assert!(rt; has_type(alloc, List::new(alloc), unit, b"unit")?);
    let alone = Term::Tup(one(alloc, Term::Var(0))?);
    assert!(rt; has_type(alloc, one(alloc, int())?, alone, b"")?);
    let t = projection(alloc, 1, 1)?;
    assert!(rt; has_type(alloc, one(alloc, wrapped(alloc)?)?, t, b"")?);
    Ok(())
}

#[test]
fn no_variable_has_a_type_that_is_none(rt: HostRuntime) -> Result<(), Fail> {
    let alloc = rt.alloc();
    let identity = abstraction(alloc, wrapped(alloc)?, Term::Var(0))?;
    assert!(rt; has_type(alloc, List::new(alloc), identity, b"")?);
    let constant = abstraction(alloc, wrapped(alloc)?, Term::Tup(List::new(alloc)))?;
    assert!(rt; has_type(alloc, List::new(alloc), constant, b"")?);
    let cases = [(0, b"".as_slice()), (1, b"int".as_slice())];
    for (level, wanted) in cases {
        let ctx = two(alloc, wrapped(alloc)?, int())?;
        assert!(rt; has_type(alloc, ctx, Term::Var(level), wanted)?);
    }
    Ok(())
}
