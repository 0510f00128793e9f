// Types and pairings by hand, and the converters that they give.
ghost use Rattle.std.specs.Prelude.{◌≡◌, []};
ghost use Rattle.type_core.specs.declared.ty.Ty.TheVariants as ty;

use crate::plain::converter;
use crate::redex_form;
use conv_terms::{Term, is_short_normal};
use iso_normal::{Entry, PairTree};
use sig_base::{List, NoMemory, Row, Shared, Text};
use std::alloc::Global;
use std::test::Fail;
use type_core::{NameId, Ty, push_decimal};

fn named(name: u32) -> Ty {
    Ty::Con(NameId(name), Row::empty())
}

fn arrow(alloc: Global, from: Ty, to: Ty) -> Result<Ty, NoMemory> {
    let from = Shared::new(alloc, from)?;
    let to = Shared::new(alloc, to)?;
    Ok(Ty::Arrow(from, to))
}

fn pair(alloc: Global, first: Ty, second: Ty) -> Result<Ty, NoMemory> {
    let mut components = List::new(alloc);
    components.push(first)?;
    components.push(second)?;
    let components = Row::new(alloc, components)?;
    Ok(Ty::Tup(components))
}

fn unit() -> Ty
    ensures value { result ≡ ty.Tup [] }
{
    Ty::Tup(Row::empty())
}

/// The pairing of coordinates without arguments that has these places.
fn flat(alloc: Global, places: &[u32]) -> Result<PairTree, NoMemory> {
    let mut entries = List::new(alloc);
    for place in places {
        let args = PairTree {
            entries: List::new(alloc),
        };
        entries.push(Entry {
            place: *place,
            args,
        })?;
    }
    Ok(PairTree { entries })
}

/// The pairing whose entries have these places, each with arguments at those.
fn nested(alloc: Global, places: &[u32], inner: &[u32]) -> Result<PairTree, NoMemory> {
    let mut entries = List::new(alloc);
    for place in places {
        entries.push(Entry {
            place: *place,
            args: flat(alloc, inner)?,
        })?;
    }
    Ok(PairTree { entries })
}

fn push(out: &mut Text, text: &[u8]) -> Result<(), NoMemory> {
    for byte in text {
        out.push(*byte)?;
    }
    Ok(())
}

/// Writes `\t` for an abstraction, `(f e)`, `[t,t]`, `#i:e`, and a variable's level.
#[cycle(show)]
fn show(alloc: Global, t: &Term, out: &mut Text) -> Result<(), NoMemory> {
    match t {
        Term::Var(n) => push_decimal(alloc, out, u64::from(*n)),
        Term::Lam(_, body) => {
            push(out, b"\\")?;
            show(alloc, body.get(), out)
        }
        Term::App(function, argument) => {
            push(out, b"(")?;
            show(alloc, function.get(), out)?;
            push(out, b" ")?;
            show(alloc, argument.get(), out)?;
            push(out, b")")
        }
        Term::Tup(components) => {
            push(out, b"[")?;
            show_all(alloc, components.as_slice(), out)?;
            push(out, b"]")
        }
        Term::Proj(i, _, e) => {
            push(out, b"#")?;
            push_decimal(alloc, out, u64::from(*i))?;
            push(out, b":")?;
            show(alloc, e.get(), out)
        }
    }
}

#[cycle(show)]
fn show_all(alloc: Global, terms: &[Term], out: &mut Text) -> Result<(), NoMemory> {
    for t in terms {
        show(alloc, t, out)?;
        push(out, b",")?;
    }
    Ok(())
}

fn is_shown(alloc: Global, t: &Term, wanted: &[u8]) -> Result<bool, NoMemory> {
    let mut shown = Text::new(alloc);
    show(alloc, t, &mut shown)?;
    Ok(shown.as_slice() == wanted)
}

#[test]
fn units_are_converted(rt: HostRuntime) -> Result<(), Fail> {
    let alloc = rt.alloc();
    let none = PairTree {
        entries: List::new(alloc),
    };
    let t = redex_form(alloc, &unit(), &unit(), &none)?;
    assert!(rt; is_shown(alloc, &t, b"\\[]")?);
    Ok(())
}

#[test]
fn arguments_of_unit_are_given_and_taken(rt: HostRuntime) -> Result<(), Fail> {
    let alloc = rt.alloc();
    let int = named(0);
    let delayed = arrow(alloc, unit(), named(0))?;
    let p = flat(alloc, &[0])?;
    assert!(rt; is_shown(alloc, &converter(alloc, &int, &int, &p)?, b"\\0")?);
    assert!(rt; is_shown(alloc, &converter(alloc, &delayed, &int, &p)?, b"\\(0 [])")?);
    assert!(rt; is_shown(alloc, &converter(alloc, &int, &delayed, &p)?, b"\\\\0")?);
    Ok(())
}

#[test]
fn components_change_places(rt: HostRuntime) -> Result<(), Fail> {
    let alloc = rt.alloc();
    let a = pair(alloc, named(0), named(4))?;
    let b = pair(alloc, named(4), named(0))?;
    let p = flat(alloc, &[1, 0])?;
    assert!(rt; is_shown(alloc, &converter(alloc, &a, &b, &p)?, b"\\[#2:0,#1:0,]")?);
    Ok(())
}

#[test]
fn arguments_change_places(rt: HostRuntime) -> Result<(), Fail> {
    let alloc = rt.alloc();
    let curried = arrow(alloc, named(4), named(7))?;
    let a = arrow(alloc, named(0), curried)?;
    let from = pair(alloc, named(4), named(0))?;
    let b = arrow(alloc, from, named(7))?;
    let p = nested(alloc, &[0], &[1, 0])?;
    let t = converter(alloc, &a, &b, &p)?;
    assert!(rt; is_shown(alloc, &t, b"\\\\((\\\\((\\\\((0 4) 5) 3) 2) #1:1) #2:1)")?);
    Ok(())
}

/// The plain converter of a type is full of redexes, also where the identity would do.
#[test]
fn plain_converters_are_not_short(rt: HostRuntime) -> Result<(), Fail> {
    let alloc = rt.alloc();
    let from = pair(alloc, named(0), named(0))?;
    let to = pair(alloc, named(0), named(0))?;
    let a = arrow(alloc, from, to)?;
    let p = nested(alloc, &[0, 1], &[0, 1])?;
    let t = converter(alloc, &a, &a, &p)?;
    let wanted =
        b"\\\\[((\\\\((\\\\#1:(0 [4,5,]) 2) 3) #1:1) #2:1),((\\\\((\\\\#2:(0 [4,5,]) 2) 3) #1:1) #2:1),]";
    assert!(rt; is_shown(alloc, &t, wanted)?);
    assert!(rt; !is_short_normal(&t));
    Ok(())
}
