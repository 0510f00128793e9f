// Terms by hand, and what is to come of them.
ghost use Rattle.std.specs.Prelude.{◌≡◌, ◌+◌, ◌<◌, ◌≤◌, ◌^◌, max, IfOk};
ghost use Rattle.conv_terms.specs.Levels.{levels, nesting};

use crate::{Term, is_short_normal, shift, subst};
use sig_base::{Boxed, List, NoMemory, Row, Text};
use std::alloc::Global;
use std::test::Fail;
use type_core::Ty;

#[tactic(auto, using(crate::proofs::Equations::levels_at, crate::proofs::Equations::nesting_at))]
fn variable(n: u32) -> Term
    ensures levels { levels result ≡ n + 1 }
    ensures nesting { nesting result ≡ 0 }
{
    Term::Var(n)
}

#[tactic(auto, using(crate::proofs::Equations::levels_at, crate::proofs::Equations::nesting_at))]
fn unit(alloc: Global) -> Term
    ensures levels { levels result ≡ 0 }
    ensures nesting { nesting result ≡ 0 }
{
    Term::Tup(List::new(alloc))
}

/// An abstraction whose variable has type `unit`.
#[tactic(auto, using(crate::proofs::Equations::levels_at, crate::proofs::Equations::nesting_at))]
fn abstraction(alloc: Global, body: Term) -> Result<Term, NoMemory>
    ensures levels { IfOk result (λ t. levels t ≡ levels body) }
    ensures nesting { IfOk result (λ t. nesting t ≡ nesting body + 1) }
{
    let a = Boxed::new(alloc, Ty::Tup(Row::empty()))?;
    let body = Boxed::new(alloc, body)?;
    Ok(Term::Lam(a, body))
}

#[tactic(auto, using(crate::proofs::Equations::levels_at, crate::proofs::Equations::nesting_at))]
fn application(alloc: Global, function: Term, argument: Term) -> Result<Term, NoMemory>
    ensures levels { IfOk result (λ t. levels t ≡ max (levels function) (levels argument)) }
    ensures nesting { IfOk result (λ t. nesting t ≡ max (nesting function) (nesting argument)) }
{
    let function = Boxed::new(alloc, function)?;
    let argument = Boxed::new(alloc, argument)?;
    Ok(Term::App(function, argument))
}

/// Writes the term: `0` a variable, `\t` an abstraction, `(t u)` an application, `<t u >` a tuple, `#1t` a projection.
#[cycle(write)]
fn write(text: &mut Text, t: &Term) -> Result<(), NoMemory> {
    match t {
        Term::Var(n) => text.push(b'0' + (*n % 10) as u8),
        Term::Lam(_, body) => {
            text.push(b'\\')?;
            write(text, body.get())
        }
        Term::App(function, argument) => {
            text.push(b'(')?;
            write(text, function.get())?;
            text.push(b' ')?;
            write(text, argument.get())?;
            text.push(b')')
        }
        Term::Tup(components) => {
            text.push(b'<')?;
            write_all(text, components.as_slice())?;
            text.push(b'>')
        }
        Term::Proj(i, _, e) => {
            text.push(b'#')?;
            text.push(b'0' + (*i % 10) as u8)?;
            write(text, e.get())
        }
    }
}

#[cycle(write)]
fn write_all(text: &mut Text, components: &[Term]) -> Result<(), NoMemory> {
    for component in components {
        write(text, component)?;
        text.push(b' ')?;
    }
    Ok(())
}

fn is_written(alloc: Global, t: &Term, wanted: &[u8]) -> Result<bool, NoMemory> {
    let mut text = Text::new(alloc);
    write(&mut text, t)?;
    Ok(text.as_slice() == wanted)
}

/// Whether this is the shifted term.
#[tactic(auto, using(crate::proofs::Bounds::shifted_levels))]
fn shifts(alloc: Global, t: Term, from: u32, by: u32, wanted: &[u8]) -> Result<bool, NoMemory>
    requires fits { levels t + by ≤ 2 ^ 32 }
{
    let shifted = shift(alloc, &t, from, by)?;
    is_written(alloc, &shifted, wanted)
}

/// Whether this is the term with `by` for the variable.
#[tactic(auto, using(crate::proofs::Bounds::substituted_levels))]
fn substitutes(
    alloc: Global,
    t: Term,
    level: u32,
    by: Term,
    wanted: &[u8],
) -> Result<bool, NoMemory>
    requires own { levels t ≤ 2 ^ 32 }
    requires inserted { levels by + nesting t ≤ 2 ^ 32 }
    requires nests { nesting t < 2 ^ 32 }
{
    let substituted = subst(alloc, &t, level, &by)?;
    is_written(alloc, &substituted, wanted)
}

#[test]
fn variables_are_shifted(rt: HostRuntime) -> Result<(), Fail> {
    let alloc = rt.alloc();
    assert!(rt; shifts(alloc, variable(0), 0, 1, b"1")?);
    assert!(rt; shifts(alloc, variable(0), 1, 1, b"0")?);
    assert!(rt; shifts(alloc, variable(4), 2, 3, b"7")?);
    assert!(rt; shifts(alloc, unit(alloc), 0, 9, b"<>")?);
    Ok(())
}

#[test]
fn binders_are_shifted(rt: HostRuntime) -> Result<(), Fail> {
    let alloc = rt.alloc();
    let t = abstraction(alloc, variable(1))?;
    assert!(rt; shifts(alloc, t, 1, 2, b"\\3")?);
    let body = application(alloc, variable(0), variable(1))?;
    let t = abstraction(alloc, body)?;
    assert!(rt; shifts(alloc, t, 1, 1, b"\\(0 2)")?);
    Ok(())
}

#[test]
fn variables_are_substituted(rt: HostRuntime) -> Result<(), Fail> {
    let alloc = rt.alloc();
    assert!(rt; substitutes(alloc, variable(0), 0, unit(alloc), b"<>")?);
    assert!(rt; substitutes(alloc, variable(0), 1, unit(alloc), b"0")?);
    assert!(rt; substitutes(alloc, variable(1), 0, unit(alloc), b"0")?);
    Ok(())
}

#[test]
fn terms_are_substituted_below_a_binder(rt: HostRuntime) -> Result<(), Fail> {
    let alloc = rt.alloc();
    let body = application(alloc, variable(0), variable(1))?;
    let t = abstraction(alloc, body)?;
    let by = abstraction(alloc, variable(0))?;
    assert!(rt; substitutes(alloc, t, 0, by, b"\\(\\1 0)")?);
    Ok(())
}

#[test]
fn terms_are_substituted_below_two_binders(rt: HostRuntime) -> Result<(), Fail> {
    let alloc = rt.alloc();
    let body = application(alloc, variable(1), variable(3))?;
    let inner = abstraction(alloc, body)?;
    let t = abstraction(alloc, inner)?;
    let own = abstraction(alloc, variable(1))?;
    let by = application(alloc, variable(0), own)?;
    assert!(rt; substitutes(alloc, t, 1, by, b"\\\\((0 \\3) 2)")?);
    Ok(())
}

/// Component `i` of `n` of the term.
fn projection(alloc: Global, i: u32, n: u32, e: Term) -> Result<Term, NoMemory> {
    let e = Boxed::new(alloc, e)?;
    Ok(Term::Proj(i, n, e))
}

fn pair(alloc: Global, first: Term, second: Term) -> Result<Term, NoMemory> {
    let mut components = List::new(alloc);
    components.push(first)?;
    components.push(second)?;
    Ok(Term::Tup(components))
}

/// The pair of components `i` and `j` of `n` of the variable.
fn components(alloc: Global, i: u32, j: u32, n: u32) -> Result<Term, NoMemory> {
    let first = projection(alloc, i, n, variable(0))?;
    let second = projection(alloc, j, n, variable(0))?;
    let both = pair(alloc, first, second)?;
    abstraction(alloc, both)
}

#[test]
fn short_terms_have_no_beta_redex(rt: HostRuntime) -> Result<(), Fail> {
    let alloc = rt.alloc();
    let identity = abstraction(alloc, variable(0))?;
    assert!(rt; is_short_normal(&identity));
    let redex = application(alloc, identity, unit(alloc))?;
    assert!(rt; !is_short_normal(&redex));
    let below = abstraction(alloc, redex)?;
    assert!(rt; !is_short_normal(&below));
    Ok(())
}

#[test]
fn short_terms_have_no_projection_from_a_tuple_of_that_length(rt: HostRuntime) -> Result<(), Fail> {
    let alloc = rt.alloc();
    let both = pair(alloc, unit(alloc), unit(alloc))?;
    assert!(rt; !is_short_normal(&projection(alloc, 1, 2, both)?));
    let both = pair(alloc, unit(alloc), unit(alloc))?;
    assert!(rt; is_short_normal(&projection(alloc, 1, 3, both)?));
    Ok(())
}

#[test]
fn short_terms_are_not_to_be_contracted_by_eta(rt: HostRuntime) -> Result<(), Fail> {
    let alloc = rt.alloc();
    // fn f => fn x => f x, fn f => fn x => f f, fn f => fn x => x x
    let cases = [(0, 1, false), (0, 0, true), (1, 1, true)];
    for (function, argument, short) in cases {
        let body = application(alloc, variable(function), variable(argument))?;
        let inner = abstraction(alloc, body)?;
        assert!(rt; is_short_normal(&abstraction(alloc, inner)?) == short);
    }
    Ok(())
}

#[test]
fn short_terms_are_not_to_be_contracted_by_surjective_pairing(rt: HostRuntime) -> Result<(), Fail> {
    let alloc = rt.alloc();
    assert!(rt; !is_short_normal(&components(alloc, 1, 2, 2)?));
    assert!(rt; is_short_normal(&components(alloc, 2, 1, 2)?));
    assert!(rt; is_short_normal(&components(alloc, 1, 2, 3)?));
    assert!(rt; is_short_normal(&unit(alloc)));
    Ok(())
}
