// Contraction: eta and surjective pairing, from the leaves of a term to its root.
ghost use Rattle.std.specs.Prelude.{◌≡◌, ◌≢◌, ◌+◌, ◌≤◌, ℕ, true, map, IfOk, List};
ghost use Rattle.conv_terms.specs.declared.term.Term.{Term};
ghost use Rattle.conv_terms.specs.declared.term.Term.TheVariants as term;
ghost use Rattle.conv_terms.specs.Shifting.{raised, shifted};
ghost use Rattle.conv_terms.specs.Contraction.{all_projections, AreAllProjections, IsContraction, AreContractions};
ghost use Rattle.conv_terms.specs.deciding.Depths.{is_absent, are_absent};

use crate::short_normal::{are_all_projections, is_expanded};
use crate::term::Term;
use sig_base::{Boxed, List, NoMemory};
use std::alloc::Global;
use type_core::Ty;

/// What the closed term contracts to: `fn (x : a) => f x`, where x doesn't stand in f, becomes f, and
/// `(#1 e, .., #n e)`, n being at least 2, becomes e, once from the leaves to the root. The term is taken apart and
/// its parts are used again. Want of memory also where 2^32 binders stand within one another.
pub fn contract(alloc: Global, t: Term) -> Result<Term, NoMemory>
    ensures value { IfOk result (IsContraction 0 t) }
{
    contract_below(alloc, t, 0)
}

/// The number of variables below one more binder.
fn one_deeper(n: u32) -> Result<u32, NoMemory>
    ensures value { IfOk result (λ deeper. deeper ≡ n + 1) }
{
    n.checked_add(1).ok_or(NoMemory)
}

/// What the term contracts to, in a context of `n` variables.
#[cycle(contract)]
fn contract_below(alloc: Global, t: Term, n: u32) -> Result<Term, NoMemory>
    ensures value { IfOk result (IsContraction n t) }
{
    match t {
        Term::Var(i) => Ok(Term::Var(i)),
        Term::Lam(a, body) => {
            let body = contract_below(alloc, body.into_inner(), one_deeper(n)?)?;
            contract_abstraction(alloc, a, body, n)
        }
        Term::App(function, argument) => {
            let function = contract_below(alloc, function.into_inner(), n)?;
            let argument = contract_below(alloc, argument.into_inner(), n)?;
            let function = Boxed::new(alloc, function)?;
            let argument = Boxed::new(alloc, argument)?;
            Ok(Term::App(function, argument))
        }
        Term::Tup(components) => {
            let components = contract_all(alloc, components, n)?;
            Ok(tuple(components))
        }
        Term::Proj(i, count, e) => {
            let e = contract_below(alloc, e.into_inner(), n)?;
            let e = Boxed::new(alloc, e)?;
            Ok(Term::Proj(i, count, e))
        }
    }
}

#[cycle(contract)]
fn contract_all(alloc: Global, terms: List<Term>, n: u32) -> Result<List<Term>, NoMemory>
    ensures value { IfOk result (AreContractions n terms) }
{
    let mut done = List::new(alloc);
    for t in terms.into_vec() {
        done.push(contract_below(alloc, t, n)?)?;
    }
    Ok(done)
}

/// What an abstraction contracts to whose body contracts to this one.
fn contract_abstraction(alloc: Global, a: Boxed<Ty>, body: Term, n: u32) -> Result<Term, NoMemory>
    ensures value { (t : Term) → IsContraction (n + 1) t body → IfOk result (IsContraction n (term.Lam a t)) }
{
    match body {
        Term::App(function, argument) => {
            if is_expanded(function.get(), argument.get(), n) {
                return lower(alloc, function.into_inner(), n);
            }
            abstraction(alloc, a, Term::App(function, argument))
        }
        other => abstraction(alloc, a, other),
    }
}

fn abstraction(alloc: Global, a: Boxed<Ty>, body: Term) -> Result<Term, NoMemory>
    ensures value { IfOk result (λ r. r ≡ term.Lam a body) }
{
    let body = Boxed::new(alloc, body)?;
    Ok(Term::Lam(a, body))
}

/// What a tuple contracts to whose components contract to these.
fn tuple(components: List<Term>) -> Term
    ensures value { (n : ℕ) (ts : List Term) → AreContractions n ts components → IsContraction n (term.Tup ts) result }
{
    if are_all_projections(components.as_slice()) {
        return whole(components);
    }
    Term::Tup(components)
}

/// The term of which these are all projections.
fn whole(components: List<Term>) -> Term
    requires projections { AreAllProjections components }
    ensures value { (n : ℕ) × (2 ≤ n) × (components ≡ all_projections result n) }
{
    let mut left = components;
    match left.pop() {
        Some(last) => projected_from(last),
        None => Term::Tup(left),
    }
}

/// The term that is projected from; one that is no projection stays.
fn projected_from(t: Term) -> Term
    ensures value { (i count : ℕ) (e : Term) → t ≡ term.Proj i count e → result ≡ e }
{
    match t {
        Term::Proj(_i, _count, e) => e.into_inner(),
        other => other,
    }
}

fn lower_level(i: u32, level: u32) -> u32
    ensures value { i ≢ level → raised level 1 result ≡ i }
{
    if i > level { i - 1 } else { i }
}

/// The term in the context without the variable of this level, which doesn't stand in it.
#[cycle(lower)]
#[tactic(auto, using(crate::proofs::Equations::shifted_at, crate::proofs::Lowering::absent_at, std::proofs::lemmas::Grind::common_steps))]
fn lower(alloc: Global, t: Term, level: u32) -> Result<Term, NoMemory>
    requires absent { is_absent level t ≡ true }
    ensures value { IfOk result (λ r. shifted level 1 r ≡ t) }
{
    match t {
        Term::Var(i) => Ok(Term::Var(lower_level(i, level))),
        Term::Lam(a, body) => {
            let body = lower(alloc, body.into_inner(), level)?;
            let body = Boxed::new(alloc, body)?;
            Ok(Term::Lam(a, body))
        }
        Term::App(function, argument) => {
            let function = lower(alloc, function.into_inner(), level)?;
            let argument = lower(alloc, argument.into_inner(), level)?;
            let function = Boxed::new(alloc, function)?;
            let argument = Boxed::new(alloc, argument)?;
            Ok(Term::App(function, argument))
        }
        Term::Tup(components) => {
            let components = lower_all(alloc, components, level)?;
            Ok(Term::Tup(components))
        }
        Term::Proj(i, count, e) => {
            let e = lower(alloc, e.into_inner(), level)?;
            let e = Boxed::new(alloc, e)?;
            Ok(Term::Proj(i, count, e))
        }
    }
}

#[cycle(lower)]
fn lower_all(alloc: Global, terms: List<Term>, level: u32) -> Result<List<Term>, NoMemory>
    requires absent { are_absent level terms ≡ true }
    ensures value { IfOk result (λ r. map (shifted level 1) r ≡ terms) }
{
    let mut done = List::new(alloc);
    for t in terms.into_vec() {
        done.push(lower(alloc, t, level)?)?;
    }
    Ok(done)
}
