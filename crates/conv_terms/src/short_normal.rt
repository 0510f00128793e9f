// Whether a term is short normal.
ghost use Rattle.std.specs.Prelude.{◌≡◌, ℕ, ◌+◌, ◌<◌, ◌^◌, ◌↔◌, IsTrue, length};
ghost use Rattle.type_core.specs.Lists.{all_true};
ghost use Rattle.conv_terms.specs.declared.term.Term.TheVariants as term;
ghost use Rattle.conv_terms.specs.LongForm.{is_abstraction, is_tuple_of};
ghost use Rattle.conv_terms.specs.Contraction.{all_projections, IsExpandedBody, AreAllProjections};
ghost use Rattle.conv_terms.specs.ShortNormal.{IsShortNormal, AreShortNormal};
ghost use Rattle.conv_terms.specs.deciding.Depths.{IsDepth, is_absent, are_absent};

use crate::equality::same;
use crate::term::Term;

/// A tuple of fewer components never contracts.
const FEWEST: usize = 2;

/// The number of variables below one more binder; it stays where no variable has so high a level.
fn next(depth: u64) -> u64
    ensures value { (n : ℕ) → IsDepth n depth → IsDepth (n + 1) result }
{
    if depth < 4294967296 { depth + 1 } else { depth }
}

/// Whether the term is the variable of this level.
fn is_variable(t: &Term, level: u64) -> bool
    ensures value { (n : ℕ) → IsDepth n level → IsTrue result ↔ (t.now ≡ term.Var n) }
    ensures is_level { IsTrue result → level < 2 ^ 32 }
{
    match t {
        Term::Var(n) => u64::from(*n) == level,
        _ => false,
    }
}

/// Whether the variable of this level doesn't stand in the term.
#[cycle(absent)]
#[tactic(auto, using(crate::proofs::Lowering::absent_at, std::proofs::lemmas::Grind::common_steps))]
fn is_absent(t: &Term, level: u64) -> bool
    ensures value { result ≡ is_absent level t.now }
{
    match t {
        Term::Var(n) => u64::from(*n) != level,
        Term::Lam(_, body) => is_absent(body.get(), level),
        Term::App(function, argument) => {
            is_absent(function.get(), level) && is_absent(argument.get(), level)
        }
        Term::Tup(components) => are_absent(components.as_slice(), level),
        Term::Proj(_, _, e) => is_absent(e.get(), level),
    }
}

#[cycle(absent)]
fn are_absent(terms: &[Term], level: u64) -> bool
    ensures value { result ≡ are_absent level terms.now }
{
    for t in terms {
        if !is_absent(t, level) {
            return false;
        }
    }
    true
}

/// Whether the argument is the last variable, which doesn't stand in the function.
pub fn is_expanded(function: &Term, argument: &Term, n: u32) -> bool
    ensures value { IsTrue result ↔ IsExpandedBody n (term.App function.now argument.now) }
{
    let level = u64::from(n);
    is_variable(argument, level) && is_absent(function, level)
}

/// Whether the term is `f x` for the last variable x, which doesn't stand in f.
fn is_expanded_body(t: &Term, depth: u64) -> bool
    ensures value { (n : ℕ) → IsDepth n depth → IsTrue result ↔ IsExpandedBody n t.now }
{
    match t {
        Term::App(function, argument) => {
            is_variable(argument.get(), depth) && is_absent(function.get(), depth)
        }
        _ => false,
    }
}

fn is_projection(t: &Term, i: usize, n: usize, e: &Term) -> bool
    ensures value { IsTrue result ↔ (t.now ≡ term.Proj i n e.now) }
{
    match t {
        Term::Proj(j, m, u) => *j as usize == i && *m as usize == n && same(u.get(), e),
        _ => false,
    }
}

/// Whether the terms are the projections of all components from this one.
fn are_projections(terms: &[Term], e: &Term) -> bool
    ensures value { IsTrue result ↔ (terms.now ≡ all_projections e.now (length terms.now)) }
{
    for i in 0..terms.len() {
        if !is_projection(&terms[i], i + 1, terms.len(), e) {
            return false;
        }
    }
    true
}

/// Whether the terms are `#1 e` to `#n e`, n being at least 2.
pub fn are_all_projections(terms: &[Term]) -> bool
    ensures value { IsTrue result ↔ AreAllProjections terms.now }
{
    if terms.len() < FEWEST {
        return false;
    }
    match &terms[0] {
        Term::Proj(_, _, e) => are_projections(terms, e.get()),
        _ => false,
    }
}

fn is_abstraction(t: &Term) -> bool
    ensures value { result ≡ is_abstraction t.now }
{
    matches!(t, Term::Lam(_, _))
}

fn is_tuple_of(n: u32, t: &Term) -> bool
    ensures value { result ≡ is_tuple_of n t.now }
{
    match t {
        Term::Tup(components) => components.len() == n as usize,
        _ => false,
    }
}

#[cycle(short)]
fn is_short(t: &Term, depth: u64) -> bool
    ensures value { (n : ℕ) → IsDepth n depth → IsTrue result ↔ IsShortNormal n t.now }
{
    match t {
        Term::Var(_) => true,
        Term::Lam(_, body) => {
            let below = is_short(body.get(), next(depth));
            !is_expanded_body(body.get(), depth) && below
        }
        Term::App(function, argument) => {
            if is_abstraction(function.get()) {
                return false;
            }
            is_short(function.get(), depth) && is_short(argument.get(), depth)
        }
        Term::Tup(components) => {
            !are_all_projections(components.as_slice()) && are_short(components.as_slice(), depth)
        }
        Term::Proj(_, n, e) => !is_tuple_of(*n, e.get()) && is_short(e.get(), depth),
    }
}

#[cycle(short)]
fn are_short(terms: &[Term], depth: u64) -> bool
    ensures value { (n : ℕ) → IsDepth n depth → IsTrue result ↔ AreShortNormal n terms.now }
{
    for t in terms {
        if !is_short(t, depth) {
            return false;
        }
    }
    true
}

/// Whether the closed term is short normal: nothing in it is to be reduced, by beta or projection, and nothing to be
/// contracted, by eta or surjective pairing.
pub fn is_short_normal(t: &Term) -> bool
    ensures value { IsTrue result ↔ IsShortNormal 0 t.now }
{
    is_short(t, 0)
}
