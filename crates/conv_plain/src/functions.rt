// Functions of many arguments.
ghost use Rattle.std.specs.Prelude.{◌≡◌, ◌+◌, map, take, drop, length, IfOk, OnOk, ◌++◌};
ghost use Rattle.type_core.specs.declared.ty.Ty.{Ty};
ghost use Rattle.conv_terms.specs.declared.term.Term.TheVariants as term;
ghost use Rattle.conv_terms.specs.Shifting.{shifted};
ghost use Rattle.conv_plain.specs.Functions.{arrows, abstractions, applied, first_of, variables};
ghost use Rattle.conv_plain.specs.SplitJoin.{applied_each};

use crate::room::{below, same_term};
use conv_terms::Term;
use sig_base::{Boxed, List, NoMemory, Shared};
use std::alloc::Global;
use type_core::{Ty, copy};

/// How many there are, as a number of variables.
pub fn count_of(length: usize) -> Result<u32, NoMemory>
    ensures value { IfOk result (λ count. count ≡ length) }
{
    u32::try_from(length).map_err(|_| NoMemory)
}

/// The number of variables of a context that has so many more.
pub fn deeper(n: u32, by: u32) -> Result<u32, NoMemory>
    ensures value { IfOk result (λ sum. sum ≡ n + by) }
{
    match n.checked_add(by) {
        Some(sum) => Ok(sum),
        None => Err(NoMemory),
    }
}

/// `T1 -> .. -> Tm -> b`, for these types T1 to Tm.
#[tactic(auto, using(crate::proofs::Pushing::arrows_push, std::proofs::lemmas::Grind::common_steps))]
pub fn arrows(alloc: Global, types: &[Ty], b: Ty) -> Result<Ty, NoMemory>
    ensures value { IfOk result (λ r. r ≡ arrows types.now b) }
{
    let mut all = b;
    let mut i = types.len();
    'down: while i > 0 {
        i -= 1;
        let from = copy(alloc, &types[i])?;
        let from = Shared::new(alloc, from)?;
        let to = Shared::new(alloc, all)?;
        all = Ty::Arrow(from, to);
    }
    Ok(all)
}

pub fn abstraction(alloc: Global, a: &Ty, body: Term) -> Result<Term, NoMemory>
    ensures value { IfOk result (λ r. r ≡ term.Lam a.now body) }
{
    let a = copy(alloc, a)?;
    let a = Boxed::new(alloc, a)?;
    let body = Boxed::new(alloc, body)?;
    Ok(Term::Lam(a, body))
}

/// `fn (y1 : T1) => .. fn (ym : Tm) => body`, for these types T1 to Tm.
#[tactic(auto, using(crate::proofs::Pushing::abstractions_push, std::proofs::lemmas::Grind::common_steps))]
pub fn abstractions(alloc: Global, types: &[Ty], body: Term) -> Result<Term, NoMemory>
    ensures value { IfOk result (λ r. r ≡ abstractions types.now body) }
{
    let mut all = body;
    let mut i = types.len();
    'down: while i > 0 {
        i -= 1;
        all = abstraction(alloc, &types[i], all)?;
    }
    Ok(all)
}

pub fn abstractions_each(
    alloc: Global,
    types: &[Ty],
    bodies: &[Term],
) -> Result<List<Term>, NoMemory>
    ensures value { IfOk result (λ r. r ≡ map (abstractions types.now) bodies.now) }
{
    let mut done = List::new(alloc);
    for body in bodies {
        let body = same_term(alloc, body)?;
        done.push(abstractions(alloc, types, body)?)?;
    }
    Ok(done)
}

pub fn application(alloc: Global, f: Term, argument: Term) -> Result<Term, NoMemory>
    ensures value { IfOk result (λ r. r ≡ term.App f argument) }
{
    let f = Boxed::new(alloc, f)?;
    let argument = Boxed::new(alloc, argument)?;
    Ok(Term::App(f, argument))
}

/// The function applied to the terms.
pub fn applied(alloc: Global, f: Term, arguments: &[Term]) -> Result<Term, NoMemory>
    ensures value { IfOk result (λ r. r ≡ applied f arguments.now) }
{
    let mut all = f;
    for argument in arguments {
        let argument = same_term(alloc, argument)?;
        all = application(alloc, all, argument)?;
    }
    Ok(all)
}

/// Each of the terms, below one binder more, applied to the arguments.
pub fn applied_each(
    alloc: Global,
    n: u32,
    arguments: &[Term],
    terms: &[Term],
) -> Result<List<Term>, NoMemory>
    ensures value { IfOk result (λ r. r ≡ applied_each n arguments.now terms.now) }
{
    let mut done = List::new(alloc);
    for e in terms {
        let e = below(alloc, e, n, 1)?;
        done.push(applied(alloc, e, arguments)?)?;
    }
    Ok(done)
}

/// So many variables, beginning with the n-th.
#[tactic(auto, using(crate::proofs::Pushing::variables_more, std::proofs::lemmas::Grind::common_steps))]
pub fn variables(alloc: Global, n: u32, count: u32) -> Result<List<Term>, NoMemory>
    ensures value { IfOk result (λ r. r ≡ variables n count) }
{
    let mut done = List::new(alloc);
    let mut next = n;
    let mut left = count;
    'more: while left > 0 {
        done.push(Term::Var(next))?;
        next = deeper(next, 1)?;
        left -= 1;
    }
    Ok(done)
}

pub fn projection(alloc: Global, i: u32, count: u32, e: &Term) -> Result<Term, NoMemory>
    ensures value { IfOk result (λ r. r ≡ term.Proj i count e.now) }
{
    let e = same_term(alloc, e)?;
    let e = Boxed::new(alloc, e)?;
    Ok(Term::Proj(i, count, e))
}

/// Adds copies of the terms at the end.
pub fn append(alloc: Global, done: &mut List<Term>, terms: &[Term]) -> Result<(), NoMemory>
    ensures added { OnOk result (done.new ≡ done.old ++ terms.now) }
{
    for t in terms {
        done.push(same_term(alloc, t)?)?;
    }
    Ok(())
}

/// A copy of the first of the terms, `()` where there is none.
pub fn first_of(alloc: Global, terms: &[Term]) -> Result<Term, NoMemory>
    ensures value { IfOk result (λ r. r ≡ first_of terms.now) }
{
    match terms {
        [] => Ok(Term::Tup(List::new(alloc))),
        [t, ..] => same_term(alloc, t),
    }
}
