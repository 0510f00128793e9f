// Splitting and joining.
ghost use Rattle.std.specs.Prelude.{◌≡◌, ◌++◌, ◌∷◌, [], take, drop, length, IfOk};
ghost use Rattle.conv_terms.specs.declared.term.Term.TheVariants as term;
ghost use Rattle.conv_plain.specs.SplitJoin.{split, join, split_all, join_all};

use crate::functions::{
    abstraction, abstractions_each, append, application, applied_each, count_of, deeper, first_of,
    projection, variables,
};
use crate::room::{below, same_term};
use crate::types::coordinate_types;
use conv_terms::Term;
use sig_base::{List, NoMemory};
use std::alloc::Global;
use type_core::Ty;

/// The first `count` terms from the place `at` on.
fn piece(alloc: Global, terms: &[Term], at: usize, count: usize) -> Result<List<Term>, NoMemory>
    ensures value { IfOk result (λ r. r ≡ take count (drop at terms.now)) }
{
    let start = if at < terms.len() { at } else { terms.len() };
    let rest = &terms[start..];
    let stop = if count < rest.len() {
        count
    } else {
        rest.len()
    };
    let mut done = List::new(alloc);
    append(alloc, &mut done, &rest[..stop])?;
    Ok(done)
}

fn one(alloc: Global, e: &Term) -> Result<List<Term>, NoMemory>
    ensures value { IfOk result (λ r. r ≡ e.now ∷ []) }
{
    let mut done = List::new(alloc);
    done.push(same_term(alloc, e)?)?;
    Ok(done)
}

pub fn variable(n: u32) -> Term
    ensures value { result ≡ term.Var n }
{
    Term::Var(n)
}

/// The terms for the coordinates of `e`, a term of the type `t` in a context of `n` variables.
#[cycle(split_join)]
#[tactic(auto, using(crate::proofs::Equations::sides_at, std::proofs::lemmas::Grind::common_steps))]
pub fn split(alloc: Global, t: &Ty, n: u32, e: &Term) -> Result<List<Term>, NoMemory>
    ensures value { IfOk result (λ r. r ≡ split t.now n e.now) }
{
    match t {
        Ty::Var(_) => one(alloc, e),
        Ty::Con(_, _) => one(alloc, e),
        Ty::Rec(_) => one(alloc, e),
        Ty::Tup(components) => split_all(alloc, components.as_slice(), n, e),
        Ty::Arrow(from, to) => {
            let types = coordinate_types(alloc, from.get())?;
            let count = count_of(types.len())?;
            let inside = deeper(n, count)?;
            let arguments = variables(alloc, n, count)?;
            let argument = join(alloc, from.get(), inside, arguments.as_slice())?;
            let function = below(alloc, e, n, count)?;
            let result = application(alloc, function, argument)?;
            let bodies = split(alloc, to.get(), inside, &result)?;
            abstractions_each(alloc, types.as_slice(), bodies.as_slice())
        }
    }
}

#[cycle(split_join)]
fn split_all(alloc: Global, parts: &[Ty], n: u32, e: &Term) -> Result<List<Term>, NoMemory>
    ensures value { IfOk result (λ r. r ≡ split_all parts.now n 1 (length parts.now) e.now) }
{
    let count = count_of(parts.len())?;
    let mut done = List::new(alloc);
    let mut i = 1u32;
    for part in parts {
        let component = projection(alloc, i, count, e)?;
        let terms = split(alloc, part, n, &component)?;
        append(alloc, &mut done, terms.as_slice())?;
        i = deeper(i, 1)?;
    }
    Ok(done)
}

/// The term of the type `t` in a context of `n` variables that has these terms for its coordinates.
#[cycle(split_join)]
#[tactic(auto, using(crate::proofs::Equations::sides_at, std::proofs::lemmas::Grind::common_steps))]
pub fn join(alloc: Global, t: &Ty, n: u32, terms: &[Term]) -> Result<Term, NoMemory>
    ensures value { IfOk result (λ r. r ≡ join t.now n terms.now) }
{
    match t {
        Ty::Var(_) => first_of(alloc, terms),
        Ty::Con(_, _) => first_of(alloc, terms),
        Ty::Rec(_) => first_of(alloc, terms),
        Ty::Tup(components) => {
            let components = join_all(alloc, components.as_slice(), n, terms)?;
            Ok(Term::Tup(components))
        }
        Ty::Arrow(from, to) => {
            let inside = deeper(n, 1)?;
            let argument = variable(n);
            let arguments = split(alloc, from.get(), inside, &argument)?;
            let results = applied_each(alloc, n, arguments.as_slice(), terms)?;
            let body = join(alloc, to.get(), inside, results.as_slice())?;
            abstraction(alloc, from.get(), body)
        }
    }
}

#[cycle(split_join)]
fn join_all(alloc: Global, parts: &[Ty], n: u32, terms: &[Term]) -> Result<List<Term>, NoMemory>
    ensures value { IfOk result (λ r. r ≡ join_all parts.now n terms.now) }
{
    let mut done = List::new(alloc);
    let mut rest = piece(alloc, terms, 0, terms.len())?;
    for part in parts {
        let types = coordinate_types(alloc, part)?;
        let here = piece(alloc, rest.as_slice(), 0, types.len())?;
        let left = piece(alloc, rest.as_slice(), types.len(), rest.len())?;
        done.push(join(alloc, part, n, here.as_slice())?)?;
        rest = left;
    }
    Ok(done)
}
