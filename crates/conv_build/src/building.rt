// Terms around the terms of atoms.
ghost use Rattle.std.specs.Prelude.{◌≡◌, [], ◌∷◌, List, IfOk, OnOk, drop, length};
ghost use Rattle.conv_plain.specs.Functions.{first_of};
ghost use Rattle.type_core.specs.Coordinates.{coordinates};
ghost use Rattle.conv_terms.specs.declared.term.Term.TheVariants as term;
ghost use Rattle.conv_build.specs.declared.step.Step.{Step};
ghost use Rattle.conv_build.specs.direct.TwoPasses.{built, built_all, rest_all};
ghost use Rattle.conv_build.specs.direct.AlongSteps.{reached_along};

use crate::step::Step;
use conv_terms::Term;
use sig_base::{Boxed, List, NoMemory};
use std::alloc::Global;
use std::collections::VecDeque;
use type_core::{Ty, copy};

pub fn abstraction(alloc: Global, a: &Ty, body: Term) -> Result<Term, NoMemory>
    ensures value { IfOk result (λ r. r ≡ term.Lam a.now body) }
{
    let a = copy(alloc, a)?;
    let a = Boxed::new(alloc, a)?;
    let body = Boxed::new(alloc, body)?;
    Ok(Term::Lam(a, body))
}

fn application(alloc: Global, function: Term, argument: Term) -> Result<Term, NoMemory>
    ensures value { IfOk result (λ r. r ≡ term.App function argument) }
{
    let function = Boxed::new(alloc, function)?;
    let argument = Boxed::new(alloc, argument)?;
    Ok(Term::App(function, argument))
}

fn projection(alloc: Global, i: u32, count: u32, e: Term) -> Result<Term, NoMemory>
    ensures value { IfOk result (λ r. r ≡ term.Proj i count e) }
{
    let e = Boxed::new(alloc, e)?;
    Ok(Term::Proj(i, count, e))
}

/// Takes the first of the terms, `()` where there is none.
fn first_taken(alloc: Global, terms: &mut VecDeque<Term>) -> Term
    ensures value { result ≡ first_of terms.old.items }
    ensures left { terms.new.items ≡ drop 1 terms.old.items }
{
    match terms.pop_front() {
        Some(t) => t,
        None => Term::Tup(List::new(alloc)),
    }
}

/// The term of the type around the first of these terms, which stand where its atoms do. They are taken.
#[cycle(build)]
#[tactic(auto, using(crate::proofs::PassEquations::built_at, std::proofs::lemmas::Grind::common_steps))]
pub fn built(alloc: Global, t: &Ty, terms: &mut VecDeque<Term>) -> Result<Term, NoMemory>
    ensures value { IfOk result (λ r. r ≡ built t.now terms.old.items) }
    ensures left { OnOk result (terms.new.items ≡ drop (length (coordinates t.now)) terms.old.items) }
{
    match t {
        Ty::Var(_) => Ok(first_taken(alloc, terms)),
        Ty::Con(_, _) => Ok(first_taken(alloc, terms)),
        Ty::Rec(_) => Ok(first_taken(alloc, terms)),
        Ty::Tup(components) => {
            let components = built_all(alloc, components.as_slice(), terms)?;
            Ok(Term::Tup(components))
        }
        Ty::Arrow(from, to) => {
            let body = built(alloc, to.get(), terms)?;
            abstraction(alloc, from.get(), body)
        }
    }
}

#[cycle(build)]
#[tactic(auto, using(crate::proofs::PassEquations::built_at, std::proofs::lemmas::Grind::common_steps))]
fn built_all(
    alloc: Global,
    parts: &[Ty],
    terms: &mut VecDeque<Term>,
) -> Result<List<Term>, NoMemory>
    ensures value { IfOk result (λ r. r ≡ built_all parts.now terms.old.items) }
    ensures left { OnOk result (terms.new.items ≡ rest_all parts.now terms.old.items) }
{
    let mut done = List::new(alloc);
    for part in parts {
        done.push(built(alloc, part, terms)?)?;
    }
    Ok(done)
}

/// What these steps make of `e`, at arguments around these terms of their atoms. The terms are taken.
pub fn reached(
    alloc: Global,
    steps: &[Step],
    e: Term,
    terms: &mut VecDeque<Term>,
) -> Result<Term, NoMemory>
    ensures value { IfOk result (λ r. r ≡ reached_along steps.now e terms.old.items) }
{
    let mut here = e;
    for step in steps {
        here = stepped(alloc, step, here, terms)?;
    }
    Ok(here)
}

fn stepped(
    alloc: Global,
    step: &Step,
    e: Term,
    terms: &mut VecDeque<Term>,
) -> Result<Term, NoMemory>
    ensures value { IfOk result (λ r. (others : List Step) → reached_along others r terms.new.items ≡ reached_along (step.now ∷ others) e terms.old.items) }
{
    match step {
        Step::Component(number, count) => projection(alloc, *number, *count, e),
        Step::Argument(from) => {
            let argument = built(alloc, from, terms)?;
            application(alloc, e, argument)
        }
    }
}
