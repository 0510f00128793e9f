// The linear factors of a type.
ghost use Rattle.std.specs.Prelude.{◌≡◌, ◌≢◌, [], ◌∷◌, ◌++◌, IfOk, OnOk, map};
ghost use Rattle.type_core.specs.Lists.{concatenated};
ghost use Rattle.iso_normal.specs.Factors.{arrow_to, factors, factors_of_arrow};
ghost use Rattle.iso_normal.specs.declared.factor.Factor.TheVariants as factor;
ghost use Rattle.iso_normal.specs.declared.factor.Factor.TheViews.{out-Factor};

use crate::appending::append;
use crate::factor::Factor;
use sig_base::{List, NoMemory};
use std::alloc::Global;
use type_core::{Ty, copy};

/// The factors of the type.
pub fn linear(alloc: Global, t: &Ty) -> Result<List<Factor>, NoMemory>
    ensures value { IfOk result (λ r. r ≡ factors t.now) }
{
    let mut done = List::new(alloc);
    add(alloc, t, &mut done)?;
    Ok(done)
}

/// Adds the factors of the type.
#[cycle(add)]
#[tactic(auto, using(crate::proofs::Readings::factors_at, std::proofs::lemmas::Grind::common_steps))]
fn add(alloc: Global, t: &Ty, done: &mut List<Factor>) -> Result<(), NoMemory>
    ensures added { OnOk result (done.new ≡ done.old ++ factors t.now) }
{
    match t {
        Ty::Var(_) => add_atom(alloc, t, done),
        Ty::Con(_, _) => add_atom(alloc, t, done),
        Ty::Rec(_) => add_atom(alloc, t, done),
        Ty::Tup(components) => add_all(alloc, components.as_slice(), done),
        Ty::Arrow(from, to) => {
            let mut arguments = List::new(alloc);
            add(alloc, from.get(), &mut arguments)?;
            let mut results = List::new(alloc);
            add(alloc, to.get(), &mut results)?;
            add_arrow(alloc, arguments, results, done)
        }
    }
}

#[cycle(add)]
fn add_all(alloc: Global, parts: &[Ty], done: &mut List<Factor>) -> Result<(), NoMemory>
    ensures added { OnOk result (done.new ≡ done.old ++ concatenated (map factors parts.now)) }
{
    for part in parts {
        add(alloc, part, done)?;
    }
    Ok(())
}

fn add_atom(alloc: Global, t: &Ty, done: &mut List<Factor>) -> Result<(), NoMemory>
    ensures added { OnOk result (done.new ≡ done.old ++ factor.Atom t.now ∷ []) }
{
    let atom = copy(alloc, t)?;
    done.push(Factor::Atom(atom))
}

/// Adds the factors of the arrow whose sides have these factors.
pub fn add_arrow(
    alloc: Global,
    arguments: List<Factor>,
    results: List<Factor>,
    done: &mut List<Factor>,
) -> Result<(), NoMemory>
    ensures added { OnOk result (done.new ≡ done.old ++ factors_of_arrow arguments results) }
{
    if arguments.is_empty() {
        return append(alloc, done, results);
    }
    let arrow = arrow_of(alloc, arguments, results)?;
    done.push(arrow)
}

/// The arrow from arguments, of which there is at least one, to these results.
fn arrow_of(
    alloc: Global,
    arguments: List<Factor>,
    results: List<Factor>,
) -> Result<Factor, NoMemory>
    requires some { arguments ≢ [] }
    ensures value { IfOk result (λ r. r ∷ [] ≡ factors_of_arrow arguments results) }
{
    if results.len() != 1 {
        return Ok(Factor::Arr(arguments, results));
    }
    let mut results = results;
    match results.pop() {
        Some(g) => arrow_to(alloc, arguments, g),
        None => Ok(Factor::Arr(arguments, results)),
    }
}

/// The arrow from the arguments to a factor: to an arrow, they stand before its own.
fn arrow_to(alloc: Global, arguments: List<Factor>, g: Factor) -> Result<Factor, NoMemory>
    ensures value { IfOk result (λ r. r ≡ arrow_to arguments (out-Factor g)) }
{
    match g {
        Factor::Atom(t) => {
            let mut results = List::new(alloc);
            results.push(Factor::Atom(t))?;
            Ok(Factor::Arr(arguments, results))
        }
        Factor::Arr(own, results) => {
            let mut arguments = arguments;
            append(alloc, &mut arguments, own)?;
            Ok(Factor::Arr(arguments, results))
        }
    }
}
