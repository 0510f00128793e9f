// Moving along a pairing.
ghost use Rattle.std.specs.Prelude.{◌≡◌, ◌+◌, map, length, get_or, IfOk};
ghost use Rattle.type_core.specs.Coordinates.{arguments_of};
ghost use Rattle.conv_terms.specs.Shifting.{shifted};
ghost use Rattle.conv_plain.specs.Functions.{abstractions, applied};
ghost use Rattle.conv_plain.specs.Moving.{brought_each, moved, moved_back, no_coordinate, no_term, sent, with_moves};

use crate::functions::{abstractions, applied, count_of, deeper, variables};
use crate::room::{below, same_term};
use crate::types::types_of;
use conv_terms::Term;
use iso_normal::{Entry, PairTree};
use sig_base::{List, NoMemory};
use std::alloc::Global;
use type_core::{Coordinate, Ty};

/// `fn (z1 : T1) => .. fn (zm : Tm) => e w1 .. wm`, for these types T1 to Tm and terms w1 to wm.
fn carried(
    alloc: Global,
    types: &[Ty],
    n: u32,
    e: &Term,
    arguments: &[Term],
) -> Result<Term, NoMemory>
    ensures value { IfOk result (λ r. r ≡ abstractions types.now (applied (shifted n (length types.now) e.now) arguments.now)) }
{
    let count = count_of(types.len())?;
    let function = below(alloc, e, n, count)?;
    let body = applied(alloc, function, arguments)?;
    abstractions(alloc, types, body)
}

fn nothing(alloc: Global) -> Term
    ensures value { result ≡ no_term }
{
    Term::Tup(List::new(alloc))
}

fn arguments_at(all: &[Coordinate], k: usize) -> &[Coordinate]
    ensures value { result.now ≡ arguments_of (get_or all.now k no_coordinate) }
{
    match all.get(k) {
        Some(one) => one.arguments.as_slice(),
        None => &[],
    }
}

fn term_at(alloc: Global, terms: &[Term], k: usize) -> Result<Term, NoMemory>
    ensures value { IfOk result (λ r. r ≡ get_or terms.now k no_term) }
{
    match terms.get(k) {
        Some(t) => same_term(alloc, t),
        None => Ok(nothing(alloc)),
    }
}

/// Terms for the coordinates `from`, moved along the pairing of `from` with `to`: terms for `to`.
#[cycle(moving)]
pub fn moved(
    alloc: Global,
    p: &PairTree,
    from: &[Coordinate],
    to: &[Coordinate],
    n: u32,
    terms: &[Term],
) -> Result<List<Term>, NoMemory>
    ensures value { IfOk result (λ r. r ≡ moved p.now from.now to.now n terms.now) }
{
    let mut done = List::new(alloc);
    let mut k = 0;
    for one in to {
        done.push(sent(alloc, p.entries.as_slice(), k, one, from, n, terms)?)?;
        k += 1;
    }
    Ok(done)
}

/// The term for the coordinate at place `k`.
#[cycle(moving)]
fn sent(
    alloc: Global,
    entries: &[Entry],
    k: usize,
    at: &Coordinate,
    from: &[Coordinate],
    n: u32,
    terms: &[Term],
) -> Result<Term, NoMemory>
    ensures value { IfOk result (λ r. r ≡ sent k at.now (map with_moves entries.now) from.now n terms.now) }
{
    for i in 0..entries.len() {
        if i >= from.len() {
            return Ok(nothing(alloc));
        }
        if i >= terms.len() {
            return Ok(nothing(alloc));
        }
        if entries[i].place as usize == k {
            let types = types_of(alloc, at.arguments.as_slice())?;
            let count = count_of(types.len())?;
            let inside = deeper(n, count)?;
            let own = variables(alloc, n, count)?;
            let arguments = moved_back(
                alloc,
                &entries[i].args,
                from[i].arguments.as_slice(),
                at.arguments.as_slice(),
                inside,
                own.as_slice(),
            )?;
            return carried(alloc, types.as_slice(), n, &terms[i], arguments.as_slice());
        }
    }
    Ok(nothing(alloc))
}

/// Terms for the coordinates `to`, moved back along the pairing of `from` with `to`: terms for `from`.
#[cycle(moving)]
#[tactic(auto, using(crate::proofs::Moves::moved_back_is, std::proofs::lemmas::Grind::common_steps))]
pub fn moved_back(
    alloc: Global,
    p: &PairTree,
    from: &[Coordinate],
    to: &[Coordinate],
    n: u32,
    terms: &[Term],
) -> Result<List<Term>, NoMemory>
    ensures value { IfOk result (λ r. r ≡ moved_back p.now from.now to.now n terms.now) }
{
    brought_each(alloc, p.entries.as_slice(), from, to, n, terms)
}

#[cycle(moving)]
fn brought_each(
    alloc: Global,
    entries: &[Entry],
    from: &[Coordinate],
    to: &[Coordinate],
    n: u32,
    terms: &[Term],
) -> Result<List<Term>, NoMemory>
    ensures value { IfOk result (λ r. r ≡ brought_each (map with_moves entries.now) from.now to.now n terms.now) }
{
    let mut done = List::new(alloc);
    for i in 0..entries.len() {
        if i >= from.len() {
            return Ok(done);
        }
        let place = entries[i].place as usize;
        let types = types_of(alloc, from[i].arguments.as_slice())?;
        let count = count_of(types.len())?;
        let inside = deeper(n, count)?;
        let own = variables(alloc, n, count)?;
        let arguments = moved(
            alloc,
            &entries[i].args,
            from[i].arguments.as_slice(),
            arguments_at(to, place),
            inside,
            own.as_slice(),
        )?;
        let e = term_at(alloc, terms, place)?;
        done.push(carried(alloc, types.as_slice(), n, &e, arguments.as_slice())?)?;
    }
    Ok(done)
}
