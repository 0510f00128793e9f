// Terms for coordinates, along a pairing.
ghost use Rattle.std.specs.Prelude.{◌≡◌, IfOk, get_or};
ghost use Rattle.iso_normal.specs.PairTrees.{IsPermuted, inverse};
ghost use Rattle.conv_build.specs.direct.References.{no_reference};
ghost use Rattle.conv_build.specs.direct.HoleMoves.{hole_moves};
ghost use Rattle.conv_build.specs.direct.TwoPasses.{filled, reached, way};
ghost use Rattle.conv_terms.specs.declared.term.Term.TheVariants as term;

use crate::building::reached;
use crate::leaves::{Leaf, push_way};
use crate::reference::Reference;
use conv_terms::Term;
use iso_normal::PairTree;
use sig_base::{List, NoMemory};
use std::alloc::Global;
use std::collections::VecDeque;

/// The terms at these leaves for what the references are moved to along the pairing `p`, whose inverse is `q`.
#[cycle(emit)]
pub fn sent(
    alloc: Global,
    p: &PairTree,
    q: &PairTree,
    references: &[Reference],
    leaves: &[Leaf],
) -> Result<VecDeque<Term>, NoMemory>
    requires permuted { IsPermuted p.now }
    requires inverse { q.now ≡ inverse p.now }
    ensures value { IfOk result (λ r. r.items ≡ filled ((hole_moves p.now).forth references.now) leaves.now) }
{
    let mut done = VecDeque::new(alloc);
    let entries = p.entries.as_slice();
    let inverses = q.entries.as_slice();
    for k in 0..inverses.len() {
        if k >= leaves.len() {
            return Ok(done);
        }
        let number = inverses[k].place as usize;
        let reference = reference_at(alloc, references, number)?;
        let inner = way_of(alloc, &reference, &leaves[k])?;
        let arguments = brought(
            alloc,
            &entries[number].args,
            &inverses[k].args,
            leaves[k].arguments(),
            inner.as_slice(),
        )?;
        done.push_back(referred(alloc, &reference, arguments)?)?;
    }
    Ok(done)
}

/// The terms at these leaves for what the references are moved back to along the pairing `p`, whose inverse is `q`.
#[cycle(emit)]
fn brought(
    alloc: Global,
    p: &PairTree,
    q: &PairTree,
    references: &[Reference],
    leaves: &[Leaf],
) -> Result<VecDeque<Term>, NoMemory>
    requires permuted { IsPermuted p.now }
    requires inverse { q.now ≡ inverse p.now }
    ensures value { IfOk result (λ r. r.items ≡ filled ((hole_moves p.now).back references.now) leaves.now) }
{
    let mut done = VecDeque::new(alloc);
    let entries = p.entries.as_slice();
    let inverses = q.entries.as_slice();
    for k in 0..entries.len() {
        if k >= leaves.len() {
            return Ok(done);
        }
        let number = entries[k].place as usize;
        let reference = reference_at(alloc, references, number)?;
        let inner = way_of(alloc, &reference, &leaves[k])?;
        let arguments = sent(
            alloc,
            &entries[k].args,
            &inverses[number].args,
            leaves[k].arguments(),
            inner.as_slice(),
        )?;
        done.push_back(referred(alloc, &reference, arguments)?)?;
    }
    Ok(done)
}

fn reference_at(
    alloc: Global,
    references: &[Reference],
    number: usize,
) -> Result<Reference, NoMemory>
    ensures value { IfOk result (λ r. r ≡ get_or references.now number no_reference) }
{
    match references.get(number) {
        Some(reference) => reference.copied(alloc),
        None => Ok(Reference::none()),
    }
}

/// Where atoms stand in the arguments on the way to a coordinate that is given at a leaf.
fn way_of(alloc: Global, reference: &Reference, leaf: &Leaf) -> Result<List<Leaf>, NoMemory>
    ensures value { IfOk result (λ r. r ≡ way reference.now.type reference.now.place leaf.now.depth) }
{
    let mut done = List::new(alloc);
    push_way(alloc, reference.steps(), leaf.depth(), &mut done)?;
    Ok(done)
}

/// The coordinate that is referred to, at arguments around these terms of their atoms.
fn referred(alloc: Global, reference: &Reference, terms: VecDeque<Term>) -> Result<Term, NoMemory>
    ensures value { IfOk result (λ r. r ≡ reached reference.now.type reference.now.place (term.Var reference.now.level) terms.items) }
{
    let mut left = terms;
    let variable = Term::Var(reference.level());
    reached(alloc, reference.steps(), variable, &mut left)
}
