// The least consistent pairing, and the least of those with identical heads.
ghost use Rattle.std.specs.Prelude.{◌≡◌, ℕ, ◌<◌, ◌^◌, None, IfOk, IfSome};
ghost use Rattle.type_core.specs.Renaming.{Renaming};
ghost use Rattle.iso_normal.specs.declared.pair_tree.PairTree.{PairTree};
ghost use Rattle.iso_normal.specs.Shapes.{nodes_of};
ghost use Rattle.iso_normal.specs.Consistency.{IsConsistent, variables_among};
ghost use Rattle.iso_normal.specs.PairTrees.{word_of};
ghost use Rattle.iso_normal.specs.Pairings as pairings;
ghost use Rattle.coord_match.specs.LeastPairing.{IsLeastIdentical};
ghost use Rattle.coord_match.specs.Names.{HaveOneMark, IsFirst};
ghost use Rattle.coord_match.specs.search.Bindings.{AreMatching};
ghost use Rattle.coord_match.specs.search.Tasks.{HasNone, IsBest, Pairing};

use crate::bindings::Bound;
use crate::fingerprints::fingerprint_sum;
use crate::names::{gather_coordinates, names, themselves};
use crate::search::{Task, none_taken, search};
use sig_base::{List, NoMemory};
use std::alloc::Global;
use type_core::{Coordinate, VarId};

/// The least consistent pairing of two lists of coordinates.
#[derive(Drop)]
pub struct Pairs {
    /// For each coordinate in order its partner's place, and then the word of its arguments.
    pub word: List<u32>,
    /// For each variable number up to the greatest in the first list its partner in the second, or `None` where no
    /// variable of this number occurs.
    pub names: List<Option<VarId>>,
}

/// The least consistent pairing of `a` with `b`; `None` exactly where there is none.
pub fn first(
    alloc: Global,
    a: &List<Coordinate>,
    b: &List<Coordinate>,
) -> Result<Option<Pairs>, NoMemory>
    requires one_mark { HaveOneMark (variables_among a.now) }
    requires few { nodes_of b.now < 2 ^ 32 }
    ensures found { IfOk result (λ answer. IfSome answer (λ pairs. IsFirst a.now b.now pairs.word pairs.names)) }
    ensures none { IfOk result (λ answer. answer ≡ None → (r : Renaming) (p : PairTree)
        → ¬ (IsConsistent r a.now b.now p)) }
{
    let mut bound = List::new(alloc);
    let Some(word) = first_allowed(alloc, a.as_slice(), b.as_slice(), &mut bound)? else {
        return Ok(None);
    };
    let mut variables = List::new(alloc);
    gather_coordinates(&mut variables, a.as_slice())?;
    let names = names(alloc, variables.as_slice(), bound.as_slice())?;
    Ok(Some(Pairs { word, names }))
}

/// The word of the least pairing of `a` with `b` whose partners have identical heads at every depth; `None` exactly
/// where there is none.
pub fn first_identical(
    alloc: Global,
    a: &List<Coordinate>,
    b: &List<Coordinate>,
) -> Result<Option<List<u32>>, NoMemory>
    requires few { nodes_of b.now < 2 ^ 32 }
    ensures found { IfOk result (λ answer. IfSome answer (λ word. (p : PairTree) × IsLeastIdentical a.now b.now p
        × (word ≡ word_of p))) }
    ensures none { IfOk result (λ answer. answer ≡ None → (p : PairTree) → ¬ (pairings.Pairs ◌≡◌ a.now b.now p)) }
{
    let mut variables = List::new(alloc);
    gather_coordinates(&mut variables, a.as_slice())?;
    let mut bound = themselves(alloc, variables.as_slice())?;
    first_allowed(alloc, a.as_slice(), b.as_slice(), &mut bound)
}

/// The word of the least pairing under a renaming that the bindings allow; the bindings are then those that it takes.
fn first_allowed(
    alloc: Global,
    left: &[Coordinate],
    right: &[Coordinate],
    bound: &mut List<Bound>,
) -> Result<Option<List<u32>>, NoMemory>
    requires matching { AreMatching bound.old }
    requires few { nodes_of right.now < 2 ^ 32 }
    ensures found { IfOk result (λ answer. IfSome answer (λ word. IsBest bound.old bound.new
        (Pairing left.now right.now) word)) }
    ensures none { IfOk result (λ answer. answer ≡ None → HasNone bound.old (Pairing left.now right.now)) }
{
    if left.len() != right.len() {
        return Ok(None);
    }
    if fingerprint_sum(left) != fingerprint_sum(right) {
        return Ok(None);
    }
    let mut tasks = List::new(alloc);
    tasks.push(Task {
        first: left,
        at: 0,
        second: right,
        taken: none_taken(alloc, right.len())?,
    })?;
    let mut word = List::new(alloc);
    if !search(alloc, &mut tasks, bound, &mut word)? {
        return Ok(None);
    }
    Ok(Some(word))
}
