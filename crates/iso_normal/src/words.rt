// Pairings read from their words.
ghost use Rattle.std.specs.Prelude.{◌≡◌, ◌≢◌, ◌↔◌, ◌+◌, ◌<◌, ◌≤◌, None, IfOk, IfNone, IfSome, OnOk, ◌++◌, length, take};
ghost use Rattle.iso_normal.specs.PairTrees.{pair_tree, word_of};
ghost use Rattle.iso_normal.specs.Shapes.{HasShape, HaveShapes, nodes_of};

use crate::pair_tree::{Entry, PairTree};
use sig_base::{List, NoMemory};
use std::alloc::Global;
use type_core::Coordinate;

/// The tree that has this word, with an entry for each of these coordinates at all depths; `None` exactly where the
/// word has another length than there are such coordinates.
pub fn pairing(
    alloc: Global,
    a: &List<Coordinate>,
    word: &[u32],
) -> Result<Option<PairTree>, NoMemory>
    ensures shape { IfOk result (λ found. IfSome found (HasShape a.now)) }
    ensures word { IfOk result (λ found. IfSome found (λ p. word_of p ≡ word.now)) }
    ensures none { IfOk result (λ found. (found ≡ None) ↔ (length word.now ≢ nodes_of a.now)) }
{
    match letters_left(a.as_slice(), word.len()) {
        Some(0) => {
            let mut at = 0;
            let entries = read_entries(alloc, a.as_slice(), word, &mut at)?;
            Ok(Some(PairTree { entries }))
        }
        _ => Ok(None),
    }
}

/// How many of the letters are left, once each coordinate at all depths has one; `None` where they are too few.
#[cycle(letters)]
#[tactic(auto, using(crate::proofs::ReadWords::letters_steps, std::proofs::lemmas::Grind::common_steps))]
fn letters_left(all: &[Coordinate], letters: usize) -> Option<usize>
    ensures some { IfSome result (λ left. letters ≡ nodes_of all.now + left) }
    ensures none { IfNone result (letters < nodes_of all.now) }
{
    let mut left = letters;
    for c in all {
        if left == 0 {
            return None;
        }
        match letters_left(c.arguments.as_slice(), left - 1) {
            Some(others) => left = others,
            None => return None,
        }
    }
    Some(left)
}

/// The entries whose words stand in the word from `at` on, which is moved past them.
#[cycle(read)]
fn read_entries(
    alloc: Global,
    all: &[Coordinate],
    word: &[u32],
    at: &mut usize,
) -> Result<List<Entry>, NoMemory>
    requires enough { at.old + nodes_of all.now ≤ length word.now }
    ensures passed { OnOk result (at.new ≡ at.old + nodes_of all.now) }
    ensures shapes { IfOk result (HaveShapes all.now) }
    ensures word { IfOk result (λ entries. take at.old word.now ++ word_of (pair_tree entries) ≡ take at.new word.now) }
{
    let mut done = List::new(alloc);
    for c in all {
        let place = word[*at];
        *at += 1;
        let entries = read_entries(alloc, c.arguments.as_slice(), word, at)?;
        done.push(Entry {
            place,
            args: PairTree { entries },
        })?;
    }
    Ok(done)
}
