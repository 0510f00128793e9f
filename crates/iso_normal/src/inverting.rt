// Inverses of pairings.
ghost use Rattle.std.specs.Prelude.{◌≡◌, ◌<◌, ◌≤◌, ◌^◌, ℕ, IfOk, Some, length, slice_get};
ghost use Rattle.iso_normal.specs.declared.pair_tree.Entry.{Entry};
ghost use Rattle.iso_normal.specs.PairTrees.{ArePermuted, IsPermutation, IsPermuted, entries_of, inverse, pair_tree, place_of, places_of};

use crate::pair_tree::{Entry, PairTree};
use sig_base::{List, NoMemory};
use std::alloc::Global;

/// The inverse of the pairing: where entry i has place k, entry k of the inverse has place i.
#[cycle(inverse)]
pub fn inverse(alloc: Global, p: &PairTree) -> Result<PairTree, NoMemory>
    requires permuted { IsPermuted p.now }
    ensures value { IfOk result (λ q. q ≡ inverse p.now) }
{
    let entries = inverse_entries(alloc, p.entries.as_slice())?;
    Ok(PairTree { entries })
}

/// The entries of the inverse, by those of the pairing.
#[cycle(inverse)]
fn inverse_entries(alloc: Global, entries: &[Entry]) -> Result<List<Entry>, NoMemory>
    requires permutation { IsPermutation (places_of entries.now) }
    requires permuted { ArePermuted entries.now }
    ensures value { IfOk result (λ inverses. inverses ≡ entries_of (inverse (pair_tree entries.now))) }
{
    let numbers = numbers_by_place(alloc, entries)?;
    let mut done = List::new(alloc);
    for number in numbers.as_slice() {
        let args = inverse(alloc, &entries[*number].args)?;
        done.push(Entry {
            place: *number as u32,
            args,
        })?;
    }
    Ok(done)
}

/// For each place the number of the entry that stands there.
fn numbers_by_place(alloc: Global, entries: &[Entry]) -> Result<List<usize>, NoMemory>
    requires permutation { IsPermutation (places_of entries.now) }
    ensures length { IfOk result (λ numbers. length numbers ≡ length entries.now) }
    ensures numbers { IfOk result (λ numbers. (j : ℕ) (e : Entry) → slice_get entries.now j ≡ Some e
        → slice_get numbers (place_of e) ≡ Some j) }
    ensures few { IfOk result (λ numbers. length entries.now ≤ 2 ^ 32) }
{
    let mut numbers = vec![in alloc; 0; entries.len()]?;
    for i in 0..entries.len() {
        let place = place_at(entries, i);
        numbers[place as usize] = i;
    }
    Ok(List::from_vec(numbers))
}

fn place_at(entries: &[Entry], i: usize) -> u32
    requires within { i < length entries.now }
    ensures value { (e : Entry) → slice_get entries.now i ≡ Some e → result ≡ place_of e }
{
    entries[i].place
}
