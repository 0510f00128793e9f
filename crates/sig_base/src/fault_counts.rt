// How often calls on files in memory have failed.
ghost use Rattle.std.specs.Prelude.{◌≡◌, ◌≤◌, ◌+◌, ◌-◌, ◌^◌, min, length, slice_index_or, Some, None, Option, ℕ, OnOk, OnErr};
ghost use Rattle.sig_base.specs.FaultCounts.{count_at, SetAt};

use crate::{List, NoMemory};
use std::alloc::{AllocError, Global};

/// One count for each file, by its place, and one for all paths of no file. The counts of the last files stand only where they aren't 0.
#[derive(Drop)]
pub struct FaultCounts {
    outside: u64,
    inside: Vec<u64>,
}

impl FaultCounts {
    /// No call has failed.
    pub fn new(alloc: Global) -> FaultCounts
        ensures zero { (place : Option ℕ) → count_at result place ≡ 0 }
    {
        FaultCounts {
            outside: 0,
            inside: Vec::new(alloc),
        }
    }

    /// Counts a failure at the file of this place, or outside the files.
    pub fn raise(&mut self, place: Option<usize>) -> Result<(), NoMemory>
        ensures raised { OnOk result (SetAt place (min (count_at self.old place + 1) (2 ^ 64 - 1)) self.old self.new) }
        ensures later { (other : Option ℕ) → count_at self.old other ≤ count_at self.new other }
        ensures kept { OnErr result (count_at self.new ≡ count_at self.old) }
    {
        let Some(place) = place else {
            self.outside = self.outside.saturating_add(1);
            return Ok(());
        };
        self.set(place, self.at(place).saturating_add(1))
    }

    /// Gives the file of this place the count of the paths outside.
    pub fn copy_outside(&mut self, place: usize) -> Result<(), NoMemory>
        ensures copied { OnOk result (SetAt (Some place) (count_at self.old None) self.old self.new) }
        ensures kept { OnErr result (count_at self.new ≡ count_at self.old) }
    {
        self.set(place, self.outside)
    }

    // The count of a file.
    fn at(&self, place: usize) -> u64
        ensures value { result ≡ count_at self.now (Some place) }
    {
        self.inside.get(place).copied().unwrap_or(0)
    }

    // Sets the count of a file, after those before it that were left out.
    fn set(&mut self, place: usize, count: u64) -> Result<(), NoMemory>
        ensures set { OnOk result (SetAt (Some place) count self.old self.new) }
        ensures kept { OnErr result (count_at self.new ≡ count_at self.old) }
    {
        let Some(length) = place.checked_add(1) else {
            return Err(NoMemory);
        };
        pad(&mut self.inside, length)?;
        self.inside[place] = count;
        Ok(())
    }
}

// Adds counts of 0, up to so many counts in all.
fn pad(counts: &mut Vec<u64>, needed: usize) -> Result<(), AllocError>
    ensures listed { OnOk result (needed ≤ length counts.new.items) }
    ensures same { (place : ℕ) → slice_index_or counts.new.items place 0 ≡ slice_index_or counts.old.items place 0 }
{
    if counts.len() >= needed {
        return Ok(());
    }
    counts.resize(needed, 0)
}
