// The names of a unit.
ghost use Rattle.std.specs.Prelude.{◌≡◌, ◌++◌, ◌∷◌, [], ◌==◌, ℕ, IfOk};
ghost use Rattle.elab_types.specs.Finding.{place_of};
ghost use Rattle.elab_rules.specs.NumberPlaces.{number_place};

use crate::number_places::NumberPlaces;
use sig_base::NoMemory;
use std::alloc::Global;

/// The numbers of a unit's own names, and the place of each among them.
#[derive(Drop)]
pub struct OwnNames {
    pub numbers: Vec<u32>,
    places: NumberPlaces,
    ghost placed: { (m : ℕ) → number_place places m ≡ place_of (λ n. n == m) numbers.items },
}

impl OwnNames {
    pub fn new(alloc: Global) -> OwnNames
        ensures empty { result.numbers.items ≡ [] }
    {
        OwnNames {
            numbers: Vec::new(alloc),
            places: NumberPlaces::new(alloc),
        }
    }

    /// The names with one more.
    pub fn with(self, n: u32) -> Result<OwnNames, NoMemory>
        ensures pushed { IfOk result (λ own. own.numbers.items ≡ self.numbers.items ++ n ∷ []) }
    {
        let OwnNames {
            mut numbers,
            mut places,
        } = self;
        places.insert_new(n, numbers.len())?;
        numbers.push(n)?;
        Ok(OwnNames { numbers, places })
    }

    /// The place of a name among them.
    pub fn place(&self, n: u32) -> Option<usize>
        ensures value { result ≡ place_of (λ k. k == n) self.now.numbers.items }
    {
        self.places.get(n)
    }
}
