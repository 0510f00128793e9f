// Places by numbers.
ghost use Rattle.std.specs.Prelude.{◌≡◌, ◌==◌, ℕ, None, Some, OnErr, OnOk, if◌then◌else◌};
ghost use Rattle.std.specs.Option.{option_or};
ghost use Rattle.elab_rules.specs.NumberPlaces.{number_place};

use sig_base::NoMemory;
use std::alloc::Global;
use std::collections::HashMap;

/// A place for each of some numbers.
#[derive(Drop)]
pub struct NumberPlaces {
    places: HashMap<u32, usize>,
}

impl NumberPlaces {
    pub fn new(alloc: Global) -> NumberPlaces
        ensures empty { (n : ℕ) → number_place result n ≡ None }
    {
        NumberPlaces {
            places: HashMap::new(alloc),
        }
    }

    /// The place of this number.
    pub fn get(&self, n: u32) -> Option<usize>
        ensures value { result ≡ number_place self.now n }
    {
        self.places.get(&n).copied()
    }

    /// Gives a number a place, where it has none.
    pub fn insert_new(&mut self, n: u32, place: usize) -> Result<(), NoMemory>
        ensures inserted { OnOk result ((m : ℕ) → number_place self.new m ≡ option_or (number_place self.old m) (if m == n then Some place else None)) }
        ensures kept { OnErr result ((m : ℕ) → number_place self.new m ≡ number_place self.old m) }
    {
        match self.get(n) {
            Some(_) => Ok(()),
            None => {
                self.places.insert(n, place)?;
                Ok(())
            }
        }
    }
}
