// Places by texts.
ghost use Rattle.std.specs.Prelude.{◌≡◌, ℕ, List, Some, None, OnOk, OnErr, bytes_eq, if◌then◌else◌, is_some};
ghost use Rattle.std.specs.Option.{option_or};
ghost use Rattle.elab_types.specs.Places.{place_at};

use sig_base::NoMemory;
use std::alloc::Global;
use std::collections::HashMap;

/// A place for each of some texts.
#[derive(Drop)]
pub struct Places {
    places: HashMap<Vec<u8>, usize>,
}

impl Places {
    pub fn new(alloc: Global) -> Places
        ensures empty { (text : List ℕ) → place_at result text ≡ None }
    {
        Places {
            places: HashMap::new(alloc),
        }
    }

    /// The place of this text.
    pub fn get(&self, text: &[u8]) -> Option<usize>
        ensures value { result ≡ place_at self.now text.now }
    {
        self.places.get(text).copied()
    }

    /// Whether the text has a place.
    pub fn has(&self, text: &[u8]) -> bool
        ensures value { result ≡ is_some (place_at self.now text.now) }
    {
        match self.get(text) {
            Some(_) => true,
            None => false,
        }
    }

    /// Gives a text a place.
    pub fn insert(&mut self, alloc: Global, text: &[u8], place: usize) -> Result<(), NoMemory>
        ensures inserted { OnOk result ((other : List ℕ) → place_at self.new other ≡ (if bytes_eq other text.now then Some place else place_at self.old other)) }
        ensures kept { OnErr result ((other : List ℕ) → place_at self.new other ≡ place_at self.old other) }
    {
        let text = Vec::from_slice(alloc, text)?;
        self.places.insert(text, place)?;
        Ok(())
    }
    /// Gives a text a place, where it has none.
    pub fn insert_new(&mut self, alloc: Global, text: &[u8], place: usize) -> Result<(), NoMemory>
        ensures inserted { OnOk result ((other : List ℕ) → place_at self.new other ≡ option_or (place_at self.old other) (if bytes_eq other text.now then Some place else None)) }
        ensures kept { OnErr result ((other : List ℕ) → place_at self.new other ≡ place_at self.old other) }
    {
        if self.has(text) {
            return Ok(());
        }
        self.insert(alloc, text, place)
    }
}
