// Sets of texts.
ghost use Rattle.std.specs.Prelude.{◌≡◌, ◌↔◌, ◌∷◌, ◌++◌, [], Contains, IfOk, IsTrue, if◌then◌else◌};

use indexmap::IndexSet;
use sig_base::NoMemory;
use std::alloc::Global;
use std::marker::Model;

/// Texts, each once, in the order in which they were added. They are found by their hashes.
#[derive(Drop)]
pub(crate) struct Texts<'a> {
    texts: IndexSet<&'a [u8]>,
}

impl<'a> Model for Texts<'a> {
    ghost use Rattle.std.specs.Prelude.{List, ℕ, map};

    ghost Value = { List (List ℕ) };

    ghost view = { λ set. map (λ text. text.now) set.texts.keys };
}

impl<'a> Texts<'a> {
    /// There is no text.
    pub(crate) fn new(alloc: Global) -> Texts<'a>
        ensures empty { result ≡ [] }
    {
        Texts {
            texts: IndexSet::new(alloc),
        }
    }

    /// Adds a text where it is new, and tells whether it was.
    pub(crate) fn add(&mut self, text: &'a [u8]) -> Result<bool, NoMemory>
        ensures new { IfOk result (λ new. IsTrue new ↔ ¬ (Contains self.old text.now)) }
        ensures added { IfOk result (λ new. self.new ≡ (if new then self.old ++ text.now ∷ [] else self.old)) }
    {
        let new = self.texts.insert(text)?;
        Ok(new)
    }

    /// Whether the text is one of them.
    pub(crate) fn has(&self, text: &[u8]) -> bool
        ensures value { IsTrue result ↔ Contains self.now text.now }
    {
        self.texts.contains(text)
    }
}
