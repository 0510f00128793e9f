// Sets of paths with arities.
ghost use Rattle.std.specs.Prelude.{◌≡◌, ◌↔◌, ◌∷◌, ◌++◌, [], Contains, IfOk, IsTrue, if◌then◌else◌};

use indexmap::IndexSet;
use sig_base::NoMemory;
use std::alloc::Global;
use std::marker::Model;

/// Pairs of a path and an arity, each once, in the order in which they were added.
#[derive(Drop)]
pub(crate) struct PathsAndArities<'a> {
    pairs: IndexSet<(&'a [u8], u32)>,
}

impl<'a> Model for PathsAndArities<'a> {
    ghost use Rattle.std.specs.Prelude.{List, ℕ, map};

    ghost Value = { List (List ℕ × ℕ) };

    ghost view = { λ set. map (λ pair. (pair.0.now, pair.1)) set.pairs.keys };
}

impl<'a> PathsAndArities<'a> {
    /// There is no pair.
    pub(crate) fn new(alloc: Global) -> PathsAndArities<'a>
        ensures empty { result ≡ [] }
    {
        PathsAndArities {
            pairs: IndexSet::new(alloc),
        }
    }

    /// Adds a pair where it is new, and tells whether it was.
    pub(crate) fn add(&mut self, path: &'a [u8], arity: u32) -> Result<bool, NoMemory>
        ensures new { IfOk result (λ new. IsTrue new ↔ ¬ (Contains self.old (path.now, arity))) }
        ensures added { IfOk result (λ new. self.new ≡ (if new then self.old ++ (path.now, arity) ∷ [] else self.old)) }
    {
        let new = self.pairs.insert((path, arity))?;
        Ok(new)
    }
}
