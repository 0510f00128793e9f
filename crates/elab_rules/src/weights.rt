// Weights of what is described.
ghost use Rattle.std.specs.Prelude.{◌≡◌, ◌+◌, ℕ, length, min};
ghost use Rattle.elab_rules.specs.Outcome.{Agrees};
ghost use Rattle.elab_rules.specs.States.{weighed, within};
ghost use Rattle.elab_rules.specs.Views.{state_of};
ghost use Rattle.type_core.specs.Weight.{type_weight};

use crate::progress::Progress;
use crate::refusal::{ElabRefusal, Why};
use type_core::Ty;
pub use type_core::type_weight;

/// The greatest weight of all that is described, and of a library.
pub const MAX_WEIGHT: u64 = 8_000_000;

/// What an entry of this identifier weighs without its type, where the path of its body has so many bytes, or
/// `u64::MAX` where that is less.
pub fn weight_at(path: u64, id: &[u8]) -> u64
    ensures value { result ≡ min (path + (length id.now + 2)) u64.MAX }
{
    path.saturating_add(id.len() as u64).saturating_add(2)
}

/// The weight of an entry of this identifier and type in a body of this path, or `u64::MAX` where that is
/// less.
pub fn entry_weight(path: &[u8], id: &[u8], t: &Ty) -> u64
    ensures value { result ≡ min (1 + (length (within path.now id.now) + type_weight t.now)) u64.MAX }
{
    weight_at(path.len() as u64, id).saturating_add(type_weight(t))
}

impl Progress {
    /// Adds a weight, where all that was described then weighs at most 8,000,000; else this is refused at
    /// the token.
    pub fn weigh(&mut self, amount: u64, token: u32) -> Result<(), ElabRefusal>
        ensures outcome { (weight : ℕ) → amount ≡ min weight u64.MAX → Agrees (weighed weight token (state_of self.old)) result (state_of self.new) }
        ensures table { self.new.table ≡ self.old.table }
        ensures firsts { self.new.firsts ≡ self.old.firsts }
        ensures external { self.new.external_weight ≡ self.old.external_weight }
    {
        let weight = self.weight.saturating_add(amount);
        if weight > MAX_WEIGHT {
            return Err(ElabRefusal::Refused(Why::LibraryTooLarge, token));
        }
        self.weight = weight;
        Ok(())
    }
}
