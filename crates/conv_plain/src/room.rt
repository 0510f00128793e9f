// Copies of terms in longer contexts.
ghost use Rattle.std.specs.Prelude.{◌≡◌, ◌+◌, ◌≤◌, ◌^◌, map, IsTrue, IfOk};
ghost use Rattle.conv_terms.specs.Levels.{levels, levels_of_all};
ghost use Rattle.conv_terms.specs.Shifting.{raised, shifted};

use conv_terms::{Term, shift};
use sig_base::NoMemory;
use std::alloc::Global;

/// Whether the number stays below 2^32 where `by` is added to it from `from` on.
fn is_raised(n: u32, from: u32, by: u32) -> bool
    ensures value { IsTrue result → raised from by n + 1 ≤ 2 ^ 32 }
{
    n < from || n.checked_add(by).is_some()
}

#[cycle(room)]
#[tactic(auto, using(conv_terms::proofs::Equations::shifted_at, conv_terms::proofs::Equations::levels_at, std::proofs::lemmas::Grind::common_steps))]
fn has_room(t: &Term, from: u32, by: u32) -> bool
    ensures value { IsTrue result → levels (shifted from by t.now) ≤ 2 ^ 32 }
{
    match t {
        Term::Var(n) => is_raised(*n, from, by),
        Term::Lam(_, body) => has_room(body.get(), from, by),
        Term::App(function, argument) => {
            has_room(function.get(), from, by) && has_room(argument.get(), from, by)
        }
        Term::Tup(components) => all_have_room(components.as_slice(), from, by),
        Term::Proj(_, _, e) => has_room(e.get(), from, by),
    }
}

#[cycle(room)]
fn all_have_room(terms: &[Term], from: u32, by: u32) -> bool
    ensures value { IsTrue result → levels_of_all (map (shifted from by) terms.now) ≤ 2 ^ 32 }
{
    for t in terms {
        if !has_room(t, from, by) {
            return false;
        }
    }
    true
}

/// A copy of the term of a context of `from` variables, in one of `by` more. Where a level would reach 2^32 it answers
/// want of memory.
pub fn below(alloc: Global, t: &Term, from: u32, by: u32) -> Result<Term, NoMemory>
    ensures value { IfOk result (λ r. r ≡ shifted from by t.now) }
{
    if !has_room(t, from, by) {
        return Err(NoMemory);
    }
    shift(alloc, t, from, by)
}

/// A copy of the term.
#[tactic(auto, using(conv_terms::proofs::Moving::shifted_by_none, std::proofs::lemmas::Grind::common_steps))]
pub fn same_term(alloc: Global, t: &Term) -> Result<Term, NoMemory>
    ensures value { IfOk result (λ r. r ≡ t.now) }
{
    below(alloc, t, 0, 0)
}
