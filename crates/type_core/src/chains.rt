// Chains of arrows.
ghost use Rattle.std.specs.Prelude.{◌≡◌, ◌∷◌, [], min, map, IfOk};
ghost use Rattle.type_core.specs.Arrows as spec;
ghost use Rattle.type_core.specs.Lists.{sum_of};
ghost use Rattle.type_core.specs.Size.{size_of};

use crate::measures::size;
use crate::ty::Ty;
use sig_base::{List, NoMemory, Row, Shared};
use std::alloc::Global;

// How many nodes the types have together, or `u64::MAX` where that is less.
fn total_size(parts: &[Ty]) -> u64
    ensures value { result ≡ min (sum_of (map size_of parts.now)) u64.MAX }
{
    let mut total: u64 = 0;
    for part in parts {
        total = total.saturating_add(size(part));
    }
    total
}

/// How many nodes the types with arrows between them have, or `u64::MAX` where that is less. The type isn't
/// built, since a chain of a million arrows is a tree that is a million nodes high.
pub fn arrows_size(sides: &[Ty]) -> u64
    ensures value { result ≡ min (size_of (spec.arrows sides.now)) u64.MAX }
{
    if sides.is_empty() {
        return 1;
    }
    let between = (sides.len() as u64).saturating_sub(1);
    total_size(sides).saturating_add(between)
}

/// The types with arrows between them, grouped to the right.
#[tactic(auto, using(crate::proofs::ArrowChains::arrows_last))]
pub fn arrows(alloc: Global, sides: List<Ty>) -> Result<Ty, NoMemory>
    ensures value { IfOk result (λ t. t ≡ spec.arrows sides) }
{
    let mut sides = sides;
    let Some(last) = sides.pop() else {
        return Ok(Ty::Tup(Row::empty()));
    };
    let mut to = last;
    'sides: while let Some(from) = sides.pop() {
        to = Ty::Arrow(Shared::new(alloc, from)?, Shared::new(alloc, to)?);
    }
    Ok(to)
}
