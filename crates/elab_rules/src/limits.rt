// The limits on types.
ghost use Rattle.std.specs.Prelude.{◌≡◌, min, map, nat_le};
ghost use Rattle.type_core.specs.Arrows.{arrows as chain};
ghost use Rattle.elab_types.specs.Records.{in_label_order, record_of};
ghost use Rattle.elab_rules.specs.Outcome.{GivesWith};
ghost use Rattle.elab_rules.specs.States.{State};
ghost use Rattle.elab_rules.specs.Types as spec;
ghost use Rattle.type_core.specs.Height.{height_of};
ghost use Rattle.type_core.specs.Lists.{sum_of};
ghost use Rattle.type_core.specs.NormalSize.{normal_size_of};
ghost use Rattle.type_core.specs.Size.{size_of};
ghost use Rattle.type_core.specs.declared.ty.Ty.TheVariants as ty;

use crate::refusal::{ElabRefusal, Why};
use elab_types::{arrows_size, records_have_nodes};
use sig_base::{List, Row};
use std::alloc::Global;
use type_core::{Field, Ty, height, normal_size, size};

/// The greatest number of nodes of a type.
pub const MAX_NODES: u64 = 2_000;

/// The greatest height of a type.
pub const MAX_HEIGHT: u64 = 200;

/// The greatest number of nodes of the normal form of a member's type.
pub const MAX_NORMAL: u64 = 8_000;

/// Whether a type has at most 2,000 nodes.
pub fn is_small(t: &Ty) -> bool
    ensures value { result ≡ nat_le (size_of t.now) 2000 }
{
    size(t) <= MAX_NODES
}

/// Whether a type's height is at most 200.
pub fn is_low(t: &Ty) -> bool
    ensures value { result ≡ nat_le (height_of t.now) 200 }
{
    height(t) <= MAX_HEIGHT
}

/// Whether the normal form of a type has at most 8,000 nodes.
pub fn is_normal_small(t: &Ty) -> bool
    ensures value { result ≡ nat_le (normal_size_of t.now) 8000 }
{
    normal_size(t) <= MAX_NORMAL
}

/// The type, where it is within the limits on nodes and height; else these are refused at the token.
pub fn limited(first: u32, t: Ty) -> Result<Ty, ElabRefusal>
    ensures outcome { (s : State) → GivesWith (spec.limited first t s) result s }
{
    if !is_small(&t) {
        return Err(ElabRefusal::Refused(Why::TypeTooLarge, first));
    }
    if !is_low(&t) {
        return Err(ElabRefusal::Refused(Why::TypeTooHigh, first));
    }
    Ok(t)
}

/// The tuple of types, within the limits.
pub fn tuple(alloc: Global, first: u32, parts: List<Ty>) -> Result<Ty, ElabRefusal>
    ensures outcome { (s : State) → GivesWith (spec.limited first (ty.Tup parts) s) result s }
{
    let parts = Row::new(alloc, parts)?;
    limited(first, Ty::Tup(parts))
}

// Whether the types with arrows between them have at most 2,000 nodes.
fn are_small(sides: &[Ty]) -> bool
    ensures value { result ≡ nat_le (size_of (chain sides.now)) 2000 }
{
    arrows_size(sides) <= MAX_NODES
}

/// The types with arrows between them, within the limits. The nodes are counted before the type is built,
/// since a chain of a million arrows is a tree that is a million nodes high.
pub fn arrows(alloc: Global, first: u32, sides: List<Ty>) -> Result<Ty, ElabRefusal>
    ensures outcome { (s : State) → GivesWith (spec.limited first (chain sides) s) result s }
{
    if !are_small(sides.as_slice()) {
        return Err(ElabRefusal::Refused(Why::TypeTooLarge, first));
    }
    let t = elab_types::arrows(alloc, sides)?;
    limited(first, t)
}

/// The type of fields of distinct labels, within the limits. A million fields aren't put in order.
pub fn record(alloc: Global, first: u32, fields: List<Field>) -> Result<Ty, ElabRefusal>
    ensures outcome { (s : State) → GivesWith (spec.limited first (record_of (in_label_order fields)) s) result s }
{
    records_have_nodes();
    if fields.len() as u64 >= MAX_NODES {
        return Err(ElabRefusal::Refused(Why::TypeTooLarge, first));
    }
    let t = elab_types::record_of(alloc, fields)?;
    limited(first, t)
}
