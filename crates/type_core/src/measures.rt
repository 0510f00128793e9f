// Sizes and heights of types.
ghost use Rattle.std.specs.Prelude.{◌≡◌, min, max, map};
ghost use Rattle.type_core.specs.Height.{height_of, field_height};
ghost use Rattle.type_core.specs.Lists.{sum_of, greatest_of};
ghost use Rattle.type_core.specs.Size.{size_of, field_size};

use crate::ty::{Field, Ty};

/// How many nodes the type has, or `u64::MAX` where that is less. A record is one node besides those of
/// its fields' types.
#[cycle(size)]
pub fn size(t: &Ty) -> u64
    ensures value { result ≡ min (size_of t.now) u64.MAX }
{
    match t {
        Ty::Var(_) => 1,
        Ty::Con(_, arguments) => 1u64.saturating_add(total_size(arguments.as_slice())),
        Ty::Rec(fields) => 1u64.saturating_add(total_field_size(fields.as_slice())),
        Ty::Tup(components) => 1u64.saturating_add(total_size(components.as_slice())),
        Ty::Arrow(from, to) => 1u64
            .saturating_add(size(from.get()))
            .saturating_add(size(to.get())),
    }
}

#[cycle(size)]
fn total_size(parts: &[Ty]) -> u64
    ensures value { result ≡ min (sum_of (map size_of parts.now)) u64.MAX }
{
    let mut total: u64 = 0;
    for part in parts {
        total = total.saturating_add(size(part));
    }
    total
}

#[cycle(size)]
fn total_field_size(fields: &[Field]) -> u64
    ensures value { result ≡ min (sum_of (map field_size fields.now)) u64.MAX }
{
    let mut total: u64 = 0;
    for field in fields {
        total = total.saturating_add(size(&field.ty));
    }
    total
}

/// How many nodes the longest way down from the root has, or `u64::MAX` where that is less: 1 for a leaf.
#[cycle(height)]
pub fn height(t: &Ty) -> u64
    ensures value { result ≡ min (height_of t.now) u64.MAX }
{
    match t {
        Ty::Var(_) => 1,
        Ty::Con(_, arguments) => 1u64.saturating_add(greatest_height(arguments.as_slice())),
        Ty::Rec(fields) => 1u64.saturating_add(greatest_field_height(fields.as_slice())),
        Ty::Tup(components) => 1u64.saturating_add(greatest_height(components.as_slice())),
        Ty::Arrow(from, to) => {
            let below = greater(height(from.get()), height(to.get()));
            1u64.saturating_add(below)
        }
    }
}

#[cycle(height)]
fn greatest_height(parts: &[Ty]) -> u64
    ensures value { result ≡ min (greatest_of (map height_of parts.now)) u64.MAX }
{
    let mut greatest: u64 = 0;
    for part in parts {
        greatest = greater(greatest, height(part));
    }
    greatest
}

#[cycle(height)]
fn greatest_field_height(fields: &[Field]) -> u64
    ensures value { result ≡ min (greatest_of (map field_height fields.now)) u64.MAX }
{
    let mut greatest: u64 = 0;
    for field in fields {
        greatest = greater(greatest, height(&field.ty));
    }
    greatest
}

fn greater(a: u64, b: u64) -> u64
    ensures value { result ≡ max a b }
{
    if a < b { b } else { a }
}
