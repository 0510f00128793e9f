// Normal sizes of types.
ghost use Rattle.std.specs.Prelude.{◌≡◌, ◌+◌, ◌*◌, min, map};
ghost use Rattle.type_core.specs.Coordinates.{coordinate_count};
ghost use Rattle.type_core.specs.Lists.{sum_of};
ghost use Rattle.type_core.specs.NormalSize.{normal_size_of};
ghost use Rattle.type_core.specs.Size.{size_of};

use crate::measures::size;
use crate::ty::Ty;

/// The size of the type's normal form, or `u64::MAX` where that is less: the sizes of its coordinates
/// together.
pub fn normal_size(t: &Ty) -> u64
    ensures value { result ≡ min (normal_size_of t.now) u64.MAX }
{
    measure(t).size
}

/// How many coordinates a type has, and its normal size; each `u64::MAX` where that is less.
#[derive(Clone, Copy)]
struct Extent {
    coordinates: u64,
    size: u64,
}

fn one_atom(t: &Ty) -> Extent
    ensures coordinates { result.coordinates ≡ 1 }
    ensures size { result.size ≡ min (size_of t.now) u64.MAX }
{
    Extent {
        coordinates: 1,
        size: size(t),
    }
}

/// The measure of two types of which both are components.
fn both(first: Extent, next: Extent) -> Extent
    ensures coordinates { result.coordinates ≡ min (first.coordinates + next.coordinates) u64.MAX }
    ensures size { result.size ≡ min (first.size + next.size) u64.MAX }
{
    Extent {
        coordinates: first.coordinates.saturating_add(next.coordinates),
        size: first.size.saturating_add(next.size),
    }
}

/// The measure of an arrow, by those of its sides.
fn through(from: Extent, to: Extent) -> Extent
    ensures coordinates { result.coordinates ≡ to.coordinates }
    ensures size { result.size ≡ min (to.coordinates * from.size + to.size) u64.MAX }
{
    Extent {
        coordinates: to.coordinates,
        size: to
            .coordinates
            .saturating_mul(from.size)
            .saturating_add(to.size),
    }
}

#[cycle(normal)]
#[tactic(auto, using(crate::proofs::NormalSizes::normal_sizes, std::proofs::lemmas::Grind::common_steps))]
fn measure(t: &Ty) -> Extent
    ensures coordinates { result.coordinates ≡ min (coordinate_count t.now) u64.MAX }
    ensures size { result.size ≡ min (normal_size_of t.now) u64.MAX }
{
    match t {
        Ty::Var(_) => one_atom(t),
        Ty::Con(_, _) => one_atom(t),
        Ty::Rec(_) => one_atom(t),
        Ty::Tup(components) => measure_all(components.as_slice()),
        Ty::Arrow(from, to) => through(measure(from.get()), measure(to.get())),
    }
}

#[cycle(normal)]
fn measure_all(parts: &[Ty]) -> Extent
    ensures coordinates { result.coordinates ≡ min (sum_of (map coordinate_count parts.now)) u64.MAX }
    ensures size { result.size ≡ min (sum_of (map normal_size_of parts.now)) u64.MAX }
{
    let mut total = Extent {
        coordinates: 0,
        size: 0,
    };
    for part in parts {
        total = both(total, measure(part));
    }
    total
}
