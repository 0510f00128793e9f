// Sizes of resolved types, which are counted and not built.
ghost use Rattle.std.specs.Prelude.{◌≡◌, ◌<◌, ◌≤◌, ◌+◌, ◌++◌, IsTrue, drop, length, map, min, slice_get, take};
ghost use Rattle.type_core.specs.Lists.{all_true, sum_of};
ghost use Rattle.type_core.specs.Types.{IsOver, is_over};
ghost use Rattle.elab_env.specs.Meaning.{body_of};
ghost use Rattle.elab_env.specs.Realizations.{field_resolved, resolved};
ghost use Rattle.elab_env.specs.Sized.{listed, saturated_size, size_at, sized};

use crate::name_table::NameTable;
use crate::resolving::follow;
use type_core::{Field, Ty};

/// Sizes of the arguments of a type function, in the order of its parameters. They are held by the calls
/// that count them, since counting takes no memory.
#[cycle(sizes)]
#[derive(Drop)]
pub enum Sizes<'a> {
    Nothing,
    Then(u64, &'a Sizes<'a>),
}

// The size of what stands for a variable.
fn size_of_variable(sizes: &Sizes<'_>, n: u32) -> u64
    ensures value { result ≡ size_at (slice_get (listed sizes.now) n) }
    ensures fits { result ≤ u64.MAX }
{
    let mut rest = sizes;
    let mut left = n;
    'walk: while let Sizes::Then(size, later) = rest {
        if left == 0 {
            return *size;
        }
        left -= 1;
        rest = later;
    }
    1
}

/// How many nodes the type has after the realizations from a place on, with types of these sizes in place of
/// its variables, or `u64::MAX` where that is less.
#[cycle(size)]
pub fn size_from(t: &Ty, table: &NameTable, from: usize, sizes: &Sizes<'_>) -> u64
    requires over { IsOver table.now.names t.now }
    ensures value { result ≡ saturated_size (listed sizes.now) (drop from table.now.realizations) t.now }
{
    match t {
        Ty::Var(v) => size_of_variable(sizes, v.n),
        Ty::Con(name, arguments) => {
            let (_, place) = follow(*name, table, from);
            let arguments = arguments.as_slice();
            match place {
                None => 1u64.saturating_add(total_size(arguments, table, from, sizes)),
                Some(place) => {
                    let count = arguments.len();
                    applied_size(arguments, count, place, table, from, sizes, &Sizes::Nothing)
                }
            }
        }
        Ty::Rec(fields) => {
            1u64.saturating_add(total_field_size(fields.as_slice(), table, from, sizes))
        }
        Ty::Tup(components) => {
            1u64.saturating_add(total_size(components.as_slice(), table, from, sizes))
        }
        Ty::Arrow(argument, value) => 1u64
            .saturating_add(size_from(argument.get(), table, from, sizes))
            .saturating_add(size_from(value.get(), table, from, sizes)),
    }
}

// The size of the body at a place, applied to the first arguments and to types of the sizes that are done.
#[cycle(size)]
fn applied_size(
    arguments: &[Ty],
    count: usize,
    place: usize,
    table: &NameTable,
    from: usize,
    sizes: &Sizes<'_>,
    done: &Sizes<'_>,
) -> u64
    requires within { count ≤ length arguments.now }
    requires over { IsTrue (all_true (map (is_over table.now.names) arguments.now)) }
    requires place { place < length table.now.realizations }
    requires body { IsOver table.now.names (body_of (slice_get table.now.realizations place)) }
    ensures value { result ≡ saturated_size
        (map (saturated_size (listed sizes.now) (drop from table.now.realizations)) (take count arguments.now) ++ listed done.now)
        (drop (place + 1) table.now.realizations) (body_of (slice_get table.now.realizations place)) }
{
    if count == 0 {
        return size_from(&table.realization(place).fun.body, table, place + 1, done);
    }
    let size = size_from(&arguments[count - 1], table, from, sizes);
    let done = Sizes::Then(size, &*done);
    applied_size(arguments, count - 1, place, table, from, sizes, &done)
}

#[cycle(size)]
fn total_size(parts: &[Ty], table: &NameTable, from: usize, sizes: &Sizes<'_>) -> u64
    requires over { IsTrue (all_true (map (is_over table.now.names) parts.now)) }
    ensures value { result ≡ min (sum_of (map (saturated_size (listed sizes.now) (drop from table.now.realizations)) parts.now)) u64.MAX }
{
    let mut total: u64 = 0;
    for part in parts {
        total = total.saturating_add(size_from(part, table, from, sizes));
    }
    total
}

#[cycle(size)]
fn total_field_size(fields: &[Field], table: &NameTable, from: usize, sizes: &Sizes<'_>) -> u64
    requires over { IsTrue (all_true (map (λ field. is_over table.now.names field.ty) fields.now)) }
    ensures value { result ≡ min (sum_of (map (λ field. saturated_size (listed sizes.now) (drop from table.now.realizations) field.ty) fields.now)) u64.MAX }
{
    let mut total: u64 = 0;
    for field in fields {
        total = total.saturating_add(size_from(&field.ty, table, from, sizes));
    }
    total
}
