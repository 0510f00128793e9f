// The coordinates of a type.
ghost use Rattle.std.specs.Prelude.{◌≡◌, ◌↔◌, ◌≤◌, IsTrue, IfOk, OnOk, [], ◌∷◌, ◌++◌, length, map, take};
ghost use Rattle.type_core.specs.Coordinates.{coordinate, coordinate_count, coordinates, taking};
ghost use Rattle.type_core.specs.Lists.{concatenated, sum_of};

use crate::copying::copy_coordinates;
use sig_base::{List, NoMemory};
use std::alloc::Global;
use type_core::{Coordinate, Ty, copy};

/// The coordinates of the type.
#[tactic(auto, using(crate::proofs::Taking::nothing_before, std::proofs::lemmas::Grind::common_steps))]
pub fn normal(alloc: Global, t: &Ty) -> Result<List<Coordinate>, NoMemory>
    ensures value { IfOk result (λ r. r ≡ coordinates t.now) }
{
    let mut arguments = List::new(alloc);
    let mut done = List::new(alloc);
    add(alloc, t, &mut arguments, &mut done)?;
    Ok(done)
}

/// Whether the type has no coordinate.
#[cycle(nothing)]
#[tactic(auto, using(type_core::proofs::NormalSizes::normal_sizes, std::proofs::lemmas::Grind::common_steps))]
fn gives_nothing(t: &Ty) -> bool
    ensures value { IsTrue result ↔ (coordinate_count t.now ≡ 0) }
{
    match t {
        Ty::Var(_) => false,
        Ty::Con(_, _) => false,
        Ty::Rec(_) => false,
        Ty::Tup(components) => all_give_nothing(components.as_slice()),
        Ty::Arrow(_, to) => gives_nothing(to.get()),
    }
}

#[cycle(nothing)]
#[tactic(auto, using(type_core::proofs::NormalSizes::normal_sizes, std::proofs::lemmas::Grind::common_steps))]
fn all_give_nothing(parts: &[Ty]) -> bool
    ensures value { IsTrue result ↔ (sum_of (map coordinate_count parts.now) ≡ 0) }
{
    for part in parts {
        if !gives_nothing(part) {
            return false;
        }
    }
    true
}

/// Leaves the first `keep` values.
fn cut(list: &mut List<Coordinate>, keep: usize)
    requires within { keep ≤ length list.old }
    ensures value { list.new ≡ take keep list.old }
{
    while list.len() > keep {
        let _last = list.pop();
    }
}

/// Adds the coordinate of an atom with these arguments.
fn add_atom(
    alloc: Global,
    t: &Ty,
    arguments: &[Coordinate],
    done: &mut List<Coordinate>,
) -> Result<(), NoMemory>
    ensures added { OnOk result (done.new ≡ done.old ++ coordinate arguments.now t.now ∷ []) }
{
    let arguments = copy_coordinates(alloc, arguments)?;
    let head = copy(alloc, t)?;
    done.push(Coordinate { arguments, head })
}

/// Adds the coordinates of the type, each taking these arguments before its own.
///
/// The left side of an arrow that gives nothing isn't looked at, since its coordinates may be many.
#[cycle(add)]
#[tactic(auto, using(crate::proofs::Taking::taking_steps, std::proofs::lemmas::Grind::common_steps))]
fn add(
    alloc: Global,
    t: &Ty,
    arguments: &mut List<Coordinate>,
    done: &mut List<Coordinate>,
) -> Result<(), NoMemory>
    ensures kept { OnOk result (arguments.new ≡ arguments.old) }
    ensures added { OnOk result (done.new ≡ done.old ++ map (taking arguments.old) (coordinates t.now)) }
{
    match t {
        Ty::Var(_) => add_atom(alloc, t, arguments.as_slice(), done),
        Ty::Con(_, _) => add_atom(alloc, t, arguments.as_slice(), done),
        Ty::Rec(_) => add_atom(alloc, t, arguments.as_slice(), done),
        Ty::Tup(components) => add_all(alloc, components.as_slice(), arguments, done),
        Ty::Arrow(from, to) => {
            if gives_nothing(to.get()) {
                return Ok(());
            }
            let before = arguments.len();
            let mut none = List::new(alloc);
            add(alloc, from.get(), &mut none, arguments)?;
            add(alloc, to.get(), arguments, done)?;
            cut(arguments, before);
            Ok(())
        }
    }
}

#[cycle(add)]
fn add_all(
    alloc: Global,
    parts: &[Ty],
    arguments: &mut List<Coordinate>,
    done: &mut List<Coordinate>,
) -> Result<(), NoMemory>
    ensures kept { OnOk result (arguments.new ≡ arguments.old) }
    ensures added { OnOk result (done.new ≡ done.old ++ map (taking arguments.old) (concatenated (map coordinates parts.now))) }
{
    for part in parts {
        add(alloc, part, arguments, done)?;
    }
    Ok(())
}
