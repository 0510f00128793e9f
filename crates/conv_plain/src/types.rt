// The types of coordinates.
ghost use Rattle.std.specs.Prelude.{◌≡◌, IfOk};
ghost use Rattle.conv_plain.specs.CoordinateTypes.{coordinate_type, coordinate_types, types_of};

use crate::functions::arrows;
use iso_normal::normal;
use sig_base::{List, NoMemory};
use std::alloc::Global;
use type_core::{Coordinate, Ty, copy};

/// `T1 -> .. -> Tm -> h`, where T1 to Tm are the types of the arguments and h is the head.
#[cycle(types)]
#[tactic(auto, using(crate::proofs::Equations::type_opened, std::proofs::lemmas::Grind::common_steps))]
fn type_of(alloc: Global, c: &Coordinate) -> Result<Ty, NoMemory>
    ensures value { IfOk result (λ r. r ≡ coordinate_type c.now) }
{
    let arguments = types_of(alloc, c.arguments.as_slice())?;
    let head = copy(alloc, &c.head)?;
    arrows(alloc, arguments.as_slice(), head)
}

/// The types of the coordinates.
#[cycle(types)]
pub fn types_of(alloc: Global, all: &[Coordinate]) -> Result<List<Ty>, NoMemory>
    ensures value { IfOk result (λ r. r ≡ types_of all.now) }
{
    let mut done = List::new(alloc);
    for one in all {
        done.push(type_of(alloc, one)?)?;
    }
    Ok(done)
}

/// The types of the coordinates of the type.
pub fn coordinate_types(alloc: Global, t: &Ty) -> Result<List<Ty>, NoMemory>
    ensures value { IfOk result (λ r. r ≡ coordinate_types t.now) }
{
    let all = normal(alloc, t)?;
    types_of(alloc, all.as_slice())
}
