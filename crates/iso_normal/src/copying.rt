// Copies of coordinates and of factors.
ghost use Rattle.std.specs.Prelude.{◌≡◌, IfOk};

use crate::factor::Factor;
use sig_base::{List, NoMemory};
use std::alloc::Global;
use type_core::{Coordinate, copy};

/// The same coordinates again.
#[cycle(copy_coordinates)]
pub fn copy_coordinates(alloc: Global, all: &[Coordinate]) -> Result<List<Coordinate>, NoMemory>
    ensures value { IfOk result (λ r. r ≡ all.now) }
{
    let mut done = List::new(alloc);
    for one in all {
        let arguments = copy_coordinates(alloc, one.arguments.as_slice())?;
        let head = copy(alloc, &one.head)?;
        done.push(Coordinate { arguments, head })?;
    }
    Ok(done)
}

/// The same factors again.
#[cycle(copy_factors)]
pub fn copy_factors(alloc: Global, all: &[Factor]) -> Result<List<Factor>, NoMemory>
    ensures value { IfOk result (λ r. r ≡ all.now) }
{
    let mut done = List::new(alloc);
    for one in all {
        done.push(copy_factor(alloc, one)?)?;
    }
    Ok(done)
}

/// The same factor again.
#[cycle(copy_factors)]
pub fn copy_factor(alloc: Global, one: &Factor) -> Result<Factor, NoMemory>
    ensures value { IfOk result (λ r. r ≡ one.now) }
{
    match one {
        Factor::Atom(t) => Ok(Factor::Atom(copy(alloc, t)?)),
        Factor::Arr(arguments, results) => {
            let arguments = copy_factors(alloc, arguments.as_slice())?;
            let results = copy_factors(alloc, results.as_slice())?;
            Ok(Factor::Arr(arguments, results))
        }
    }
}
