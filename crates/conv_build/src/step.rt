// Steps from a variable to its coordinates.
ghost use Rattle.std.specs.Prelude.{◌≡◌, IfOk};

use sig_base::NoMemory;
use std::alloc::Global;
use type_core::{Ty, copy};

/// One step on the way from a term to one of its coordinates.
#[derive(Drop)]
pub enum Step {
    /// A component is projected: its number, and how many there are.
    Component(u32, u32),
    /// The term is applied to an argument of this type.
    Argument(Ty),
}

/// The same step again.
pub fn copy_step(alloc: Global, step: &Step) -> Result<Step, NoMemory>
    ensures value { IfOk result (λ r. r ≡ step.now) }
{
    match step {
        Step::Component(number, count) => Ok(Step::Component(*number, *count)),
        Step::Argument(from) => Ok(Step::Argument(copy(alloc, from)?)),
    }
}
