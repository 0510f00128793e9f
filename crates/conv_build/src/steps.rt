// The steps to the coordinates of a type.
ghost use Rattle.std.specs.Prelude.{◌≡◌, ◌∷◌, ◌++◌, [], ℕ, List, IfOk, OnOk, Some, length, map, slice_get};
ghost use Rattle.type_core.specs.Coordinates.{coordinates};
ghost use Rattle.conv_build.specs.declared.step.Step.{Step};
ghost use Rattle.conv_build.specs.direct.Steps.{after_steps, steps_of, steps_of_all};
ghost use Rattle.conv_build.specs.direct.AlongSteps.{AreSteps};

use crate::cutting::cut;
use crate::numbers::{number_of, total};
use crate::step::{Step, copy_step};
use sig_base::{List, NoMemory, Row};
use std::alloc::Global;
use type_core::{Ty, copy};

/// The steps to each coordinate of the type, in their order.
pub fn steps_of(alloc: Global, t: &Ty) -> Result<List<Row<Step>>, NoMemory>
    ensures count { IfOk result (λ all. length all ≡ length (coordinates t.now)) }
    ensures lead { IfOk result (λ all. (place : ℕ) (steps : List Step) → slice_get all place ≡ Some steps
        → AreSteps steps t.now place) }
{
    let mut before = List::new(alloc);
    let mut all = List::new(alloc);
    push_steps(alloc, t, &mut before, &mut all)?;
    Ok(all)
}

fn push_copy(alloc: Global, steps: &[Step], all: &mut List<Row<Step>>) -> Result<(), NoMemory>
    ensures pushed { OnOk result (all.new ≡ all.old ++ steps.now ∷ []) }
{
    let mut copies = List::new(alloc);
    for step in steps {
        copies.push(copy_step(alloc, step)?)?;
    }
    all.push(Row::new(alloc, copies)?)
}

/// Adds the steps to each coordinate of the type, behind these.
#[cycle(steps)]
#[tactic(auto, using(crate::proofs::LeadingSteps::steps_behind, std::proofs::lemmas::Grind::common_steps))]
fn push_steps(
    alloc: Global,
    t: &Ty,
    before: &mut List<Step>,
    all: &mut List<Row<Step>>,
) -> Result<(), NoMemory>
    ensures kept { OnOk result (before.new ≡ before.old) }
    ensures pushed { OnOk result (all.new ≡ all.old ++ map (after_steps before.old) (steps_of t.now)) }
{
    match t {
        Ty::Var(_) => push_copy(alloc, before.as_slice(), all),
        Ty::Con(_, _) => push_copy(alloc, before.as_slice(), all),
        Ty::Rec(_) => push_copy(alloc, before.as_slice(), all),
        Ty::Tup(components) => push_steps_of_all(alloc, components.as_slice(), before, all),
        Ty::Arrow(from, to) => {
            let keep = before.len();
            let from = copy(alloc, from.get())?;
            before.push(Step::Argument(from))?;
            push_steps(alloc, to.get(), before, all)?;
            cut(before, keep);
            Ok(())
        }
    }
}

#[cycle(steps)]
#[tactic(auto, using(crate::proofs::LeadingSteps::steps_behind, std::proofs::lemmas::Grind::common_steps))]
fn push_steps_of_all(
    alloc: Global,
    parts: &[Ty],
    before: &mut List<Step>,
    all: &mut List<Row<Step>>,
) -> Result<(), NoMemory>
    ensures kept { OnOk result (before.new ≡ before.old) }
    ensures pushed { OnOk result (all.new ≡ all.old ++ steps_of_all before.old parts.now 1 (length parts.now)) }
{
    let count = number_of(parts.len())?;
    let keep = before.len();
    let mut number = 1u32;
    for part in parts {
        before.push(Step::Component(number, count))?;
        push_steps(alloc, part, before, all)?;
        cut(before, keep);
        number = total(number, 1)?;
    }
    Ok(())
}
