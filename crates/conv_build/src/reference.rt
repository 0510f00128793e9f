// References to the coordinates of variables.
ghost use Rattle.std.specs.Prelude.{◌≡◌, ◌++◌, IfOk, OnOk};
ghost use Rattle.conv_build.specs.direct.References.{no_reference, references, referring};
ghost use Rattle.conv_build.specs.direct.AlongSteps.{AreSteps};

use crate::numbers::number_of;
use crate::step::Step;
use crate::steps::steps_of;
use sig_base::{List, NoMemory, Row};
use std::alloc::Global;
use std::marker::Model;
use type_core::{Ty, copy};

/// The coordinate at a place among those of a variable's type, and the steps that lead to it.
#[derive(Drop)]
pub struct Reference {
    level: u32,
    of: Ty,
    place: u32,
    steps: Row<Step>,
}

impl Model for Reference {
    ghost use Rattle.std.specs.Coded.{codes};
    ghost use Rattle.type_core.specs.contracts.ty.Ty as types;
    ghost use Rattle.conv_build.specs.direct.References as references;
    ghost use Rattle.conv_build.specs.direct.AlongSteps as along;

    ghost Value = { references.Reference };

    ghost coded = { Prim.hlevel (codes, types.the_row.coded) };

    ghost view = { λ r. record { level = r.level; type = r.of; place = r.place } };

    ghost invariant = { λ r. along.AreSteps r.steps r.of r.place };
}

impl Reference {
    /// What stands where there is no reference.
    #[tactic(auto, using(crate::proofs::LeadingSteps::none_lead, std::proofs::lemmas::Grind::common_steps))]
    pub fn none() -> Reference
        ensures value { result ≡ no_reference }
    {
        Reference {
            level: 0,
            of: Ty::Tup(Row::empty()),
            place: 0,
            steps: Row::empty(),
        }
    }

    /// The variable's level.
    pub fn level(&self) -> u32
        ensures value { result ≡ self.now.level }
    {
        self.level
    }

    /// The steps from the variable to the coordinate.
    pub fn steps(&self) -> &[Step]
        ensures lead { AreSteps result.now self.now.type self.now.place }
    {
        self.steps.as_slice()
    }

    /// The same reference again.
    pub fn copied(&self, alloc: Global) -> Result<Reference, NoMemory>
        ensures value { IfOk result (λ r. r ≡ self.now) }
    {
        let of = copy(alloc, &self.of)?;
        let steps = self.steps.share()?;
        Ok(Reference {
            level: self.level,
            of,
            place: self.place,
            steps,
        })
    }
}

/// The reference to the coordinate at the place to which these steps lead.
fn reference_along(
    alloc: Global,
    level: u32,
    of: &Ty,
    place: u32,
    steps: &Row<Step>,
) -> Result<Reference, NoMemory>
    requires lead { AreSteps steps.now of.now place }
    ensures value { IfOk result (λ r. r ≡ referring level of.now place) }
{
    let of = copy(alloc, of)?;
    let steps = steps.share()?;
    Ok(Reference {
        level,
        of,
        place,
        steps,
    })
}

/// Adds the references to all coordinates of the variable of this level and type.
pub fn push_references(
    alloc: Global,
    level: u32,
    of: &Ty,
    all: &mut List<Reference>,
) -> Result<(), NoMemory>
    ensures pushed { OnOk result (all.new ≡ all.old ++ references level of.now) }
{
    let ways = steps_of(alloc, of)?;
    let count = number_of(ways.len())?;
    for place in 0..count {
        let steps = &ways.as_slice()[place as usize];
        all.push(reference_along(alloc, level, of, place, steps)?)?;
    }
    Ok(())
}

/// The same references again.
pub fn copy_references(alloc: Global, all: &[Reference]) -> Result<List<Reference>, NoMemory>
    ensures value { IfOk result (λ r. r ≡ all.now) }
{
    let mut done = List::new(alloc);
    for reference in all {
        done.push(reference.copied(alloc)?)?;
    }
    Ok(done)
}
