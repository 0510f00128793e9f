// The places of atoms in a type.
ghost use Rattle.std.specs.Prelude.{◌≡◌, [], ◌∷◌, ◌++◌, List, OnOk, map};
ghost use Rattle.conv_build.specs.declared.step.Step.{Step};
ghost use Rattle.conv_build.specs.direct.TwoPasses.{behind, leaf, leaves, leaves_all};
ghost use Rattle.conv_build.specs.direct.AlongSteps.{way_along};

use crate::cutting::cut;
use crate::numbers::total;
use crate::reference::{Reference, copy_references, push_references};
use crate::step::Step;
use sig_base::{List, NoMemory};
use std::alloc::Global;
use std::marker::Model;
use type_core::Ty;

/// Where an atom stands: below so many binders, with references for the arguments of its coordinate.
#[derive(Drop)]
pub struct Leaf {
    depth: u32,
    arguments: List<Reference>,
}

impl Model for Leaf {
    ghost use Rattle.std.specs.Coded.{codes};
    ghost use Rattle.type_core.specs.contracts.ty.Ty as types;
    ghost use Rattle.conv_build.specs.direct.TwoPasses as passes;

    ghost Value = { passes.Leaf };

    ghost coded = { Prim.hlevel (codes, types.the_row.coded) };

    ghost view = { λ leaf. record { depth = leaf.depth; arguments = leaf.arguments } };
}

impl Leaf {
    /// The number of binders.
    pub fn depth(&self) -> u32
        ensures value { result ≡ self.now.depth }
    {
        self.depth
    }

    /// The references for the arguments.
    pub fn arguments(&self) -> &[Reference]
        ensures value { result.now ≡ self.now.arguments }
    {
        self.arguments.as_slice()
    }
}

/// Adds where the atoms of the type stand in a context of `n` variables.
#[tactic(auto, using(crate::proofs::PassEquations::leaves_behind, std::proofs::lemmas::Grind::common_steps))]
pub fn push_leaves(alloc: Global, t: &Ty, n: u32, done: &mut List<Leaf>) -> Result<(), NoMemory>
    ensures pushed { OnOk result (done.new ≡ done.old ++ leaves t.now n) }
{
    let mut none = List::new(alloc);
    push_leaves_behind(alloc, t, n, &mut none, done)
}

fn push_leaf(
    alloc: Global,
    n: u32,
    before: &[Reference],
    done: &mut List<Leaf>,
) -> Result<(), NoMemory>
    ensures pushed { OnOk result (done.new ≡ done.old ++ leaf n before.now ∷ []) }
{
    let arguments = copy_references(alloc, before)?;
    done.push(Leaf {
        depth: n,
        arguments,
    })
}

/// Adds where the atoms of the type stand, each with more arguments before its own.
#[cycle(leaves)]
#[tactic(auto, using(crate::proofs::PassEquations::leaves_behind, std::proofs::lemmas::Grind::common_steps))]
fn push_leaves_behind(
    alloc: Global,
    t: &Ty,
    n: u32,
    before: &mut List<Reference>,
    done: &mut List<Leaf>,
) -> Result<(), NoMemory>
    ensures kept { OnOk result (before.new ≡ before.old) }
    ensures pushed { OnOk result (done.new ≡ done.old ++ map (behind before.old) (leaves t.now n)) }
{
    match t {
        Ty::Var(_) => push_leaf(alloc, n, before.as_slice(), done),
        Ty::Con(_, _) => push_leaf(alloc, n, before.as_slice(), done),
        Ty::Rec(_) => push_leaf(alloc, n, before.as_slice(), done),
        Ty::Tup(components) => { push_leaves_of_all(alloc, components.as_slice(), n, before, done) }
        Ty::Arrow(from, to) => {
            let inside = total(n, 1)?;
            let keep = before.len();
            push_references(alloc, n, from.get(), before)?;
            push_leaves_behind(alloc, to.get(), inside, before, done)?;
            cut(before, keep);
            Ok(())
        }
    }
}

#[cycle(leaves)]
#[tactic(auto, using(crate::proofs::PassEquations::leaves_behind, std::proofs::lemmas::Grind::common_steps))]
fn push_leaves_of_all(
    alloc: Global,
    parts: &[Ty],
    n: u32,
    before: &mut List<Reference>,
    done: &mut List<Leaf>,
) -> Result<(), NoMemory>
    ensures kept { OnOk result (before.new ≡ before.old) }
    ensures pushed { OnOk result (done.new ≡ done.old ++ map (behind before.old) (leaves_all parts.now n)) }
{
    for part in parts {
        push_leaves_behind(alloc, part, n, before, done)?;
    }
    Ok(())
}

/// Adds where the atoms stand in the arguments at these steps, in a context of `n` variables.
pub fn push_way(
    alloc: Global,
    steps: &[Step],
    n: u32,
    done: &mut List<Leaf>,
) -> Result<(), NoMemory>
    ensures pushed { OnOk result (done.new ≡ done.old ++ way_along steps.now n) }
{
    for step in steps {
        push_argument(alloc, step, n, done)?;
    }
    Ok(())
}

fn push_argument(alloc: Global, step: &Step, n: u32, done: &mut List<Leaf>) -> Result<(), NoMemory>
    ensures pushed { OnOk result ((others : List Step) → done.new ++ way_along others n ≡ done.old ++ way_along (step.now ∷ others) n) }
{
    match step {
        Step::Component(_, _) => Ok(()),
        Step::Argument(from) => push_leaves(alloc, from, n, done),
    }
}
