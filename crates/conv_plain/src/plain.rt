// The plain converter.
ghost use Rattle.std.specs.Prelude.{◌≡◌, IfOk};
ghost use Rattle.type_core.specs.Coordinates.{coordinates};
ghost use Rattle.type_core.specs.Types.{IsType};
ghost use Rattle.iso_normal.specs.PairTrees.{inverse};
ghost use Rattle.iso_normal.specs.Pairings.{Pairs};
ghost use Rattle.conv_typing.specs.InversePair.{IsInversePair};
ghost use Rattle.conv_plain.specs.PlainConverter.{plain_converter};

use crate::functions::abstraction;
use crate::moving::moved;
use crate::split_join::{join, split, variable};
use conv_terms::Term;
use iso_normal::{PairTree, normal};
use sig_base::NoMemory;
use std::alloc::Global;
use type_core::Ty;

/// The plain converter from `a` to `b` along `p`, which pairs their coordinates with no renaming.
pub fn redex_form(alloc: Global, a: &Ty, b: &Ty, p: &PairTree) -> Result<Term, NoMemory>
    requires from { IsType a.now }
    requires to { IsType b.now }
    requires paired { Pairs ◌≡◌ (coordinates a.now) (coordinates b.now) p.now }
    ensures value { IfOk result (λ r. r ≡ plain_converter a.now b.now p.now) }
    ensures inverse { IfOk result (λ r. IsInversePair a.now b.now r (plain_converter b.now a.now (inverse p.now))) }
{
    converter(alloc, a, b, p)
}

/// The argument is split, moved along the pairing and joined.
pub fn converter(alloc: Global, a: &Ty, b: &Ty, p: &PairTree) -> Result<Term, NoMemory>
    ensures value { IfOk result (λ r. r ≡ plain_converter a.now b.now p.now) }
{
    let first = normal(alloc, a)?;
    let second = normal(alloc, b)?;
    let argument = variable(0);
    let terms = split(alloc, a, 1, &argument)?;
    let terms = moved(
        alloc,
        p,
        first.as_slice(),
        second.as_slice(),
        1,
        terms.as_slice(),
    )?;
    let body = join(alloc, b, 1, terms.as_slice())?;
    abstraction(alloc, a, body)
}
