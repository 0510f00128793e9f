// The converters of a pairing, in the form in which they are printed.
ghost use Rattle.std.specs.Prelude.{◌≡◌, [], IfOk};
ghost use Rattle.type_core.specs.declared.ty.Ty.TheVariants as ty;
ghost use Rattle.type_core.specs.Coordinates.{coordinates};
ghost use Rattle.type_core.specs.Types.{IsType};
ghost use Rattle.iso_normal.specs.PairTrees.{IsPermuted, inverse};
ghost use Rattle.iso_normal.specs.Pairings.{Pairs};
ghost use Rattle.conv_terms.specs.Contraction.{IsContraction};
ghost use Rattle.conv_terms.specs.ShortNormal.{IsShortNormal};
ghost use Rattle.conv_plain.specs.PlainConverter.{plain_converter};
ghost use Rattle.conv_typing.specs.Conversion.{Converts};
ghost use Rattle.conv_typing.specs.Typing.{HasType};
ghost use Rattle.conv_typing.specs.InversePair.{IsInversePair};
ghost use Rattle.conv_build.specs.ShortConverter.{IsShortConverter};
ghost use Rattle.conv_build.specs.direct.DirectConverter.{direct_converter};

use crate::building::{abstraction, built};
use crate::emitting::sent;
use crate::leaves::push_leaves;
use crate::reference::push_references;
use conv_terms::{Term, contract};
use iso_normal::{PairTree, inverse};
use sig_base::{List, NoMemory};
use std::alloc::Global;
use type_core::Ty;

/// The two converters of a pairing.
#[derive(Drop)]
pub struct Converters {
    pub to: Term,
    pub from: Term,
}

/// The converters from `a` to `b` and back along `p`, which pairs their coordinates with no renaming: each is the plain
/// converter with all redexes reduced and then contracted. Nothing is reduced on the way: the long form is made
/// straight from the pairing. Want of memory also where 2^32 binders would stand within one another.
pub fn build(alloc: Global, a: &Ty, b: &Ty, p: &PairTree) -> Result<Converters, NoMemory>
    requires from { IsType a.now }
    requires to { IsType b.now }
    requires paired { Pairs ◌≡◌ (coordinates a.now) (coordinates b.now) p.now }
    ensures to { IfOk result (λ r. IsShortConverter a.now b.now p.now r.to) }
    ensures from { IfOk result (λ r. IsShortConverter b.now a.now (inverse p.now) r.from) }
    ensures inverse_pair { IfOk result (λ r. IsInversePair a.now b.now r.to r.from) }
    ensures to_type { IfOk result (λ r. HasType [] r.to (ty.Arrow a.now b.now)) }
    ensures from_type { IfOk result (λ r. HasType [] r.from (ty.Arrow b.now a.now)) }
    ensures converts { IfOk result (λ r. Converts [] (ty.Arrow a.now b.now) (plain_converter a.now b.now p.now) r.to
        × Converts [] (ty.Arrow b.now a.now) (plain_converter b.now a.now (inverse p.now)) r.from) }
    ensures short { IfOk result (λ r. IsShortNormal 0 r.to × IsShortNormal 0 r.from) }
{
    contracted(alloc, a, b, p)
}

/// The direct converters, contracted.
pub fn contracted(alloc: Global, a: &Ty, b: &Ty, p: &PairTree) -> Result<Converters, NoMemory>
    requires permuted { IsPermuted p.now }
    ensures value { IfOk result (λ r. IsContraction 0 (direct_converter a.now b.now p.now) r.to × IsContraction 0 (direct_converter b.now a.now (inverse p.now)) r.from) }
{
    let q = inverse(alloc, p)?;
    let to = direct(alloc, a, b, p, &q)?;
    let to = contract(alloc, to)?;
    let from = direct(alloc, b, a, &q, p)?;
    let from = contract(alloc, from)?;
    Ok(Converters { to, from })
}

/// The direct converter from `a` to `b` along `p`, whose inverse is `q`.
fn direct(alloc: Global, a: &Ty, b: &Ty, p: &PairTree, q: &PairTree) -> Result<Term, NoMemory>
    requires permuted { IsPermuted p.now }
    requires inverse { q.now ≡ inverse p.now }
    ensures value { IfOk result (λ r. r ≡ direct_converter a.now b.now p.now) }
{
    let mut references = List::new(alloc);
    push_references(alloc, 0, a, &mut references)?;
    let mut leaves = List::new(alloc);
    push_leaves(alloc, b, 1, &mut leaves)?;
    let mut terms = sent(alloc, p, q, references.as_slice(), leaves.as_slice())?;
    let body = built(alloc, b, &mut terms)?;
    abstraction(alloc, a, body)
}
