// How a member's scheme compares with the query's.
ghost use Rattle.std.specs.Prelude.{◌≡◌, ◌<◌, ◌^◌, None, IfOk, IfSome, min};
ghost use Rattle.type_core.specs.Coordinates.{coordinates};
ghost use Rattle.type_core.specs.NormalSize.{normal_size_of};
ghost use Rattle.type_core.specs.Schemes.{IsScheme};
ghost use Rattle.type_core.specs.Size.{size_of};
ghost use Rattle.type_core.specs.Types.{IsType};
ghost use Rattle.iso_axioms.specs.SchemeEquality.{AreEqualIn};
ghost use Rattle.iso_axioms.specs.Theory.{IsIsomorphic};
ghost use Rattle.search_core.specs.Comparing.{IsComparison};
ghost use Rattle.search_core.specs.Converters.{IsLeastWith};
ghost use Rattle.search_core.specs.Search.{CanBeSearchedFor};

use crate::answer::Mode;
use crate::converting::Paired;
use crate::matching::matched;
use coord_match::first;
use iso_normal::{PairTree, isomorphic_schemes_have_pairings, normal, pairing};
use linear_match::Instance;
use sig_base::{List, NoMemory};
use std::alloc::Global;
use type_core::{Coordinate, Scheme, TypeName, equal_schemes, normal_size};

/// What was found of a member that a mode finds.
#[derive(Drop)]
pub enum Found {
    /// Its scheme is the query's but for the names of variables.
    Equal,
    /// Its coordinates are paired with the query's.
    Paired(Paired),
    /// The instance of its scheme that is linearly isomorphic to the query's type, and a pairing of the two.
    Matched(Instance, PairTree),
}

/// How a member's scheme compares with the query's.
#[derive(Drop)]
pub enum Comparison {
    /// The mode doesn't find the member.
    Apart,
    /// It finds the member, by this.
    Found(Found),
}

/// How a scheme compares with the query's in the mode.
///
/// `wanted` are the query's coordinates, and `size` is its normal size: they are found once, for all members.
pub fn compared(
    alloc: Global,
    names: &List<TypeName>,
    mode: Mode,
    scheme: &Scheme,
    query: &Scheme,
    wanted: &List<Coordinate>,
    size: u64,
) -> Result<Comparison, NoMemory>
    requires scheme { IsScheme scheme.now }
    requires type_ { IsType scheme.now.body }
    requires few { size_of scheme.now.body < 2 ^ 32 }
    requires query { CanBeSearchedFor query.now }
    requires wanted { wanted.now ≡ coordinates query.now.body }
    requires size { size ≡ min (normal_size_of query.now.body) u64.MAX }
    ensures { IfOk result (IsComparison names.now mode scheme.now query.now) }
{
    match mode {
        Mode::Same => {
            if equal_schemes(scheme, query) {
                Ok(Comparison::Found(Found::Equal))
            } else {
                Ok(Comparison::Apart)
            }
        }
        Mode::Iso => match least_pairing(alloc, scheme, query, wanted, size)? {
            Some(pairing) => Ok(Comparison::Found(Found::Paired(pairing))),
            None => Ok(Comparison::Apart),
        },
        Mode::General => matched(alloc, names, scheme, query, wanted),
    }
}

/// The least consistent pairing of the coordinates of two schemes; `None` exactly where they aren't equal up to
/// isomorphism.
///
/// Schemes of different normal sizes aren't equal. So the coordinates of most members are never made.
fn least_pairing(
    alloc: Global,
    scheme: &Scheme,
    query: &Scheme,
    wanted: &List<Coordinate>,
    size: u64,
) -> Result<Option<Paired>, NoMemory>
    requires scheme { IsScheme scheme.now }
    requires type_ { IsType scheme.now.body }
    requires query { CanBeSearchedFor query.now }
    requires wanted { wanted.now ≡ coordinates query.now.body }
    requires size { size ≡ min (normal_size_of query.now.body) u64.MAX }
    ensures equal { IfOk result (λ found. IfSome found (λ _. AreEqualIn IsIsomorphic scheme.now query.now)) }
    ensures found { IfOk result (λ found. IfSome found (λ pairing.
        IsLeastWith scheme.now query.now pairing.partners pairing.tree)) }
    ensures none { IfOk result (λ found. found ≡ None → ¬ (AreEqualIn IsIsomorphic scheme.now query.now)) }
{
    isomorphic_schemes_have_pairings();
    if normal_size(&scheme.body) != size {
        return Ok(None);
    }
    let own = normal(alloc, &scheme.body)?;
    let Some(pairs) = first(alloc, &own, wanted)? else {
        return Ok(None);
    };
    match pairing(alloc, &own, pairs.word.as_slice())? {
        Some(tree) => Ok(Some(Paired {
            tree,
            partners: pairs.names,
        })),
        None => Ok(None),
    }
}
