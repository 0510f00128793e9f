// The instance of a scheme that matches the query, and its pairing with it.
ghost use Rattle.std.specs.Prelude.{◌≡◌, ◌<◌, ◌^◌, None, IfOk, IfSome};
ghost use Rattle.type_core.specs.Coordinates.{coordinates};
ghost use Rattle.type_core.specs.Schemes.{IsScheme};
ghost use Rattle.type_core.specs.Size.{size_of};
ghost use Rattle.type_core.specs.Types.{IsType};
ghost use Rattle.iso_axioms.specs.Theory.{IsIsomorphic};
ghost use Rattle.iso_normal.specs.Shapes.{nodes_of};
ghost use Rattle.coord_match.specs.LeastPairing.{IsLeastIdentical};
ghost use Rattle.search_core.specs.declared.answer.Mode.TheVariants as mode;
ghost use Rattle.search_core.specs.Comparing.{IsComparison};
ghost use Rattle.search_core.specs.Search.{CanBeSearchedFor};

use crate::comparing::{Comparison, Found};
use coord_match::first_identical;
use iso_axioms::{linear_is_isomorphic, theories_relate_types};
use iso_normal::{PairTree, isomorphic_types_have_pairings, normal, pairing};
use linear_match::first;
use sig_base::{List, NoMemory};
use std::alloc::Global;
use type_core::{Coordinate, Scheme, Ty, TypeName};

/// How a scheme compares with the query's in mode `General`; `wanted` are the query's coordinates.
pub fn matched(
    alloc: Global,
    names: &List<TypeName>,
    scheme: &Scheme,
    query: &Scheme,
    wanted: &List<Coordinate>,
) -> Result<Comparison, NoMemory>
    requires scheme { IsScheme scheme.now }
    requires type_ { IsType scheme.now.body }
    requires few { size_of scheme.now.body < 2 ^ 32 }
    requires query { CanBeSearchedFor query.now }
    requires wanted { wanted.now ≡ coordinates query.now.body }
    ensures { IfOk result (IsComparison names.now mode.General scheme.now query.now) }
{
    linear_is_isomorphic();
    theories_relate_types();
    let Some(instance) = first(alloc, names, scheme, &query.body)? else {
        return Ok(Comparison::Apart);
    };
    let Some(pairing) = identical_pairing(alloc, &instance.body, &query.body, wanted)? else {
        return Ok(Comparison::Apart);
    };
    Ok(Comparison::Found(Found::Matched(instance, pairing)))
}

/// The least pairing of the coordinates of two types that has identical heads; `None` exactly where the types aren't
/// isomorphic.
fn identical_pairing(
    alloc: Global,
    a: &Ty,
    b: &Ty,
    wanted: &List<Coordinate>,
) -> Result<Option<PairTree>, NoMemory>
    requires a { IsType a.now }
    requires b { IsType b.now }
    requires wanted { wanted.now ≡ coordinates b.now }
    requires few { nodes_of wanted.now < 2 ^ 32 }
    ensures found { IfOk result (λ found. IfSome found (IsLeastIdentical (coordinates a.now) (coordinates b.now))) }
    ensures none { IfOk result (λ found. found ≡ None → ¬ (IsIsomorphic a.now b.now)) }
{
    isomorphic_types_have_pairings();
    let own = normal(alloc, a)?;
    let Some(word) = first_identical(alloc, &own, wanted)? else {
        return Ok(None);
    };
    pairing(alloc, &own, word.as_slice())
}
