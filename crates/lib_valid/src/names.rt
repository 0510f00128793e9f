// The names of a library.
ghost use Rattle.std.specs.Prelude.{◌≡◌, ◌↔◌, ◌++◌, IfOk, IsTrue, MatchOption, length, map, not, take};
ghost use Rattle.std.specs.List.{All, filter};
ghost use Rattle.sig_base.specs.Identifiers.{IsAlphanumeric};
ghost use Rattle.type_core.specs.InitialNames.{initial_names};
ghost use Rattle.type_core.specs.ValidLibrary.{AreDistinct, own_names, path_and_arity};
ghost use Rattle.lib_valid.specs.Parts.{HasValidNames, IsDescribed, IsExternal, IsValidName};

use crate::external::PathsAndArities;
use crate::paths::{begins_with_one, is_type_path};
use crate::texts::Texts;
use sig_base::NoMemory;
use std::alloc::Global;
use type_core::{Equality, Library, TypeName, initial_names};

pub(crate) const MAX_ARITY: u32 = 1_999;

fn is_same_name(a: &TypeName, b: &TypeName) -> bool
    ensures exact { IsTrue result ↔ (a.now ≡ b.now) }
{
    a.path == b.path && a.arity == b.arity && a.equality == b.equality && a.external == b.external
}

/// Whether the names begin with these.
fn begin_with(names: &[TypeName], first: &[TypeName]) -> bool
    ensures exact { IsTrue result ↔ (take (length first.now) names.now ≡ first.now) }
{
    if names.len() < first.len() {
        return false;
    }
    for i in 0..first.len() {
        if !is_same_name(&names[i], &first[i]) {
            return false;
        }
    }
    true
}

/// The names after the initial ones; `None` where the names don't begin with these.
fn own_names(alloc: Global, lib: &Library) -> Result<Option<&[TypeName]>, NoMemory>
    ensures exact { IfOk result (λ found. MatchOption found (¬ (lib.now.names ≡ initial_names ++ own_names lib.now)) (λ own. (own.now ≡ own_names lib.now) × (lib.now.names ≡ initial_names ++ own_names lib.now))) }
{
    let initial = initial_names(alloc)?;
    let names = lib.names.as_slice();
    if begin_with(names, initial.as_slice()) {
        Ok(Some(&names[initial.len()..]))
    } else {
        Ok(None)
    }
}

fn is_described(units: &Texts, tycons: &Texts, name: &TypeName) -> bool
    requires words { All IsAlphanumeric units.now }
    ensures exact { IsTrue result ↔ IsDescribed units.now tycons.now name.now }
{
    name.equality != Equality::Always
        && begins_with_one(units, name.path.as_slice())
        && tycons.has(name.path.as_slice())
}

fn is_external(units: &Texts, name: &TypeName) -> bool
    requires words { All IsAlphanumeric units.now }
    ensures exact { IsTrue result ↔ IsExternal units.now name.now }
{
    name.equality == Equality::IfArgs && !begins_with_one(units, name.path.as_slice())
}

fn is_valid_name(units: &Texts, tycons: &Texts, name: &TypeName) -> bool
    requires words { All IsAlphanumeric units.now }
    ensures exact { IsTrue result ↔ IsValidName units.now tycons.now name.now }
{
    if !is_type_path(name.path.as_slice()) || name.arity > MAX_ARITY {
        return false;
    }
    if name.external {
        is_external(units, name)
    } else {
        is_described(units, tycons, name)
    }
}

fn are_valid_names(units: &Texts, tycons: &Texts, names: &[TypeName]) -> bool
    requires words { All IsAlphanumeric units.now }
    ensures exact { IsTrue result ↔ All (IsValidName units.now tycons.now) names.now }
{
    for name in names {
        if !is_valid_name(units, tycons, name) {
            return false;
        }
    }
    true
}

fn are_described_distinct(alloc: Global, names: &[TypeName]) -> Result<bool, NoMemory>
    ensures exact { IfOk result (λ distinct. IsTrue distinct ↔ AreDistinct (map (λ name. name.path) (filter (λ name. not name.external) names.now))) }
{
    let mut paths = Texts::new(alloc);
    for name in names {
        if !name.external && !paths.add(name.path.as_slice())? {
            return Ok(false);
        }
    }
    Ok(true)
}

fn are_external_distinct(alloc: Global, names: &[TypeName]) -> Result<bool, NoMemory>
    ensures exact { IfOk result (λ distinct. IsTrue distinct ↔ AreDistinct (map path_and_arity (filter (λ name. name.external) names.now))) }
{
    let mut pairs = PathsAndArities::new(alloc);
    for name in names {
        if name.external && !pairs.add(name.path.as_slice(), name.arity)? {
            return Ok(false);
        }
    }
    Ok(true)
}

/// Whether the names keep all rules, where these are the identifiers of units and the paths of type constructors.
pub(crate) fn has_valid_names(
    alloc: Global,
    lib: &Library,
    units: &Texts,
    tycons: &Texts,
) -> Result<bool, NoMemory>
    requires words { All IsAlphanumeric units.now }
    ensures exact { IfOk result (λ valid. IsTrue valid ↔ HasValidNames units.now tycons.now lib.now) }
{
    let own = match own_names(alloc, lib)? {
        Some(own) => own,
        None => return Ok(false),
    };
    let described = are_described_distinct(alloc, own)?;
    let external = are_external_distinct(alloc, own)?;
    Ok(described && external && are_valid_names(units, tycons, own))
}
