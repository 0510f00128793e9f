// The type constructors of a library.
ghost use Rattle.std.specs.Prelude.{◌≡◌, ◌↔◌, IfOk, IsTrue, MatchOption};
ghost use Rattle.std.specs.List.{All};
ghost use Rattle.sig_base.specs.Identifiers.{IsAlphanumeric};
ghost use Rattle.lib_valid.specs.Parts.{AreAll, HasValidTycons, IsValidTycon, paths_of};

use crate::names::MAX_ARITY;
use crate::paths::{begins_with_one, is_type_path};
use crate::texts::Texts;
use crate::types::{is_type_of, is_within_limits};
use sig_base::NoMemory;
use std::alloc::Global;
use type_core::{Library, Tycon, is_type_fn};

fn is_valid_tycon(units: &Texts, lib: &Library, tycon: &Tycon) -> bool
    requires words { All IsAlphanumeric units.now }
    ensures exact { IsTrue result ↔ IsValidTycon units.now lib.now tycon.now }
{
    is_type_path(tycon.path.as_slice())
        && begins_with_one(units, tycon.path.as_slice())
        && tycon.fun.arity <= MAX_ARITY
        && is_within_limits(&tycon.fun.body)
        && is_type_fn(&tycon.fun)
        && is_type_of(lib, &tycon.fun.body)
}

fn are_valid_tycons(units: &Texts, lib: &Library, tycons: &[Tycon]) -> bool
    requires words { All IsAlphanumeric units.now }
    ensures exact { IsTrue result ↔ All (IsValidTycon units.now lib.now) tycons.now }
{
    for tycon in tycons {
        if !is_valid_tycon(units, lib, tycon) {
            return false;
        }
    }
    true
}

/// The paths of the type constructors as a set; `None` where two are equal.
fn distinct_paths(alloc: Global, tycons: &[Tycon]) -> Result<Option<Texts<'_>>, NoMemory>
    ensures exact { IfOk result (AreAll (paths_of tycons.now)) }
{
    let mut paths = Texts::new(alloc);
    for tycon in tycons {
        if !paths.add(tycon.path.as_slice())? {
            return Ok(None);
        }
    }
    Ok(Some(paths))
}

/// The paths of the type constructors, where these keep all rules, with these identifiers of units; else `None`.
pub(crate) fn valid_tycons<'a>(
    alloc: Global,
    lib: &'a Library,
    units: &Texts,
) -> Result<Option<Texts<'a>>, NoMemory>
    requires words { All IsAlphanumeric units.now }
    ensures exact { IfOk result (λ found. MatchOption found (¬ (HasValidTycons units.now lib.now)) (λ paths. HasValidTycons units.now lib.now × (paths ≡ paths_of lib.now.tycons))) }
{
    let tycons = lib.tycons.as_slice();
    if are_valid_tycons(units, lib, tycons) {
        distinct_paths(alloc, tycons)
    } else {
        Ok(None)
    }
}
