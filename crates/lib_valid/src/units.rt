// The units of a library.
ghost use Rattle.std.specs.Prelude.{◌≡◌, ◌↔◌, IfOk, IsTrue, MatchOption};
ghost use Rattle.std.specs.List.{All};
ghost use Rattle.lib_valid.specs.Parts.{AreAll, HasValidUnits, IsValidUnit, identifiers_of};

use crate::texts::Texts;
use sig_base::{NoMemory, is_alphanumeric};
use std::alloc::Global;
use type_core::{Library, Unit};

const MAX_IDENTIFIER_BYTES: usize = 255;

fn is_valid_unit(unit: &Unit) -> bool
    ensures exact { IsTrue result ↔ IsValidUnit unit.now }
{
    unit.id.len() <= MAX_IDENTIFIER_BYTES && is_alphanumeric(unit.id.as_slice())
}

fn are_valid_units(units: &[Unit]) -> bool
    ensures exact { IsTrue result ↔ All IsValidUnit units.now }
{
    for unit in units {
        if !is_valid_unit(unit) {
            return false;
        }
    }
    true
}

/// The identifiers of the units as a set; `None` where two are equal.
fn distinct_identifiers(alloc: Global, units: &[Unit]) -> Result<Option<Texts<'_>>, NoMemory>
    ensures exact { IfOk result (AreAll (identifiers_of units.now)) }
{
    let mut identifiers = Texts::new(alloc);
    for unit in units {
        if !identifiers.add(unit.id.as_slice())? {
            return Ok(None);
        }
    }
    Ok(Some(identifiers))
}

/// The identifiers of the units, where these keep all rules; else `None`.
pub(crate) fn valid_units(alloc: Global, lib: &Library) -> Result<Option<Texts<'_>>, NoMemory>
    ensures exact { IfOk result (λ found. MatchOption found (¬ (HasValidUnits lib.now)) (λ units. HasValidUnits lib.now × (units ≡ identifiers_of lib.now.units))) }
{
    let units = lib.units.as_slice();
    if are_valid_units(units) {
        distinct_identifiers(alloc, units)
    } else {
        Ok(None)
    }
}
