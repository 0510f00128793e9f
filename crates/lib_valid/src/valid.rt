// Whether a library is valid.
ghost use Rattle.std.specs.Prelude.{◌↔◌, IfOk, IsTrue};
ghost use Rattle.type_core.specs.ValidLibrary.{IsValidLibrary};

use crate::members::has_valid_members;
use crate::names::has_valid_names;
use crate::tycons::valid_tycons;
use crate::units::valid_units;
use crate::weights::weigh;
use sig_base::NoMemory;
use std::alloc::Global;
use type_core::Library;

const MAX_WEIGHT: u64 = 8_000_000;

/// Whether the library meets all rules of a valid one.
///
/// The only refusal is want of memory.
pub fn is_valid_library(alloc: Global, lib: &Library) -> Result<bool, NoMemory>
    ensures exact { IfOk result (λ valid. IsTrue valid ↔ IsValidLibrary lib.now) }
{
    if weigh(lib) > MAX_WEIGHT {
        return Ok(false);
    }
    let units = match valid_units(alloc, lib)? {
        Some(units) => units,
        None => return Ok(false),
    };
    let tycons = match valid_tycons(alloc, lib, &units)? {
        Some(tycons) => tycons,
        None => return Ok(false),
    };
    if !has_valid_members(alloc, lib, &units)? {
        return Ok(false);
    }
    has_valid_names(alloc, lib, &units, &tycons)
}
