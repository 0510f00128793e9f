// The names that are left, numbered without gaps.
ghost use Rattle.std.specs.Prelude.{◌≡◌, ◌<◌, ℕ, IfOk, length, slice_get, slice_index_or, Some, false, not};
ghost use Rattle.elab_rules.specs.Library.{kept_names, number_kept};
ghost use Rattle.elab_rules.specs.Views.{gone_of};

use elab_env::NameTable;
use elab_rules::copying::copy_name;
use sig_base::{List, NoMemory};
use std::alloc::Global;
use type_core::{NameId, TypeName};

// How many names are initial.
const INITIAL: u32 = 14;

// Whether the name is left: it was neither realized nor joined away.
fn is_kept(table: &NameTable, n: u32) -> bool
    requires within { n < length table.now.names }
    ensures value { result ≡ not (slice_index_or (gone_of table.now) n false) }
{
    table.is_sound();
    n < INITIAL || table.name(NameId(n)).external || table.is_free(NameId(n))
}

/// For each name the number that it has where those that are gone are left out.
pub fn numbers_kept(alloc: Global, table: &NameTable) -> Result<Vec<u32>, NoMemory>
    ensures value { IfOk result (λ numbers. (n : ℕ) → n < length table.now.names → slice_get numbers.items n ≡ Some (number_kept (gone_of table.now) n)) }
{
    let mut numbers = Vec::new(alloc);
    let mut kept: u32 = 0;
    for n in 0..table.len() {
        numbers.push(kept)?;
        if is_kept(table, n) {
            kept = kept.saturating_add(1);
        }
    }
    Ok(numbers)
}

/// The names that are left.
pub fn all_names(alloc: Global, table: &NameTable) -> Result<List<TypeName>, NoMemory>
    ensures value { IfOk result (λ names. names ≡ kept_names table.now.names (gone_of table.now)) }
{
    let mut names = List::new(alloc);
    for n in 0..table.len() {
        if is_kept(table, n) {
            names.push(copy_name(alloc, table.name(NameId(n)))?)?;
        }
    }
    Ok(names)
}
