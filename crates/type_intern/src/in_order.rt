// Lists of numbers of coordinates, as they come and in their order.
ghost use Rattle.std.specs.Prelude.{◌≡◌, IfOk};
ghost use Rattle.type_intern.specs.Sorting.{sorted};
ghost use Rattle.type_intern.specs.Tops.{numbers_of};

use crate::node::CoordId;
use sig_base::{List, NoMemory};
use std::alloc::Global;

/// The numbers as they come.
pub fn in_source_order(alloc: Global, ids: &[CoordId]) -> Result<List<CoordId>, NoMemory>
    ensures value { IfOk result (λ list. list ≡ ids.now) }
{
    Ok(List::from_vec(Vec::from_slice(alloc, ids)?))
}

/// The numbers in their order.
pub fn in_order(ids: Vec<CoordId>) -> List<CoordId>
    ensures value { numbers_of result ≡ sorted (numbers_of ids.items) }
{
    let mut ids = ids;
    ids.sort_unstable();
    List::from_vec(ids)
}
