// Lists of factors joined without copies.
ghost use Rattle.std.specs.Prelude.{◌≡◌, ◌++◌, IfOk, OnOk, reverse};

use crate::factor::Factor;
use sig_base::{List, NoMemory};
use std::alloc::Global;

/// Moves the factors of one list to the end of another.
pub(crate) fn append(
    alloc: Global,
    to: &mut List<Factor>,
    more: List<Factor>,
) -> Result<(), NoMemory>
    ensures added { OnOk result (to.new ≡ to.old ++ more) }
{
    let mut left = reversed(alloc, more)?;
    while let Some(f) = left.pop() {
        to.push(f)?;
    }
    Ok(())
}

fn reversed(alloc: Global, fs: List<Factor>) -> Result<List<Factor>, NoMemory>
    ensures value { IfOk result (λ r. r ≡ reverse fs) }
{
    let mut left = fs;
    let mut done = List::new(alloc);
    while let Some(f) = left.pop() {
        done.push(f)?;
    }
    Ok(done)
}
