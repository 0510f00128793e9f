// Realizations.
ghost use Rattle.std.specs.Prelude.{◌≡◌, IfOk};

use sig_base::{List, NoMemory};
use std::alloc::Global;
use type_core::{NameId, TypeFn, copy};

/// A name, and the type function that takes its place (the Definition, section 5.2).
#[derive(Drop)]
pub struct Realization {
    pub name: NameId,
    pub fun: TypeFn,
}

/// The same realizations again.
pub fn copy_realizations(
    alloc: Global,
    realizations: &[Realization],
) -> Result<List<Realization>, NoMemory>
    ensures value { IfOk result (λ copies. copies ≡ realizations.now) }
{
    let mut copies = List::new(alloc);
    for realization in realizations {
        let fun = TypeFn {
            arity: realization.fun.arity,
            body: copy(alloc, &realization.fun.body)?,
        };
        copies.push(Realization {
            name: realization.name,
            fun,
        })?;
    }
    Ok(copies)
}
