// Names that may be realized or shared (the Definition, sections 5.2 and 5.7).
ghost use Rattle.elab_env.specs.Table.{is_free};
ghost use Rattle.type_core.specs.Types.{IsOver};
ghost use Rattle.std.specs.Prelude.{◌≡◌, IfOk, IfSome, IsTrue, ◌≤◌};
ghost use Rattle.std.specs.Option.{option_map};
ghost use Rattle.elab_env.specs.Realizations.{function_resolved};
ghost use Rattle.elab_rules.specs.Replacing.{denoted, flexible};
ghost use Rattle.elab_rules.specs.Views.{number_of, state_of};

use crate::look_ups::resolved;
use elab_env::denoted_name;
use elab_rules::progress::Progress;
use sig_base::NoMemory;
use std::alloc::Global;
use type_core::{NameId, TypeFn};

/// The flexible name that a type function denotes by now, for an expression that began with so many names.
pub fn flexible(
    alloc: Global,
    base: u32,
    fun: &TypeFn,
    progress: &Progress,
) -> Result<Option<NameId>, NoMemory>
    requires over { IsOver progress.now.table.names fun.now.body }
    ensures value { IfOk result (λ n. number_of n ≡ flexible base (state_of progress.now) (function_resolved progress.now.table.realizations fun.now)) }
    ensures free { IfOk result (λ found. IfSome found (λ n. (IsTrue (is_free progress.now.table n.0)) × (base ≤ n.0))) }
{
    let fun = resolved(alloc, &progress.table, fun)?;
    Ok(flexible_name(base, &fun, progress))
}

/// The flexible name that a type function denotes.
pub fn flexible_name(base: u32, fun: &TypeFn, progress: &Progress) -> Option<NameId>
    ensures value { number_of result ≡ flexible base (state_of progress.now) fun.now }
    ensures free { IfSome result (λ n. (IsTrue (is_free progress.now.table n.0)) × (base ≤ n.0)) }
{
    let n = denoted_name(fun)?;
    if n.0 < base {
        return None;
    }
    if !progress.table.is_free(n) {
        return None;
    }
    Some(n)
}
