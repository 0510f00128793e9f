// A table by hand, and what names mean in it.
ghost use Rattle.std.specs.Prelude.{◌≡◌, IfOk, slice_get};
ghost use Rattle.type_core.specs.Types.{IsOver};
ghost use Rattle.elab_env.specs.Names.{arity_of};

use crate::{NameTable, denoted_name, name_function};
use sig_base::{NoMemory, Row, Text};
use std::alloc::Global;
use std::test::Fail;
use type_core::{Equality, NameId, Ty, TypeFn, same};

/// A call on a table with what it is to give, or what is to hold of it by then.
#[derive(Clone, Copy)]
enum Step {
    /// So many names.
    Count(u32),
    /// A file's name of this arity gets the number.
    Describe(u32, Equality, u32),
    /// The external name of this path and arity has the number.
    Mention(&'static str, u32, u32),
    Free(u32, bool),
    Admits(u32, Equality),
    Settle(u32, Equality),
    Join(u32, u32),
    /// The name is unit, whatever its arguments are.
    Unit(u32),
    /// What the name means by now, at its parameters, has so many nodes.
    Size(u32, u64),
    /// The one name means the other.
    Means(u32, u32),
    /// What follows is of a copy.
    Copy,
}

fn describes(
    alloc: Global,
    table: &mut NameTable,
    arity: u32,
    equality: Equality,
) -> Result<NameId, NoMemory> {
    if table.len() > 1000 {
        return Err(NoMemory);
    }
    let path = Text::from_slice(alloc, b"S.t")?;
    table.describe(path, arity, equality)
}

fn mentions(
    alloc: Global,
    table: &mut NameTable,
    path: &str,
    arity: u32,
) -> Result<NameId, NoMemory> {
    if table.len() > 1000 {
        return Err(NoMemory);
    }
    let path = Text::from_slice(alloc, path.as_bytes())?;
    table.external(path, arity)
}

fn arity(table: &NameTable, n: NameId) -> u32
    ensures value { result ≡ arity_of (slice_get table.now.names n.0) }
{
    if n.0 >= table.len() {
        return 0;
    }
    table.name(n).arity
}

fn admits(table: &NameTable, n: NameId, equality: Equality) -> bool {
    n.0 < table.len() && table.name(n).equality == equality
}

fn settles(table: &mut NameTable, n: NameId, equality: Equality) -> bool {
    if !table.is_free(n) {
        return false;
    }
    table.settle(n, equality);
    true
}

fn joins(table: &mut NameTable, a: NameId, b: NameId) -> Result<bool, NoMemory> {
    if !table.is_free(a) || !table.is_free(b) || arity(table, a) != arity(table, b) {
        return Ok(false);
    }
    table.join(a, b)?;
    Ok(true)
}

fn realizes(table: &mut NameTable, n: NameId) -> Result<bool, NoMemory> {
    if !table.is_free(n) {
        return Ok(false);
    }
    let arity = arity(table, n);
    let body = Ty::Tup(Row::empty());
    table.realize(n, TypeFn { arity, body })?;
    Ok(true)
}

/// The name applied to its parameters.
fn applied(alloc: Global, table: &NameTable, n: NameId) -> Result<Ty, NoMemory>
    ensures over { IfOk result (IsOver table.now.names) }
{
    if n.0 >= table.len() {
        return Err(NoMemory);
    }
    let TypeFn { body, .. } = name_function(alloc, n, table.name(n).arity)?;
    Ok(body)
}

fn has_size(alloc: Global, table: &NameTable, n: NameId, size: u64) -> Result<bool, NoMemory> {
    let t = applied(alloc, table, n)?;
    Ok(table.resolved_size(&t) == size)
}

/// What the name, applied to its parameters, means by now.
fn meaning(alloc: Global, table: &NameTable, n: NameId) -> Result<Ty, NoMemory> {
    let t = applied(alloc, table, n)?;
    table.resolve(alloc, &t)
}

fn means(alloc: Global, table: &NameTable, n: NameId, m: NameId) -> Result<bool, NoMemory> {
    let meaning = meaning(alloc, table, n)?;
    Ok(same(&meaning, &applied(alloc, table, m)?))
}

fn copies(alloc: Global, table: &mut NameTable) -> Result<bool, NoMemory> {
    *table = table.copy(alloc)?;
    Ok(true)
}

/// Whether the step gives what it is to give.
fn holds(alloc: Global, table: &mut NameTable, step: Step) -> Result<bool, NoMemory> {
    match step {
        Step::Count(count) => Ok(table.len() == count),
        Step::Describe(arity, equality, number) => {
            Ok(describes(alloc, table, arity, equality)? == NameId(number))
        }
        Step::Mention(path, arity, number) => Ok(
            mentions(alloc, table, path, arity)? == NameId(number),
        ),
        Step::Free(n, free) => Ok(table.is_free(NameId(n)) == free),
        Step::Admits(n, equality) => Ok(admits(table, NameId(n), equality)),
        Step::Settle(n, equality) => Ok(settles(table, NameId(n), equality)),
        Step::Join(a, b) => joins(table, NameId(a), NameId(b)),
        Step::Unit(n) => realizes(table, NameId(n)),
        Step::Size(n, size) => has_size(alloc, table, NameId(n), size),
        Step::Means(n, m) => means(alloc, table, NameId(n), NameId(m)),
        Step::Copy => copies(alloc, table),
    }
}

// The greater of two joined names is the lesser, which keeps the equality of either; `list` is number 9.
#[test]
fn names_are_numbered_joined_and_realized(rt: HostRuntime) -> Result<(), Fail> {
    let mut table = NameTable::new(rt.alloc())?;
    let steps = [
        Step::Count(14),
        Step::Free(0, false),
        Step::Size(9, 2),
        Step::Mention("Map.map", 2, 14),
        Step::Mention("Map.map", 1, 15),
        Step::Mention("Map.map", 2, 14),
        Step::Free(14, false),
        Step::Describe(1, Equality::Never, 16),
        Step::Describe(1, Equality::IfArgs, 17),
        Step::Describe(1, Equality::Never, 18),
        Step::Count(19),
        Step::Free(18, true),
        Step::Join(18, 17),
        Step::Means(18, 17),
        Step::Means(17, 17),
        Step::Join(16, 17),
        Step::Admits(16, Equality::IfArgs),
        Step::Free(17, false),
        Step::Free(16, true),
        Step::Means(18, 16),
        Step::Copy,
        Step::Settle(16, Equality::Always),
        Step::Admits(16, Equality::Always),
        Step::Size(18, 2),
        Step::Unit(16),
        Step::Size(18, 1),
        Step::Free(16, false),
        Step::Count(19),
    ];
    for (i, step) in steps.into_iter().enumerate() {
        assert!(rt; holds(rt.alloc(), &mut table, step)?, "step {i}");
    }
    Ok(())
}

/// The name that a function of this arity is, of which the body is `list` at so many parameters.
fn denoted(alloc: Global, parameters: u32, arity: u32) -> Result<Option<NameId>, NoMemory> {
    let TypeFn { body, .. } = name_function(alloc, NameId(9), parameters)?;
    Ok(denoted_name(&TypeFn { arity, body }))
}

#[test]
fn functions_that_are_names_are_told(rt: HostRuntime) -> Result<(), Fail> {
    for (arity, name) in [(2, Some(NameId(9))), (3, None)] {
        assert_eq!(rt; denoted(rt.alloc(), 2, arity)?, name);
    }
    Ok(())
}
