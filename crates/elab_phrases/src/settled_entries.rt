// Entries whose types are what they mean by now.
ghost use Rattle.type_core.specs.Types.{IsOver};
ghost use Rattle.std.specs.Prelude.{◌≡◌, IfOk, [], ◌∷◌};
ghost use Rattle.elab_env.specs.Realizations.{resolved as resolved_by};
ghost use Rattle.elab_rules.specs.Replacing.{entry_with, environment_with, type_with, value_with};
ghost use Rattle.elab_rules.specs.Standing.{AreOver, IsSettledScheme};

use crate::look_ups::resolved;
use elab_env::NameTable;
use elab_rules::closing::scheme_of;
use elab_rules::copying::copy_texts;
use elab_rules::entry::{Entry, TypeEntry, ValueEntry};
use sig_base::{List, NoMemory, Text};
use std::alloc::Global;

// A type constructor, with what it means by now.
fn type_by_now(alloc: Global, entry: &TypeEntry, table: &NameTable) -> Result<TypeEntry, NoMemory>
    requires over { IsOver table.now.names entry.now.fun.body }
    ensures value { IfOk result (λ settled. settled ≡ type_with (resolved_by table.now.realizations) entry.now) }
{
    Ok(TypeEntry {
        id: Text::from_slice(alloc, entry.id.as_slice())?,
        fun: resolved(alloc, table, &entry.fun)?,
        constructors: copy_texts(alloc, entry.constructors.as_slice())?,
    })
}

/// A value with the scheme that it has by now.
pub fn value_by_now(
    alloc: Global,
    entry: &ValueEntry,
    table: &NameTable,
) -> Result<ValueEntry, NoMemory>
    requires over { IsOver table.now.names entry.now.scheme.body }
    ensures value { IfOk result (λ settled. settled ≡ value_with (resolved_by table.now.realizations) entry.now) }
    ensures settled { IfOk result (λ settled. IsSettledScheme table.now settled.scheme) }
{
    table.is_sound();
    let body = table.resolve(alloc, &entry.scheme.body)?;
    Ok(ValueEntry {
        id: Text::from_slice(alloc, entry.id.as_slice())?,
        kind: entry.kind,
        scheme: scheme_of(alloc, &body)?,
    })
}

// An entry with what its types mean by now.
#[cycle(by_now)]
fn entry_by_now(alloc: Global, entry: &Entry, table: &NameTable) -> Result<Entry, NoMemory>
    requires over { AreOver table.now.names (entry.now ∷ []) }
    ensures value { IfOk result (λ settled. settled ≡ entry_with (resolved_by table.now.realizations) entry.now) }
{
    match entry {
        Entry::Tycon(entry) => Ok(Entry::Tycon(type_by_now(alloc, entry, table)?)),
        Entry::Value(entry) => Ok(Entry::Value(value_by_now(alloc, entry, table)?)),
        Entry::Structure(id, entries) => {
            let id = Text::from_slice(alloc, id.as_slice())?;
            let entries = entries_by_now(alloc, entries.as_slice(), table)?;
            Ok(Entry::Structure(id, List::from_vec(entries)))
        }
    }
}

/// Entries with what their types mean by now.
#[cycle(by_now)]
pub fn entries_by_now(
    alloc: Global,
    entries: &[Entry],
    table: &NameTable,
) -> Result<Vec<Entry>, NoMemory>
    requires over { AreOver table.now.names entries.now }
    ensures value { IfOk result (λ settled. settled.items ≡ environment_with (resolved_by table.now.realizations) entries.now) }
{
    let mut settled = Vec::new(alloc);
    for entry in entries {
        settled.push(entry_by_now(alloc, entry, table)?)?;
    }
    Ok(settled)
}
