// Which datatypes of a group admit equality (the Definition, section 4.9 and rule 71).
ghost use Rattle.std.specs.Prelude.{◌≡◌, ◌+◌, ◌-◌, ◌<◌, ◌≤◌, IfNone, IfOk, IfSome, IsTrue, List, OnOk, drop, false, map, replicate, slice_get, true};
ghost use Rattle.elab_env.specs.Names.{equality_at, with_equality};
ghost use Rattle.elab_rules.specs.Datatypes.{settled};
ghost use Rattle.elab_rules.specs.Equality.{admits, all_fit, entry_fits, field_admits, with_choice, with_greatest};
ghost use Rattle.elab_rules.specs.Standing.{Mentions};
ghost use Rattle.elab_rules.specs.Settling.{IsBound, IsMisfit, live_count};
ghost use Rattle.elab_rules.specs.Views.{state_of};
ghost use Rattle.elab_rules.specs.declared.entry.Entry.{out-Entry};
ghost use Rattle.type_core.specs.Lists.{all_true};
ghost use Rattle.type_core.specs.declared.names.Equality.TheVariants.{Never};
ghost use Rattle.type_core.specs.declared.names.TypeName.{TypeName};

use elab_env::NameTable;
use elab_rules::entry::Entry;
use elab_rules::progress::Progress;
use sig_base::NoMemory;
use type_core::{Equality, Field, NameId, Ty};

// The equality of a name; `Never` where there is no such name.
pub fn equality(table: &NameTable, name: NameId) -> Equality
    ensures value { result ≡ equality_at table.now.names name.0 }
{
    if name.0 < table.len() {
        table.name(name).equality
    } else {
        Equality::Never
    }
}

// Whether the type admits equality where all its variables do.
#[cycle(admits)]
pub fn admits(t: &Ty, table: &NameTable) -> bool
    ensures value { result ≡ admits table.now.names t.now }
{
    match t {
        Ty::Var(_) => true,
        Ty::Con(name, arguments) => match equality(table, *name) {
            Equality::Never => false,
            Equality::IfArgs => all_admit(arguments.as_slice(), table),
            Equality::Always => true,
        },
        Ty::Rec(fields) => fields_admit(fields.as_slice(), table),
        Ty::Tup(components) => all_admit(components.as_slice(), table),
        Ty::Arrow(_, _) => false,
    }
}

#[cycle(admits)]
fn all_admit(parts: &[Ty], table: &NameTable) -> bool
    ensures value { result ≡ all_true (map (admits table.now.names) parts.now) }
{
    for part in parts {
        if !admits(part, table) {
            return false;
        }
    }
    true
}

#[cycle(admits)]
fn fields_admit(fields: &[Field], table: &NameTable) -> bool
    ensures value { result ≡ all_true (map (field_admits table.now.names) fields.now) }
{
    for field in fields {
        if !admits(&field.ty, table) {
            return false;
        }
    }
    true
}

// The name that the constructor makes, where that admits equality but the argument doesn't.
fn misfit(entry: &Entry, table: &NameTable) -> Option<NameId>
    ensures fits { IfNone result (IsTrue (entry_fits table.now.names (out-Entry entry.now))) }
    ensures misfit { IfSome result (λ name. IsMisfit table.now.names name.0 entry.now) }
{
    let Entry::Value(value) = entry else {
        return None;
    };
    let Ty::Arrow(argument, made) = &value.scheme.body else {
        return None;
    };
    let Ty::Con(name, _) = made.get() else {
        return None;
    };
    match equality(table, *name) {
        Equality::Never => None,
        _ if admits(argument.get(), table) => None,
        _ => Some(*name),
    }
}

// Settles when applications of a name admit equality. Each name of a group that is being described is free.
fn settle(table: &mut NameTable, name: NameId, equality: Equality) -> Result<(), NoMemory>
    ensures names { OnOk result (table.new.names ≡ with_equality name.0 equality table.old.names) }
    ensures realizations { OnOk result (table.new.realizations ≡ table.old.realizations) }
{
    if !table.is_free(name) {
        return Err(NoMemory);
    }
    table.settle(name, equality);
    Ok(())
}

// Lets all names of a group admit equality as their arguments do.
fn choose_all(table: &mut NameTable, first: u32, end: u32) -> Result<(), NoMemory>
    ensures names { OnOk result (table.new.names ≡ with_choice first (replicate (end - first) true) table.old.names) }
    ensures realizations { OnOk result (table.new.realizations ≡ table.old.realizations) }
{
    for name in first..end {
        settle(table, NameId(name), Equality::IfArgs)?;
    }
    Ok(())
}

// Denies equality to a name of a group.
fn deny(table: &mut NameTable, name: NameId, first: u32, end: u32) -> Result<(), NoMemory>
    ensures names { OnOk result (table.new.names ≡ with_equality name.0 Never table.old.names) }
    ensures realizations { OnOk result (table.new.realizations ≡ table.old.realizations) }
    ensures grouped { OnOk result ((first ≤ name.0) × (name.0 < end)) }
{
    if name.0 < first || end <= name.0 {
        return Err(NoMemory);
    }
    settle(table, name, Equality::Never)
}

// Denies equality to each name of a group that a constructor makes which doesn't fit; whether there was one.
fn deny_misfits(
    table: &mut NameTable,
    first: u32,
    end: u32,
    entries: &[Entry],
) -> Result<bool, NoMemory>
    ensures bound { OnOk result ((names : List TypeName) → IsBound first (end - first) entries.now names table.old.names → IsBound first (end - first) entries.now names table.new.names) }
    ensures realizations { OnOk result (table.new.realizations ≡ table.old.realizations) }
    ensures fit { IfOk result (λ changed. changed ≡ false → all_fit table.new.names entries.now ≡ true) }
    ensures fewer { IfOk result (λ changed. changed ≡ true → live_count table.new.names < live_count table.old.names) }
{
    let mut changed = false;
    for entry in entries {
        match misfit(entry, table) {
            None => continue,
            Some(name) => {
                deny(table, name, first, end)?;
                changed = true;
            }
        }
    }
    Ok(changed)
}

// Settles equality of the names of a group, all of which are chosen at first.
fn settle_names(
    table: &mut NameTable,
    first: u32,
    end: u32,
    entries: &[Entry],
) -> Result<(), NoMemory>
    ensures names { OnOk result (table.new.names ≡ with_greatest first (end - first) entries.now table.old.names) }
    ensures realizations { OnOk result (table.new.realizations ≡ table.old.realizations) }
    ensures fit { OnOk result (all_fit table.new.names entries.now ≡ true) }
{
    choose_all(table, first, end)?;
    'rounds: loop {
        let changed = deny_misfits(table, first, end, entries)?;
        if !changed {
            return Ok(());
        }
    }
}

// The number after that of the last of so many names from `first` on.
fn end_of(first: u32, count: usize) -> Result<u32, NoMemory>
    ensures value { IfOk result (λ end. end ≡ first + count) }
{
    match u32::try_from(count) {
        Err(_) => Err(NoMemory),
        Ok(count) => match first.checked_add(count) {
            None => Err(NoMemory),
            Some(end) => Ok(end),
        },
    }
}

// The entries from a place on.
fn entries_from(entries: &[Entry], from: usize) -> &[Entry]
    ensures value { result.now ≡ drop from entries.now }
{
    if from <= entries.len() {
        &entries[from..]
    } else {
        &[]
    }
}

/// Settles which of so many names from `first` on admit equality: the greatest choice of them for which the
/// constructors fit that stand among the entries from a place on. Names lose equality in rounds over the
/// constructors, until all fit. Names that aren't all free are answered as want of memory.
pub fn settle_equality(
    progress: &mut Progress,
    first: u32,
    count: usize,
    entries: &[Entry],
    from: usize,
) -> Result<(), NoMemory>
    ensures settled { OnOk result (state_of progress.new ≡ settled first count (drop from entries.now) (state_of progress.old)) }
    ensures mentions { OnOk result (Mentions progress.old progress.new) }
    ensures fit { OnOk result (all_fit (state_of progress.new).names (drop from entries.now) ≡ true) }
{
    let end = end_of(first, count)?;
    settle_names(&mut progress.table, first, end, entries_from(entries, from))
}
