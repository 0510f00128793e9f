// What units have, as a library lists it.
ghost use Rattle.std.specs.Prelude.{◌≡◌, ◌++◌, map, IfOk, OnOk};
ghost use Rattle.elab_rules.specs.Library.{entry_members, entry_tycons, unit_members, unit_of, unit_tycons};
ghost use Rattle.type_core.specs.Lists.{concatenated};

use elab_rules::copying::{copy_function, copy_scheme};
use elab_rules::entry::{Entry, UnitEntry};
use elab_rules::naming::within;
use sig_base::{List, NoMemory, Text};
use std::alloc::Global;
use type_core::{Member, Tycon, Unit};

// Adds the type constructors of an entry of a body of this path.
#[cycle(tycons)]
fn push_tycons_of(
    alloc: Global,
    entry: &Entry,
    path: &[u8],
    tycons: &mut List<Tycon>,
) -> Result<(), NoMemory>
    ensures pushed { OnOk result (tycons.new ≡ tycons.old ++ entry_tycons entry.now path.now) }
{
    match entry {
        Entry::Tycon(tycon) => {
            let path = within(alloc, path, tycon.id.as_slice())?;
            let fun = copy_function(alloc, &tycon.fun)?;
            tycons.push(Tycon { path, fun })
        }
        Entry::Value(_) => Ok(()),
        Entry::Structure(id, entries) => {
            let path = within(alloc, path, id.as_slice())?;
            push_tycons(alloc, entries.as_slice(), path.as_slice(), tycons)
        }
    }
}

// Adds the type constructors of a body of this path.
#[cycle(tycons)]
fn push_tycons(
    alloc: Global,
    entries: &[Entry],
    path: &[u8],
    tycons: &mut List<Tycon>,
) -> Result<(), NoMemory>
    ensures pushed { OnOk result (tycons.new ≡ tycons.old ++ concatenated (map (λ entry. entry_tycons entry path.now) entries.now)) }
{
    for entry in entries {
        push_tycons_of(alloc, entry, path, tycons)?;
    }
    Ok(())
}

// Adds the members of an entry of a body of this path.
#[cycle(members)]
fn push_members_of(
    alloc: Global,
    entry: &Entry,
    path: &[u8],
    members: &mut List<Member>,
) -> Result<(), NoMemory>
    ensures pushed { OnOk result (members.new ≡ members.old ++ entry_members entry.now path.now) }
{
    match entry {
        Entry::Tycon(_) => Ok(()),
        Entry::Value(value) => {
            let path = within(alloc, path, value.id.as_slice())?;
            let scheme = copy_scheme(alloc, &value.scheme)?;
            members.push(Member {
                kind: value.kind,
                path,
                scheme,
            })
        }
        Entry::Structure(id, entries) => {
            let path = within(alloc, path, id.as_slice())?;
            push_members(alloc, entries.as_slice(), path.as_slice(), members)
        }
    }
}

// Adds the members of a body of this path.
#[cycle(members)]
fn push_members(
    alloc: Global,
    entries: &[Entry],
    path: &[u8],
    members: &mut List<Member>,
) -> Result<(), NoMemory>
    ensures pushed { OnOk result (members.new ≡ members.old ++ concatenated (map (λ entry. entry_members entry path.now) entries.now)) }
{
    for entry in entries {
        push_members_of(alloc, entry, path, members)?;
    }
    Ok(())
}

/// The type constructors of a unit.
pub fn unit_tycons(alloc: Global, unit: &UnitEntry) -> Result<List<Tycon>, NoMemory>
    ensures value { IfOk result (λ tycons. tycons ≡ unit_tycons unit.now) }
{
    let mut tycons = List::new(alloc);
    push_tycons(
        alloc,
        unit.entries.as_slice(),
        unit.id.as_slice(),
        &mut tycons,
    )?;
    Ok(tycons)
}

/// The members of a unit.
pub fn unit_members(alloc: Global, unit: &UnitEntry) -> Result<List<Member>, NoMemory>
    ensures value { IfOk result (λ members. members ≡ unit_members unit.now) }
{
    let mut members = List::new(alloc);
    push_members(
        alloc,
        unit.entries.as_slice(),
        unit.id.as_slice(),
        &mut members,
    )?;
    Ok(members)
}

/// The units themselves.
pub fn all_units(alloc: Global, units: &[UnitEntry]) -> Result<List<Unit>, NoMemory>
    ensures value { IfOk result (λ all. all ≡ map unit_of units.now) }
{
    let mut all = List::new(alloc);
    for unit in units {
        let id = Text::from_slice(alloc, unit.id.as_slice())?;
        all.push(Unit {
            kind: unit.kind,
            id,
        })?;
    }
    Ok(all)
}

/// The type constructors of units.
pub fn all_tycons(alloc: Global, units: &[UnitEntry]) -> Result<List<Tycon>, NoMemory>
    ensures value { IfOk result (λ tycons. tycons ≡ concatenated (map unit_tycons units.now)) }
{
    let mut tycons = List::new(alloc);
    for unit in units {
        push_tycons(
            alloc,
            unit.entries.as_slice(),
            unit.id.as_slice(),
            &mut tycons,
        )?;
    }
    Ok(tycons)
}

/// The members of units.
pub fn all_members(alloc: Global, units: &[UnitEntry]) -> Result<List<Member>, NoMemory>
    ensures value { IfOk result (λ members. members ≡ concatenated (map unit_members units.now)) }
{
    let mut members = List::new(alloc);
    for unit in units {
        push_members(
            alloc,
            unit.entries.as_slice(),
            unit.id.as_slice(),
            &mut members,
        )?;
    }
    Ok(members)
}
