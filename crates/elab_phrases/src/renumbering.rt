// Types whose names are numbered anew.
ghost use Rattle.std.specs.Prelude.{◌≡◌, ◌+◌, ◌<◌, IfOk, IsTrue, length, map};
ghost use Rattle.elab_rules.specs.Copies.{field_with_numbers, with_numbers};
ghost use Rattle.elab_rules.specs.Replacing.{entry_with, environment_with, type_with, value_with};
ghost use Rattle.elab_phrases.specs.Renumbering.{numbers_of, unit_with_numbers};

use elab_rules::closing::scheme_of;
use elab_rules::copying::copy_texts;
use elab_rules::entry::{Entry, TypeEntry, UnitEntry, ValueEntry};
use elab_rules::own_names::OwnNames;
use sig_base::{List, NoMemory, Row, Shared, Text};
use std::alloc::Global;
use type_core::{Field, NameId, Ty, TypeFn, copy};

/// How names are numbered anew.
#[derive(Clone, Copy)]
pub enum Numbering<'a> {
    /// A unit's own names are numbered from a number on; others keep theirs.
    Copied(&'a OwnNames, u32),
    /// Each name has the number that stands in its place.
    Kept(&'a [u32]),
}

impl Numbering<'_> {
    /// The new number of a name.
    pub fn number(&self, n: u32) -> Result<u32, NoMemory>
        ensures value { IfOk result (λ m. m ≡ numbers_of self.now n) }
    {
        match self {
            Numbering::Copied(own, first) => match own.place(n) {
                None => Ok(n),
                Some(place) => match u32::try_from(place) {
                    Err(_) => Err(NoMemory),
                    Ok(place) => first.checked_add(place).ok_or(NoMemory),
                },
            },
            Numbering::Kept(numbers) => match numbers.get(n as usize) {
                None => Err(NoMemory),
                Some(m) => Ok(*m),
            },
        }
    }
}

// A type with its names numbered anew; the same one where each keeps its number.
fn renumbered(alloc: Global, t: &Ty, numbering: &Numbering<'_>) -> Result<Ty, NoMemory>
    ensures value { IfOk result (λ r. r ≡ with_numbers (numbers_of numbering.now) t.now) }
{
    if numbers_stay(t, numbering) {
        copy(alloc, t)
    } else {
        renumber(alloc, t, numbering)
    }
}

// Whether a name keeps its number.
fn number_stays(n: u32, numbering: &Numbering<'_>) -> bool
    ensures value { IsTrue result → numbers_of numbering.now n ≡ n }
{
    match numbering.number(n) {
        Ok(m) => m == n,
        Err(NoMemory) => false,
    }
}

// Whether each name of a type keeps its number.
#[cycle(numbers)]
fn numbers_stay(t: &Ty, numbering: &Numbering<'_>) -> bool
    ensures value { IsTrue result → with_numbers (numbers_of numbering.now) t.now ≡ t.now }
{
    match t {
        Ty::Var(_) => true,
        Ty::Con(name, arguments) => {
            number_stays(name.0, numbering) && all_numbers_stay(arguments.as_slice(), numbering)
        }
        Ty::Rec(fields) => field_numbers_stay(fields.as_slice(), numbering),
        Ty::Tup(components) => all_numbers_stay(components.as_slice(), numbering),
        Ty::Arrow(from, to) => {
            numbers_stay(from.get(), numbering) && numbers_stay(to.get(), numbering)
        }
    }
}

#[cycle(numbers)]
fn all_numbers_stay(parts: &[Ty], numbering: &Numbering<'_>) -> bool
    ensures value { IsTrue result → map (with_numbers (numbers_of numbering.now)) parts.now ≡ parts.now }
{
    for part in parts {
        if !numbers_stay(part, numbering) {
            return false;
        }
    }
    true
}

#[cycle(numbers)]
fn field_numbers_stay(parts: &[Field], numbering: &Numbering<'_>) -> bool
    ensures value { IsTrue result → map (field_with_numbers (numbers_of numbering.now)) parts.now ≡ parts.now }
{
    for part in parts {
        if !numbers_stay(&part.ty, numbering) {
            return false;
        }
    }
    true
}

// A type built again with its names numbered anew.
#[cycle(renumbering)]
fn renumber(alloc: Global, t: &Ty, numbering: &Numbering<'_>) -> Result<Ty, NoMemory>
    ensures value { IfOk result (λ r. r ≡ with_numbers (numbers_of numbering.now) t.now) }
{
    match t {
        Ty::Var(v) => Ok(Ty::Var(*v)),
        Ty::Con(name, arguments) => {
            let arguments = renumber_all(alloc, arguments.as_slice(), numbering)?;
            Ok(Ty::Con(NameId(numbering.number(name.0)?), arguments))
        }
        Ty::Rec(fields) => Ok(Ty::Rec(renumber_fields(alloc, fields.as_slice(), numbering)?)),
        Ty::Tup(components) => Ok(Ty::Tup(renumber_all(alloc, components.as_slice(), numbering)?)),
        Ty::Arrow(from, to) => {
            let from = renumber(alloc, from.get(), numbering)?;
            let to = renumber(alloc, to.get(), numbering)?;
            Ok(Ty::Arrow(Shared::new(alloc, from)?, Shared::new(alloc, to)?))
        }
    }
}

#[cycle(renumbering)]
fn renumber_all(alloc: Global, parts: &[Ty], numbering: &Numbering<'_>) -> Result<Row<Ty>, NoMemory>
    ensures value { IfOk result (λ rs. rs ≡ map (with_numbers (numbers_of numbering.now)) parts.now) }
{
    let mut types = List::new(alloc);
    for part in parts {
        types.push(renumber(alloc, part, numbering)?)?;
    }
    Row::new(alloc, types)
}

#[cycle(renumbering)]
fn renumber_fields(
    alloc: Global,
    parts: &[Field],
    numbering: &Numbering<'_>,
) -> Result<Row<Field>, NoMemory>
    ensures value { IfOk result (λ rs. rs ≡ map (field_with_numbers (numbers_of numbering.now)) parts.now) }
{
    let mut fields = List::new(alloc);
    for part in parts {
        let label = Text::from_slice(alloc, part.label.as_slice())?;
        let ty = renumber(alloc, &part.ty, numbering)?;
        fields.push(Field { label, ty })?;
    }
    Row::new(alloc, fields)
}

// A type constructor with its names numbered anew.
fn type_renumbered(
    alloc: Global,
    entry: &TypeEntry,
    numbering: &Numbering<'_>,
) -> Result<TypeEntry, NoMemory>
    ensures value { IfOk result (λ r. r ≡ type_with (with_numbers (numbers_of numbering.now)) entry.now) }
{
    Ok(TypeEntry {
        id: Text::from_slice(alloc, entry.id.as_slice())?,
        fun: TypeFn {
            arity: entry.fun.arity,
            body: renumbered(alloc, &entry.fun.body, numbering)?,
        },
        constructors: copy_texts(alloc, entry.constructors.as_slice())?,
    })
}

// A value with its names numbered anew.
fn value_renumbered(
    alloc: Global,
    entry: &ValueEntry,
    numbering: &Numbering<'_>,
) -> Result<ValueEntry, NoMemory>
    ensures value { IfOk result (λ r. r ≡ value_with (with_numbers (numbers_of numbering.now)) entry.now) }
{
    let body = renumbered(alloc, &entry.scheme.body, numbering)?;
    Ok(ValueEntry {
        id: Text::from_slice(alloc, entry.id.as_slice())?,
        kind: entry.kind,
        scheme: scheme_of(alloc, &body)?,
    })
}

// An entry with its names numbered anew.
#[cycle(renumbering_entries)]
fn entry_renumbered(
    alloc: Global,
    entry: &Entry,
    numbering: &Numbering<'_>,
) -> Result<Entry, NoMemory>
    ensures value { IfOk result (λ r. r ≡ entry_with (with_numbers (numbers_of numbering.now)) entry.now) }
{
    match entry {
        Entry::Tycon(entry) => Ok(Entry::Tycon(type_renumbered(alloc, entry, numbering)?)),
        Entry::Value(entry) => Ok(Entry::Value(value_renumbered(alloc, entry, numbering)?)),
        Entry::Structure(id, entries) => {
            let id = Text::from_slice(alloc, id.as_slice())?;
            let entries = entries_renumbered(alloc, entries.as_slice(), numbering)?;
            Ok(Entry::Structure(id, List::from_vec(entries)))
        }
    }
}

/// Entries with their names numbered anew.
#[cycle(renumbering_entries)]
pub fn entries_renumbered(
    alloc: Global,
    entries: &[Entry],
    numbering: &Numbering<'_>,
) -> Result<Vec<Entry>, NoMemory>
    ensures value { IfOk result (λ rs. rs.items ≡ environment_with (with_numbers (numbers_of numbering.now)) entries.now) }
{
    let mut copies = Vec::new(alloc);
    for entry in entries {
        copies.push(entry_renumbered(alloc, entry, numbering)?)?;
    }
    Ok(copies)
}

/// Units with their names numbered anew.
pub fn units_renumbered(
    alloc: Global,
    units: &[UnitEntry],
    numbering: &Numbering<'_>,
) -> Result<List<UnitEntry>, NoMemory>
    ensures value { IfOk result (λ rs. rs ≡ map (unit_with_numbers (numbers_of numbering.now)) units.now) }
{
    let mut copies = List::new(alloc);
    for unit in units {
        let entries = entries_renumbered(alloc, unit.entries.as_slice(), numbering)?;
        copies.push(UnitEntry {
            kind: unit.kind,
            id: Text::from_slice(alloc, unit.id.as_slice())?,
            entries: List::from_vec(entries),
            first_name: unit.first_name,
            name_count: unit.name_count,
        })?;
    }
    Ok(copies)
}
