// Types with the realized names replaced.
ghost use Rattle.std.specs.Prelude.{◌≡◌, IfOk, IsTrue, drop, length, map};
ghost use Rattle.type_core.specs.Lists.{all_true};
ghost use Rattle.type_core.specs.Substitution.{substituted};
ghost use Rattle.type_core.specs.Types.{IsOver, is_over};
ghost use Rattle.elab_env.specs.Meaning.{IsFollowed};
ghost use Rattle.elab_env.specs.Realizations.{field_resolved, resolved};
ghost use Rattle.elab_env.specs.Sound.{IsSound};

use crate::denoting::denoted_name;
use crate::lacking::lacks;
use crate::name_table::NameTable;
use crate::staying::stays;
use sig_base::{List, NoMemory, Row, Shared, Text};
use std::alloc::Global;
use type_core::{Field, NameId, Ty, copy, substitute};

/// The name that this one is by now, and the place of its realization, if it has one. Names that were joined
/// or realized by names are followed one after the other.
pub fn follow(start: NameId, table: &NameTable, from: usize) -> (NameId, Option<usize>)
    ensures followed { IsFollowed table.now.names table.now.realizations start result.0 from result.1 }
    ensures sound { IsSound table.now }
{
    let mut name = start;
    let mut at = from;
    'links: while let Some(place) = table.place_after(name, at) {
        match denoted_name(&table.realization(place).fun) {
            None => return (name, Some(place)),
            Some(next) => {
                name = next;
                at = place + 1;
            }
        }
    }
    (name, None)
}

/// The type after all realizations; the same one where it mentions no realized name.
pub fn resolve(alloc: Global, t: &Ty, table: &NameTable) -> Result<Ty, NoMemory>
    requires over { IsOver table.now.names t.now }
    ensures value { IfOk result (λ r. r ≡ resolved table.now.realizations t.now) }
{
    if stays(t, table) {
        copy(alloc, t)
    } else {
        resolve_from(alloc, t, table, 0)
    }
}

// The type after the realizations from a place on.
#[cycle(resolve)]
fn resolve_from(alloc: Global, t: &Ty, table: &NameTable, from: usize) -> Result<Ty, NoMemory>
    requires over { IsOver table.now.names t.now }
    ensures value { IfOk result (λ r. r ≡ resolved (drop from table.now.realizations) t.now) }
{
    match t {
        Ty::Var(v) => Ok(Ty::Var(*v)),
        Ty::Con(name, arguments) => {
            let (name, place) = follow(*name, table, from);
            let arguments = arguments.as_slice();
            match place {
                None => {
                    let arguments = resolve_all(alloc, arguments, table, from)?;
                    Ok(Ty::Con(name, arguments))
                }
                Some(place) => {
                    let body = &table.realization(place).fun.body;
                    let body = resolve_from(alloc, body, table, place + 1)?;
                    let arguments = resolve_used(alloc, arguments, &body, table, from)?;
                    substitute(alloc, &body, &arguments)
                }
            }
        }
        Ty::Rec(fields) => {
            let fields = resolve_fields(alloc, fields.as_slice(), table, from)?;
            Ok(Ty::Rec(fields))
        }
        Ty::Tup(components) => {
            let components = resolve_all(alloc, components.as_slice(), table, from)?;
            Ok(Ty::Tup(components))
        }
        Ty::Arrow(argument, value) => {
            let argument = resolve_from(alloc, argument.get(), table, from)?;
            let value = resolve_from(alloc, value.get(), table, from)?;
            let argument = Shared::new(alloc, argument)?;
            let value = Shared::new(alloc, value)?;
            Ok(Ty::Arrow(argument, value))
        }
    }
}

#[cycle(resolve)]
fn resolve_all(
    alloc: Global,
    parts: &[Ty],
    table: &NameTable,
    from: usize,
) -> Result<Row<Ty>, NoMemory>
    requires over { IsTrue (all_true (map (is_over table.now.names) parts.now)) }
    ensures value { IfOk result (λ r. r ≡ map (resolved (drop from table.now.realizations)) parts.now) }
{
    let mut done = List::new(alloc);
    for part in parts {
        done.push(resolve_from(alloc, part, table, from)?)?;
    }
    Row::new(alloc, done)
}

// The arguments of a body, resolved where it uses them and unit where it drops them: what is dropped may be
// larger than memory.
#[cycle(resolve)]
fn resolve_used(
    alloc: Global,
    arguments: &[Ty],
    body: &Ty,
    table: &NameTable,
    from: usize,
) -> Result<List<Ty>, NoMemory>
    requires over { IsTrue (all_true (map (is_over table.now.names) arguments.now)) }
    ensures count { IfOk result (λ r. length r ≡ length arguments.now) }
    ensures value { IfOk result (λ r. substituted r body.now ≡ substituted (map (resolved (drop from table.now.realizations)) arguments.now) body.now) }
{
    let mut done = List::new(alloc);
    for (n, argument) in arguments.iter().enumerate() {
        let argument = if lacks(body, n) {
            Ty::Tup(Row::empty())
        } else {
            resolve_from(alloc, argument, table, from)?
        };
        done.push(argument)?;
    }
    Ok(done)
}

#[cycle(resolve)]
fn resolve_fields(
    alloc: Global,
    fields: &[Field],
    table: &NameTable,
    from: usize,
) -> Result<Row<Field>, NoMemory>
    requires over { IsTrue (all_true (map (λ field. is_over table.now.names field.ty) fields.now)) }
    ensures value { IfOk result (λ r. r ≡ map (field_resolved (drop from table.now.realizations)) fields.now) }
{
    let mut done = List::new(alloc);
    for field in fields {
        let label = Text::from_slice(alloc, field.label.as_slice())?;
        let ty = resolve_from(alloc, &field.ty, table, from)?;
        done.push(Field { label, ty })?;
    }
    Row::new(alloc, done)
}
