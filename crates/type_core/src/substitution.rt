// Copies of types, with other types in place of their variables.
ghost use Rattle.std.specs.Prelude.{◌≡◌, IfOk, length, map, slice_get};
ghost use Rattle.type_core.specs.declared.ty.Ty.TheVariants as ty;
ghost use Rattle.type_core.specs.Kept.{or_kept};
ghost use Rattle.type_core.specs.Lists.{all_true};
ghost use Rattle.type_core.specs.Substitution.{VariablesBelow, allows, each_field_variable, each_variable, field_substituted, or_variable, substituted};

use crate::kept::{
    kept_application, kept_arrow, kept_record, kept_tuple, one_more_field, one_more_type, or_shared,
};
use crate::ty::{Field, Ty, VarId};
use sig_base::{List, NoMemory};
use std::alloc::Global;

/// The same type again. Its parts are shared, and nothing is copied but its root.
pub fn copy(_alloc: Global, t: &Ty) -> Result<Ty, NoMemory>
    ensures value { IfOk result (λ r. r ≡ t.now) }
{
    match t {
        Ty::Var(v) => Ok(Ty::Var(*v)),
        Ty::Con(name, arguments) => Ok(Ty::Con(*name, arguments.share()?)),
        Ty::Rec(fields) => Ok(Ty::Rec(fields.share()?)),
        Ty::Tup(components) => Ok(Ty::Tup(components.share()?)),
        Ty::Arrow(from, to) => Ok(Ty::Arrow(from.share()?, to.share()?)),
    }
}

/// Copies of the types, in their order.
pub fn copy_all(alloc: Global, parts: &[Ty]) -> Result<List<Ty>, NoMemory>
    ensures value { IfOk result (λ r. r ≡ parts.now) }
{
    let mut done = List::new(alloc);
    for part in parts {
        done.push(copy(alloc, part)?)?;
    }
    Ok(done)
}

/// The type with the type of number n in place of each variable of number n, whether that has the mark
/// or not.
pub fn substitute(alloc: Global, t: &Ty, by: &List<Ty>) -> Result<Ty, NoMemory>
    requires below { VariablesBelow (length by.now) t.now }
    ensures value { IfOk result (λ r. r ≡ substituted by.now t.now) }
{
    replace(alloc, t, by.as_slice())
}

/// The type in a variable's place; `None` where there is none.
fn in_place_of(alloc: Global, by: &[Ty], v: VarId) -> Result<Option<Ty>, NoMemory>
    ensures value { IfOk result (λ r. or_kept (ty.Var v) r ≡ or_variable v (slice_get by.now v.n)) }
{
    match by.get(v.n as usize) {
        Some(t) => Ok(Some(copy(alloc, t)?)),
        None => Ok(None),
    }
}

/// The type with types in place of its variables; a variable for which there is none stays.
pub(crate) fn replace(alloc: Global, t: &Ty, by: &[Ty]) -> Result<Ty, NoMemory>
    ensures value { IfOk result (λ r. r ≡ substituted by.now t.now) }
{
    let changed = replaced(alloc, t, by)?;
    or_shared(alloc, t, changed)
}

/// The type with types in place of its variables; `None` where there is none for any of them.
#[cycle(replace)]
fn replaced(alloc: Global, t: &Ty, by: &[Ty]) -> Result<Option<Ty>, NoMemory>
    ensures value { IfOk result (λ r. or_kept t.now r ≡ substituted by.now t.now) }
{
    match t {
        Ty::Var(v) => in_place_of(alloc, by, *v),
        Ty::Con(name, arguments) => {
            let changed = replaced_all(alloc, arguments.as_slice(), by)?;
            kept_application(alloc, *name, arguments, changed)
        }
        Ty::Rec(fields) => {
            let changed = replaced_fields(alloc, fields.as_slice(), by)?;
            kept_record(alloc, fields, changed)
        }
        Ty::Tup(components) => {
            let changed = replaced_all(alloc, components.as_slice(), by)?;
            kept_tuple(alloc, components, changed)
        }
        Ty::Arrow(from, to) => {
            let changed_from = replaced(alloc, from.get(), by)?;
            let changed_to = replaced(alloc, to.get(), by)?;
            kept_arrow(alloc, from, to, changed_from, changed_to)
        }
    }
}

#[cycle(replace)]
fn replaced_all(alloc: Global, parts: &[Ty], by: &[Ty]) -> Result<Option<List<Ty>>, NoMemory>
    ensures value { IfOk result (λ r. or_kept parts.now r ≡ map (substituted by.now) parts.now) }
{
    let mut done = None;
    for i in 0..parts.len() {
        let part = &parts[i];
        let next = replaced(alloc, part, by)?;
        done = one_more_type(alloc, parts, i, part, done, next)?;
    }
    Ok(done)
}

#[cycle(replace)]
fn replaced_fields(
    alloc: Global,
    fields: &[Field],
    by: &[Ty],
) -> Result<Option<List<Field>>, NoMemory>
    ensures value { IfOk result (λ r. or_kept fields.now r ≡ map (field_substituted by.now) fields.now) }
{
    let mut done = None;
    for i in 0..fields.len() {
        let field = &fields[i];
        let next = replaced(alloc, &field.ty, by)?;
        done = one_more_field(alloc, fields, i, field, done, next)?;
    }
    Ok(done)
}

fn is_allowed(v: VarId, below: usize, marks: bool) -> bool
    ensures value { result ≡ allows below marks v }
{
    (v.n as usize) < below && (!v.eq || marks)
}

/// Whether each variable of the type has a number below `below`, and a mark only where `marks` allows it.
#[cycle(variables)]
pub(crate) fn each_variable_is(t: &Ty, below: usize, marks: bool) -> bool
    ensures value { result ≡ each_variable (allows below marks) t.now }
{
    match t {
        Ty::Var(v) => is_allowed(*v, below, marks),
        Ty::Con(_, arguments) => all_variables_are(arguments.as_slice(), below, marks),
        Ty::Rec(fields) => field_variables_are(fields.as_slice(), below, marks),
        Ty::Tup(components) => all_variables_are(components.as_slice(), below, marks),
        Ty::Arrow(from, to) => {
            each_variable_is(from.get(), below, marks) && each_variable_is(to.get(), below, marks)
        }
    }
}

#[cycle(variables)]
fn all_variables_are(parts: &[Ty], below: usize, marks: bool) -> bool
    ensures value { result ≡ all_true (map (each_variable (allows below marks)) parts.now) }
{
    for part in parts {
        if !each_variable_is(part, below, marks) {
            return false;
        }
    }
    true
}

#[cycle(variables)]
fn field_variables_are(fields: &[Field], below: usize, marks: bool) -> bool
    ensures value { result ≡ all_true (map (each_field_variable (allows below marks)) fields.now) }
{
    for field in fields {
        if !each_variable_is(&field.ty, below, marks) {
            return false;
        }
    }
    true
}
