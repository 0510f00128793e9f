// Types of which some parts change: the others are shared, and so is a type of which none does.
ghost use Rattle.std.specs.Prelude.{◌≡◌, ◌≤◌, ◌+◌, [], ◌∷◌, ◌++◌, IfOk, Some, length, slice_get, take};
ghost use Rattle.type_core.specs.Kept.{field_kept, or_kept};
ghost use Rattle.type_core.specs.declared.ty.Ty.TheVariants as ty;

use crate::substitution::copy;
use crate::ty::{Field, NameId, Ty, VarId};
use sig_base::{List, NoMemory, Row, Shared, Text};
use std::alloc::Global;

fn copy_field(alloc: Global, field: &Field) -> Result<Field, NoMemory>
    ensures value { IfOk result (λ r. r ≡ field.now) }
{
    let label = Text::from_slice(alloc, field.label.as_slice())?;
    let ty = copy(alloc, &field.ty)?;
    Ok(Field { label, ty })
}

/// The first of these types.
fn first_types(alloc: Global, parts: &[Ty], count: usize) -> Result<List<Ty>, NoMemory>
    requires within { count ≤ length parts.now }
    ensures value { IfOk result (λ r. r ≡ take count parts.now) }
{
    let mut done = List::new(alloc);
    for part in &parts[..count] {
        done.push(copy(alloc, part)?)?;
    }
    Ok(done)
}

/// The first of these fields.
fn first_fields(alloc: Global, fields: &[Field], count: usize) -> Result<List<Field>, NoMemory>
    requires within { count ≤ length fields.now }
    ensures value { IfOk result (λ r. r ≡ take count fields.now) }
{
    let mut done = List::new(alloc);
    for field in &fields[..count] {
        done.push(copy_field(alloc, field)?)?;
    }
    Ok(done)
}

/// The list of the types before a place, of which the first change is at or before it.
fn types_before(
    alloc: Global,
    parts: &[Ty],
    i: usize,
    done: Option<List<Ty>>,
) -> Result<List<Ty>, NoMemory>
    requires within { i ≤ length parts.now }
    ensures value { IfOk result (λ r. r ≡ or_kept (take i parts.now) done) }
{
    match done {
        None => first_types(alloc, parts, i),
        Some(list) => Ok(list),
    }
}

/// The list of the fields before a place, of which the first change is at or before it.
fn fields_before(
    alloc: Global,
    fields: &[Field],
    i: usize,
    done: Option<List<Field>>,
) -> Result<List<Field>, NoMemory>
    requires within { i ≤ length fields.now }
    ensures value { IfOk result (λ r. r ≡ or_kept (take i fields.now) done) }
{
    match done {
        None => first_fields(alloc, fields, i),
        Some(list) => Ok(list),
    }
}

fn with<T: Drop>(list: List<T>, x: T) -> Result<List<T>, NoMemory>
    ensures value { IfOk result (λ r. r ≡ list ++ x ∷ []) }
{
    let mut longer = list;
    longer.push(x)?;
    Ok(longer)
}

/// The types up to a place and with what comes of the one there, where `done` are those before it; `None`
/// where none changes.
pub(crate) fn one_more_type(
    alloc: Global,
    parts: &[Ty],
    i: usize,
    part: &Ty,
    done: Option<List<Ty>>,
    next: Option<Ty>,
) -> Result<Option<List<Ty>>, NoMemory>
    requires here { slice_get parts.now i ≡ Some part.now }
    ensures value { IfOk result (λ r. or_kept (take (i + 1) parts.now) r ≡ or_kept (take i parts.now) done ++ or_kept part.now next ∷ []) }
{
    match next {
        None => match done {
            None => Ok(None),
            Some(list) => {
                let part = copy(alloc, part)?;
                let list = with(list, part)?;
                Ok(Some(list))
            }
        },
        Some(part) => {
            let list = types_before(alloc, parts, i, done)?;
            let list = with(list, part)?;
            Ok(Some(list))
        }
    }
}

fn labelled(alloc: Global, field: &Field, next: Ty) -> Result<Field, NoMemory>
    ensures value { IfOk result (λ r. r ≡ record { label = field.now.label; ty = next }) }
{
    let label = Text::from_slice(alloc, field.label.as_slice())?;
    Ok(Field { label, ty: next })
}

/// The fields up to a place and with what comes of the one there, where `done` are those before it; `None`
/// where none changes.
pub(crate) fn one_more_field(
    alloc: Global,
    fields: &[Field],
    i: usize,
    field: &Field,
    done: Option<List<Field>>,
    next: Option<Ty>,
) -> Result<Option<List<Field>>, NoMemory>
    requires here { slice_get fields.now i ≡ Some field.now }
    ensures value { IfOk result (λ r. or_kept (take (i + 1) fields.now) r ≡ or_kept (take i fields.now) done ++ field_kept field.now next ∷ []) }
{
    match next {
        None => match done {
            None => Ok(None),
            Some(list) => {
                let field = copy_field(alloc, field)?;
                let list = with(list, field)?;
                Ok(Some(list))
            }
        },
        Some(ty) => {
            let field = labelled(alloc, field, ty)?;
            let list = fields_before(alloc, fields, i, done)?;
            let list = with(list, field)?;
            Ok(Some(list))
        }
    }
}

/// What comes of a variable that becomes another one.
pub(crate) fn kept_variable(v: VarId, w: VarId) -> Option<Ty>
    ensures value { or_kept (ty.Var v) result ≡ ty.Var w }
{
    if v.n == w.n && v.eq == w.eq {
        None
    } else {
        Some(Ty::Var(w))
    }
}

/// What comes of an application by what comes of its arguments.
pub(crate) fn kept_application(
    alloc: Global,
    name: NameId,
    arguments: &Row<Ty>,
    changed: Option<List<Ty>>,
) -> Result<Option<Ty>, NoMemory>
    ensures value { IfOk result (λ r. or_kept (ty.Con name arguments.now) r ≡ ty.Con name (or_kept arguments.now changed)) }
{
    match changed {
        Some(list) => {
            let list = Row::new(alloc, list)?;
            Ok(Some(Ty::Con(name, list)))
        }
        None => Ok(None),
    }
}

/// What comes of a record by what comes of its fields.
pub(crate) fn kept_record(
    alloc: Global,
    fields: &Row<Field>,
    changed: Option<List<Field>>,
) -> Result<Option<Ty>, NoMemory>
    ensures value { IfOk result (λ r. or_kept (ty.Rec fields.now) r ≡ ty.Rec (or_kept fields.now changed)) }
{
    match changed {
        Some(list) => {
            let list = Row::new(alloc, list)?;
            Ok(Some(Ty::Rec(list)))
        }
        None => Ok(None),
    }
}

/// What comes of a tuple by what comes of its components.
pub(crate) fn kept_tuple(
    alloc: Global,
    components: &Row<Ty>,
    changed: Option<List<Ty>>,
) -> Result<Option<Ty>, NoMemory>
    ensures value { IfOk result (λ r. or_kept (ty.Tup components.now) r ≡ ty.Tup (or_kept components.now changed)) }
{
    match changed {
        Some(list) => {
            let list = Row::new(alloc, list)?;
            Ok(Some(Ty::Tup(list)))
        }
        None => Ok(None),
    }
}

fn side(alloc: Global, old: &Shared<Ty>, changed: Option<Ty>) -> Result<Shared<Ty>, NoMemory>
    ensures value { IfOk result (λ r. r ≡ or_kept old.now changed) }
{
    match changed {
        Some(t) => Shared::new(alloc, t),
        None => old.share(),
    }
}

/// What comes of an arrow by what comes of its sides.
pub(crate) fn kept_arrow(
    alloc: Global,
    from: &Shared<Ty>,
    to: &Shared<Ty>,
    changed_from: Option<Ty>,
    changed_to: Option<Ty>,
) -> Result<Option<Ty>, NoMemory>
    ensures value { IfOk result (λ r. or_kept (ty.Arrow from.now to.now) r ≡ ty.Arrow (or_kept from.now changed_from) (or_kept to.now changed_to)) }
{
    match (changed_from, changed_to) {
        (None, None) => Ok(None),
        (from_after, to_after) => {
            let from = side(alloc, from, from_after)?;
            let to = side(alloc, to, to_after)?;
            Ok(Some(Ty::Arrow(from, to)))
        }
    }
}

/// What comes of a type: the type itself, shared, where nothing changes.
pub(crate) fn or_shared(alloc: Global, t: &Ty, changed: Option<Ty>) -> Result<Ty, NoMemory>
    ensures value { IfOk result (λ r. r ≡ or_kept t.now changed) }
{
    match changed {
        Some(changed) => Ok(changed),
        None => copy(alloc, t),
    }
}
