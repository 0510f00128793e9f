// The reading of types.
ghost use Rattle.std.specs.Prelude.{◌≡◌, map, slice_get};
ghost use Rattle.std.specs.Option.{option_map};
ghost use Rattle.lib_index.specs.Reading as reading;
ghost use Rattle.lib_index.specs.Reading.{Reads, coded, field_at, form_of, many, rest_of, told, variable_at, whole_type_at};

use crate::refusal::IndexRefusal;
use crate::rest::{Rest, byte, bytes, number, spent};
use sig_base::{List, Row, Shared};
use std::alloc::Global;
use type_core::{Field, NameId, Ty, TypeName, VarId};

const MAX_NODES: u32 = 2000;

const MAX_HEIGHT: u32 = 200;

/// The form of a type.
#[derive(Clone, Copy, Debug, PartialEq, Eq)]
pub enum Form {
    Variable,
    Application,
    Tuple,
    Arrow,
    Record,
}

/// Where a type is read: the names that it may have, and the marks of its variables, by their numbers; none
/// of them has a mark where no marks are told.
#[derive(Clone, Copy)]
pub struct Place<'a, 'b> {
    pub names: &'a [TypeName],
    pub marks: Option<&'b [bool]>,
}

/// Reads a type of at most 2,000 nodes and height 200. Nothing is spent.
#[tactic(auto, unfolding(crate::specs::Reading::whole_type_at))]
pub fn whole_type<'a>(
    alloc: Global,
    place: Place<'_, '_>,
    rest: Rest<'a>,
) -> Result<(Ty, Rest<'a>), IndexRefusal>
    ensures read { Reads (whole_type_at place.entry.names.now (told place.entry.marks) (rest_of rest.entry)) result }
{
    let left = rest.left;
    let start = Rest {
        left: MAX_NODES,
        bytes: rest.bytes,
    };
    let (t, after) = type_of(alloc, place, MAX_HEIGHT, start)?;
    let bytes = after.bytes;
    Ok((t, Rest { left, bytes }))
}

#[tactic(auto, unfolding(crate::specs::Reading::coded))]
fn form_at(rest: Rest<'_>) -> Result<(Form, Rest<'_>), IndexRefusal>
    ensures read { Reads (coded form_of (rest_of rest.entry)) result }
{
    let (first, rest) = byte(rest)?;
    match first {
        0 => Ok((Form::Variable, rest)),
        1 => Ok((Form::Application, rest)),
        2 => Ok((Form::Tuple, rest)),
        3 => Ok((Form::Arrow, rest)),
        4 => Ok((Form::Record, rest)),
        _ => Err(IndexRefusal::NotAnIndex),
    }
}

fn variable_of(marks: Option<&[bool]>, n: u32) -> Option<VarId>
    ensures value { result ≡ reading.variable_of (told marks.entry) n }
{
    match marks {
        None => Some(VarId { n, eq: false }),
        Some(marks) => match marks.get(n as usize) {
            Some(eq) => Some(VarId { n, eq: *eq }),
            None => None,
        },
    }
}

#[tactic(auto, unfolding(crate::specs::Reading::variable_at))]
fn variable<'a>(marks: Option<&[bool]>, rest: Rest<'a>) -> Result<(Ty, Rest<'a>), IndexRefusal>
    ensures read { Reads (variable_at (told marks.entry) (rest_of rest.entry)) result }
{
    let (n, rest) = number(rest)?;
    match variable_of(marks, n) {
        None => Err(IndexRefusal::NotAnIndex),
        Some(v) => Ok((Ty::Var(v), rest)),
    }
}

fn arity_of(names: &[TypeName], n: u32) -> Option<u32>
    ensures value { result ≡ option_map (λ name. name.arity) (slice_get names.now n) }
{
    match names.get(n as usize) {
        None => None,
        Some(name) => Some(name.arity),
    }
}

#[cycle(types)]
#[tactic(auto, unfolding(crate::specs::Reading::type_at))]
fn type_of<'a>(
    alloc: Global,
    place: Place<'_, '_>,
    height: u32,
    rest: Rest<'a>,
) -> Result<(Ty, Rest<'a>), IndexRefusal>
    ensures read { Reads (reading.type_at place.entry.names.now (told place.entry.marks) height (rest_of rest.entry)) result }
{
    if height == 0 {
        return Err(IndexRefusal::NotAnIndex);
    }
    let rest = spent(1, rest)?;
    let (form, rest) = form_at(rest)?;
    of_form(alloc, place, form, height - 1, rest)
}

#[cycle(types)]
fn of_form<'a>(
    alloc: Global,
    place: Place<'_, '_>,
    form: Form,
    height: u32,
    rest: Rest<'a>,
) -> Result<(Ty, Rest<'a>), IndexRefusal>
    ensures read { Reads (reading.of_form form place.entry.names.now (told place.entry.marks) (reading.type_at place.entry.names.now (told place.entry.marks) height) (rest_of rest.entry)) result }
{
    match form {
        Form::Variable => variable(place.marks, rest),
        Form::Application => application(alloc, place, height, rest),
        Form::Tuple => tuple(alloc, place, height, rest),
        Form::Arrow => arrow(alloc, place, height, rest),
        Form::Record => labelled(alloc, place, height, rest),
    }
}

#[cycle(types)]
#[tactic(auto, unfolding(crate::specs::Reading::application_at))]
fn application<'a>(
    alloc: Global,
    place: Place<'_, '_>,
    height: u32,
    rest: Rest<'a>,
) -> Result<(Ty, Rest<'a>), IndexRefusal>
    ensures read { Reads (reading.application_at place.entry.names.now (reading.type_at place.entry.names.now (told place.entry.marks) height) (rest_of rest.entry)) result }
{
    let (n, rest) = number(rest)?;
    match arity_of(place.names, n) {
        None => Err(IndexRefusal::NotAnIndex),
        Some(arity) => {
            let (arguments, rest) = types(alloc, place, height, arity, rest)?;
            let arguments = Row::new(alloc, arguments)?;
            Ok((Ty::Con(NameId(n), arguments), rest))
        }
    }
}

#[cycle(types)]
#[tactic(auto, unfolding(crate::specs::Reading::tuple_at, crate::specs::Reading::list_at))]
fn tuple<'a>(
    alloc: Global,
    place: Place<'_, '_>,
    height: u32,
    rest: Rest<'a>,
) -> Result<(Ty, Rest<'a>), IndexRefusal>
    ensures read { Reads (reading.tuple_at (reading.type_at place.entry.names.now (told place.entry.marks) height) (rest_of rest.entry)) result }
{
    let (count, rest) = number(rest)?;
    let (components, rest) = types(alloc, place, height, count, rest)?;
    let components = Row::new(alloc, components)?;
    Ok((Ty::Tup(components), rest))
}

#[cycle(types)]
#[tactic(auto, unfolding(crate::specs::Reading::arrow_at))]
fn arrow<'a>(
    alloc: Global,
    place: Place<'_, '_>,
    height: u32,
    rest: Rest<'a>,
) -> Result<(Ty, Rest<'a>), IndexRefusal>
    ensures read { Reads (reading.arrow_at (reading.type_at place.entry.names.now (told place.entry.marks) height) (rest_of rest.entry)) result }
{
    let (from, rest) = type_of(alloc, place, height, rest)?;
    let (to, rest) = type_of(alloc, place, height, rest)?;
    let from = Shared::new(alloc, from)?;
    let to = Shared::new(alloc, to)?;
    Ok((Ty::Arrow(from, to), rest))
}

#[cycle(types)]
#[tactic(auto, unfolding(crate::specs::Reading::record_at, crate::specs::Reading::list_at))]
fn labelled<'a>(
    alloc: Global,
    place: Place<'_, '_>,
    height: u32,
    rest: Rest<'a>,
) -> Result<(Ty, Rest<'a>), IndexRefusal>
    ensures read { Reads (reading.record_at (reading.type_at place.entry.names.now (told place.entry.marks) height) (rest_of rest.entry)) result }
{
    let (count, rest) = number(rest)?;
    let (fields, rest) = fields(alloc, place, height, count, rest)?;
    let fields = Row::new(alloc, fields)?;
    Ok((Ty::Rec(fields), rest))
}

#[cycle(types)]
fn types<'a>(
    alloc: Global,
    place: Place<'_, '_>,
    height: u32,
    count: u32,
    rest: Rest<'a>,
) -> Result<(List<Ty>, Rest<'a>), IndexRefusal>
    ensures read { Reads (many (reading.type_at place.entry.names.now (told place.entry.marks) height) count (rest_of rest.entry)) result }
{
    let mut types = List::new(alloc);
    let mut after = rest;
    for _ in 0..count {
        let (t, next) = type_of(alloc, place, height, after)?;
        types.push(t)?;
        after = next;
    }
    Ok((types, after))
}

#[cycle(types)]
#[tactic(auto, unfolding(crate::specs::Reading::field_at))]
fn field<'a>(
    alloc: Global,
    place: Place<'_, '_>,
    height: u32,
    rest: Rest<'a>,
) -> Result<(Field, Rest<'a>), IndexRefusal>
    ensures read { Reads (field_at (reading.type_at place.entry.names.now (told place.entry.marks) height) (rest_of rest.entry)) result }
{
    let (label, rest) = bytes(alloc, rest)?;
    let (ty, rest) = type_of(alloc, place, height, rest)?;
    Ok((Field { label, ty }, rest))
}

#[cycle(types)]
fn fields<'a>(
    alloc: Global,
    place: Place<'_, '_>,
    height: u32,
    count: u32,
    rest: Rest<'a>,
) -> Result<(List<Field>, Rest<'a>), IndexRefusal>
    ensures read { Reads (many (field_at (reading.type_at place.entry.names.now (told place.entry.marks) height)) count (rest_of rest.entry)) result }
{
    let mut fields = List::new(alloc);
    let mut after = rest;
    for _ in 0..count {
        let (field, next) = field(alloc, place, height, after)?;
        fields.push(field)?;
        after = next;
    }
    Ok((fields, after))
}
