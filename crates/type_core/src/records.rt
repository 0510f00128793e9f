// The types of labelled fields.
ghost use Rattle.std.specs.Prelude.{◌≡◌, ◌≤◌, IfOk, insert, length, map};
ghost use Rattle.type_core.specs.Records as spec;
ghost use Rattle.type_core.specs.declared.ty.Field.{Field as AField};

use crate::labels::{are_tuple_labels, comes_before};
use crate::ty::{Field, Ty};
use sig_base::{List, NoMemory, Row};
use std::alloc::Global;

/// Where a field of this label is to stand among fields in label order.
fn place_for(sorted: &[Field], label: &[u8]) -> usize
    ensures within { result ≤ length sorted.now }
    ensures value { (field : AField) → field.label ≡ label.now → spec.inserted field sorted.now ≡ insert sorted.now result field }
{
    for i in 0..sorted.len() {
        if comes_before(label, sorted[i].label.as_slice()) {
            return i;
        }
    }
    sorted.len()
}

/// The fields in label order.
fn in_label_order(alloc: Global, fields: List<Field>) -> Result<Vec<Field>, NoMemory>
    ensures value { IfOk result (λ sorted. sorted.items ≡ spec.in_label_order fields) }
{
    let mut fields = fields;
    let mut sorted: Vec<Field> = Vec::new(alloc);
    'fields: while let Some(field) = fields.pop() {
        let place = place_for(sorted.as_slice(), field.label.as_slice());
        sorted.insert(place, field)?;
    }
    Ok(sorted)
}

/// The types of the fields.
fn types_of(alloc: Global, fields: Vec<Field>) -> Result<Row<Ty>, NoMemory>
    ensures value { IfOk result (λ types. types ≡ map (λ field. field.ty) fields.items) }
{
    let mut types = List::new(alloc);
    for field in fields {
        types.push(field.ty)?;
    }
    Row::new(alloc, types)
}

/// The type of fields of distinct labels: unit, a tuple or a record.
pub fn record_of(alloc: Global, fields: List<Field>) -> Result<Ty, NoMemory>
    ensures value { IfOk result (λ t. t ≡ spec.record_of (spec.in_label_order fields)) }
{
    let fields = in_label_order(alloc, fields)?;
    if fields.is_empty() {
        return Ok(Ty::Tup(Row::empty()));
    }
    if are_tuple_labels(fields.as_slice()) {
        return Ok(Ty::Tup(types_of(alloc, fields)?));
    }
    let fields = Row::new(alloc, List::from_vec(fields))?;
    Ok(Ty::Rec(fields))
}
