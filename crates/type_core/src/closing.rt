// The closing of a type to a scheme.
ghost use Rattle.std.specs.Prelude.{◌≡◌, ◌<◌, ◌^◌, length, map, IfOk, IsTrue, OnOk};
ghost use Rattle.std.specs.List.{range_with_len};
ghost use Rattle.type_core.specs.Kept.{or_kept};
ghost use Rattle.type_core.specs.Lists.{concatenated};
ghost use Rattle.type_core.specs.Renaming.{renamed, field_renamed};
ghost use Rattle.type_core.specs.Schemes.{IsScheme, closed, numbered_among, numbers};
ghost use Rattle.type_core.specs.Variables.{by_first_occurrence, variables, field_variables, meet_all};

use crate::kept::{
    kept_application, kept_arrow, kept_record, kept_tuple, kept_variable, one_more_field,
    one_more_type, or_shared,
};
use crate::met::Met;
use crate::substitution::copy;
use crate::ty::{Field, Scheme, Ty, VarId};
use sig_base::{List, NoMemory};
use std::alloc::Global;

/// The type as a scheme: its variables are numbered from 0 in the order in which they first occur, and
/// keep their marks. `'a` and `''a` are two variables.
pub fn close(alloc: Global, t: &Ty) -> Result<Scheme, NoMemory>
    requires fits { length (by_first_occurrence t.now) < 2 ^ 32 }
    ensures value { IfOk result (λ s. s ≡ closed t.now) }
    ensures scheme { IfOk result IsScheme }
{
    let mut met = Met::new(alloc);
    gather(&mut met, t)?;
    let body = numbered(alloc, &met, t)?;
    let vars = met.as_slice().len() as u32;
    Ok(Scheme { vars, body })
}

/// The type with the places of its variables as their numbers, where these are its variables by first
/// occurrence. Where they have these numbers already it is shared.
fn numbered(alloc: Global, met: &Met, t: &Ty) -> Result<Ty, NoMemory>
    requires fits { length met.now < 2 ^ 32 }
    requires order { met.now ≡ by_first_occurrence t.now }
    ensures value { IfOk result (λ r. r ≡ renamed (numbered_among met.now) t.now) }
{
    if are_in_order(met.as_slice()) {
        copy(alloc, t)
    } else {
        let changed = renumbered(alloc, met, t)?;
        or_shared(alloc, t, changed)
    }
}

/// Whether each of the variables has its place as its number already.
fn are_in_order(met: &[VarId]) -> bool
    ensures value { IsTrue result → numbers met.now ≡ range_with_len 0 (length met.now) }
{
    for i in 0..met.len() {
        if met[i].n as usize != i {
            return false;
        }
    }
    true
}

/// Adds the variables of a type to those that were met.
#[cycle(gather)]
#[tactic(auto, using(crate::proofs::Meeting::meeting, std::proofs::lemmas::Grind::common_steps))]
fn gather(met: &mut Met, t: &Ty) -> Result<(), NoMemory>
    ensures met { OnOk result (met.new ≡ meet_all met.old (variables t.now)) }
{
    match t {
        Ty::Var(v) => met.meet(*v),
        Ty::Con(_, arguments) => gather_all(met, arguments.as_slice()),
        Ty::Rec(fields) => gather_fields(met, fields.as_slice()),
        Ty::Tup(components) => gather_all(met, components.as_slice()),
        Ty::Arrow(from, to) => {
            gather(met, from.get())?;
            gather(met, to.get())
        }
    }
}

#[cycle(gather)]
#[tactic(auto, using(crate::proofs::Meeting::meeting, std::proofs::lemmas::Grind::common_steps))]
fn gather_all(met: &mut Met, parts: &[Ty]) -> Result<(), NoMemory>
    ensures met { OnOk result (met.new ≡ meet_all met.old (concatenated (map variables parts.now))) }
{
    for part in parts {
        gather(met, part)?;
    }
    Ok(())
}

#[cycle(gather)]
#[tactic(auto, using(crate::proofs::Meeting::meeting, std::proofs::lemmas::Grind::common_steps))]
fn gather_fields(met: &mut Met, fields: &[Field]) -> Result<(), NoMemory>
    ensures met { OnOk result (met.new ≡ meet_all met.old (concatenated (map field_variables fields.now))) }
{
    for field in fields {
        gather(met, &field.ty)?;
    }
    Ok(())
}

/// The variable with its place among these as its number.
fn number(among: &Met, v: VarId) -> VarId
    requires fits { length among.now < 2 ^ 32 }
    ensures value { result ≡ numbered_among among.now v }
{
    VarId {
        n: among.place(v) as u32,
        eq: v.eq,
    }
}

/// The type with each variable's place among these as its number; `None` where each has it already.
#[cycle(renumber)]
fn renumbered(alloc: Global, among: &Met, t: &Ty) -> Result<Option<Ty>, NoMemory>
    requires fits { length among.now < 2 ^ 32 }
    ensures value { IfOk result (λ r. or_kept t.now r ≡ renamed (numbered_among among.now) t.now) }
{
    match t {
        Ty::Var(v) => Ok(kept_variable(*v, number(among, *v))),
        Ty::Con(name, arguments) => {
            let changed = renumbered_all(alloc, among, arguments.as_slice())?;
            kept_application(alloc, *name, arguments, changed)
        }
        Ty::Rec(fields) => {
            let changed = renumbered_fields(alloc, among, fields.as_slice())?;
            kept_record(alloc, fields, changed)
        }
        Ty::Tup(components) => {
            let changed = renumbered_all(alloc, among, components.as_slice())?;
            kept_tuple(alloc, components, changed)
        }
        Ty::Arrow(from, to) => {
            let changed_from = renumbered(alloc, among, from.get())?;
            let changed_to = renumbered(alloc, among, to.get())?;
            kept_arrow(alloc, from, to, changed_from, changed_to)
        }
    }
}

#[cycle(renumber)]
fn renumbered_all(alloc: Global, among: &Met, parts: &[Ty]) -> Result<Option<List<Ty>>, NoMemory>
    requires fits { length among.now < 2 ^ 32 }
    ensures value { IfOk result (λ r. or_kept parts.now r ≡ map (renamed (numbered_among among.now)) parts.now) }
{
    let mut done = None;
    for i in 0..parts.len() {
        let part = &parts[i];
        let next = renumbered(alloc, among, part)?;
        done = one_more_type(alloc, parts, i, part, done, next)?;
    }
    Ok(done)
}

#[cycle(renumber)]
fn renumbered_fields(
    alloc: Global,
    among: &Met,
    fields: &[Field],
) -> Result<Option<List<Field>>, NoMemory>
    requires fits { length among.now < 2 ^ 32 }
    ensures value { IfOk result (λ r. or_kept fields.now r ≡ map (field_renamed (numbered_among among.now)) fields.now) }
{
    let mut done = None;
    for i in 0..fields.len() {
        let field = &fields[i];
        let next = renumbered(alloc, among, &field.ty)?;
        done = one_more_field(alloc, fields, i, field, done, next)?;
    }
    Ok(done)
}
