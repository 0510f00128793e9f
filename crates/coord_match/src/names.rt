// The variables of coordinates, and their partners as a list.
ghost use Rattle.std.specs.Prelude.{◌≡◌, ◌≤◌, ◌<◌, ◌++◌, [], Some, ℕ, length, map, slice_get, IfOk, OnOk};
ghost use Rattle.type_core.specs.Lists.{concatenated};
ghost use Rattle.type_core.specs.Variables.{field_variables, same_variable, variables};
ghost use Rattle.coord_match.specs.search.Bindings as bindings;
ghost use Rattle.iso_normal.specs.Consistency.{coordinate_variables, variables_among};
ghost use Rattle.coord_match.specs.Names.{number_bound};
ghost use Rattle.coord_match.specs.search.Partners as spec;

use crate::bindings::{Bound, is_same};
use sig_base::{List, NoMemory};
use std::alloc::Global;
use type_core::{Coordinate, Field, Ty, VarId};

/// Adds the variables of the type, as they occur.
#[cycle(gather)]
#[tactic(auto, using(crate::proofs::Gathered::gathered, std::proofs::lemmas::Grind::common_steps))]
fn gather(all: &mut List<VarId>, t: &Ty) -> Result<(), NoMemory>
    ensures added { OnOk result (all.new ≡ all.old ++ variables t.now) }
{
    match t {
        Ty::Var(v) => all.push(*v),
        Ty::Con(_, arguments) => gather_all(all, arguments.as_slice()),
        Ty::Rec(fields) => gather_fields(all, fields.as_slice()),
        Ty::Tup(components) => gather_all(all, components.as_slice()),
        Ty::Arrow(from, to) => {
            gather(all, from.get())?;
            gather(all, to.get())
        }
    }
}

#[cycle(gather)]
#[tactic(auto, using(crate::proofs::Gathered::gathered, std::proofs::lemmas::Grind::common_steps))]
fn gather_all(all: &mut List<VarId>, parts: &[Ty]) -> Result<(), NoMemory>
    ensures added { OnOk result (all.new ≡ all.old ++ concatenated (map variables parts.now)) }
{
    for part in parts {
        gather(all, part)?;
    }
    Ok(())
}

#[cycle(gather)]
#[tactic(auto, using(crate::proofs::Gathered::gathered, std::proofs::lemmas::Grind::common_steps))]
fn gather_fields(all: &mut List<VarId>, fields: &[Field]) -> Result<(), NoMemory>
    ensures added { OnOk result (all.new ≡ all.old ++ concatenated (map field_variables fields.now)) }
{
    for field in fields {
        gather(all, &field.ty)?;
    }
    Ok(())
}

/// Adds the variables of the coordinates, as they occur.
#[cycle(gather_coordinates)]
#[tactic(auto, using(crate::proofs::Gathered::gathered, std::proofs::lemmas::Grind::common_steps))]
pub fn gather_coordinates(all: &mut List<VarId>, coordinates: &[Coordinate]) -> Result<(), NoMemory>
    ensures added { OnOk result (all.new ≡ all.old ++ variables_among coordinates.now) }
{
    for coordinate in coordinates {
        gather(all, &coordinate.head)?;
        gather_coordinates(all, coordinate.arguments.as_slice())?;
    }
    Ok(())
}

fn number_bound(variables: &[VarId]) -> usize
    ensures value { result ≡ number_bound variables.now }
{
    let mut bound = 0;
    for v in variables {
        let number = v.n as usize + 1;
        if bound < number {
            bound = number;
        }
    }
    bound
}

fn partner(v: VarId, bound: &[Bound]) -> Option<VarId>
    ensures value { result ≡ spec.partner v bound.now }
{
    for one in bound {
        if is_same(one.from, v) {
            return Some(one.to);
        }
    }
    None
}

fn partner_of_number(n: usize, variables: &[VarId], bound: &[Bound]) -> Option<VarId>
    ensures value { result ≡ spec.partner_of_number n variables.now bound.now }
{
    for v in variables {
        if v.n as usize == n {
            return partner(*v, bound);
        }
    }
    None
}

/// For each number up to the greatest of the variables the partner of its variable.
pub fn names(
    alloc: Global,
    variables: &[VarId],
    bound: &[Bound],
) -> Result<List<Option<VarId>>, NoMemory>
    ensures long { IfOk result (λ names. length names ≡ number_bound variables.now) }
    ensures partners { IfOk result (λ names. (n : ℕ) → n < length names
        → slice_get names n ≡ Some (spec.partner_of_number n variables.now bound.now)) }
{
    let mut done = List::new(alloc);
    for n in 0..number_bound(variables) {
        done.push(partner_of_number(n, variables, bound))?;
    }
    Ok(done)
}

/// Each of the variables bound to itself, once.
pub fn themselves(alloc: Global, variables: &[VarId]) -> Result<List<Bound>, NoMemory>
    ensures value { IfOk result (λ bound. bound ≡ spec.with_themselves [] variables.now) }
{
    let mut bound = List::new(alloc);
    for v in variables {
        if partner(*v, bound.as_slice()).is_none() {
            bound.push(Bound { from: *v, to: *v })?;
        }
    }
    Ok(bound)
}
