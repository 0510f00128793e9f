// Variables that are bound to one another, and types that meet.
ghost use Rattle.std.specs.Prelude.{◌≡◌, Some, IfOk, OnOk, map};
ghost use Rattle.type_core.specs.Variables.{same_variable};
ghost use Rattle.coord_match.specs.search.Bindings as spec;
ghost use Rattle.coord_match.specs.search.Bindings.{IsBefore, all_met, met, met_field, when};

use sig_base::{List, NoMemory};
use type_core::{Field, Ty, VarId};

/// A variable and its partner.
#[derive(Clone, Copy, Debug, PartialEq, Eq)]
pub struct Bound {
    pub from: VarId,
    pub to: VarId,
}

pub fn is_same(v: VarId, w: VarId) -> bool
    ensures value { result ≡ same_variable v w }
{
    v.n == w.n && v.eq == w.eq
}

/// Whether the variables of `one` may be bound to one another; where they weren't, they are then.
///
/// Each variable has one partner and is the partner of one, and partners have the same mark.
fn bind(one: Bound, bound: &mut List<Bound>) -> Result<bool, NoMemory>
    ensures grown { OnOk result (IsBefore bound.old bound.new) }
    ensures value { IfOk result (λ done. when done (Some bound.new) ≡ spec.bind one bound.old bound.old) }
{
    for i in 0..bound.len() {
        let other = bound.as_slice()[i];
        let from = is_same(other.from, one.from);
        let to = is_same(other.to, one.to);
        if from || to {
            return Ok(from && to);
        }
    }
    if one.from.eq != one.to.eq {
        return Ok(false);
    }
    bound.push(one)?;
    Ok(true)
}

/// Whether the bindings, or more of them, make the first type the second; then those that it takes are added.
#[cycle(meet)]
pub fn meet(t: &Ty, u: &Ty, bound: &mut List<Bound>) -> Result<bool, NoMemory>
    ensures grown { OnOk result (IsBefore bound.old bound.new) }
    ensures value { IfOk result (λ done. when done (Some bound.new) ≡ met t.now u.now bound.old) }
{
    match (t, u) {
        (Ty::Var(from), Ty::Var(to)) => bind(
            Bound {
                from: *from,
                to: *to,
            },
            bound,
        ),
        (Ty::Con(name, parts), Ty::Con(other, others)) => {
            if name.0 != other.0 {
                return Ok(false);
            }
            meet_all(parts.as_slice(), others.as_slice(), bound)
        }
        (Ty::Rec(fields), Ty::Rec(others)) => {
            meet_fields(fields.as_slice(), others.as_slice(), bound)
        }
        (Ty::Tup(parts), Ty::Tup(others)) => meet_all(parts.as_slice(), others.as_slice(), bound),
        (Ty::Arrow(from, to), Ty::Arrow(other_from, other_to)) => {
            if !meet(from.get(), other_from.get(), bound)? {
                return Ok(false);
            }
            meet(to.get(), other_to.get(), bound)
        }
        _ => Ok(false),
    }
}

#[cycle(meet)]
fn meet_all(parts: &[Ty], others: &[Ty], bound: &mut List<Bound>) -> Result<bool, NoMemory>
    ensures grown { OnOk result (IsBefore bound.old bound.new) }
    ensures value { IfOk result (λ done. when done (Some bound.new) ≡ all_met (map met parts.now) others.now bound.old) }
{
    if parts.len() != others.len() {
        return Ok(false);
    }
    for i in 0..parts.len() {
        if !meet(&parts[i], &others[i], bound)? {
            return Ok(false);
        }
    }
    Ok(true)
}

#[cycle(meet)]
fn meet_fields(
    fields: &[Field],
    others: &[Field],
    bound: &mut List<Bound>,
) -> Result<bool, NoMemory>
    ensures grown { OnOk result (IsBefore bound.old bound.new) }
    ensures value { IfOk result (λ done. when done (Some bound.new) ≡ all_met (map met_field fields.now) others.now bound.old) }
{
    if fields.len() != others.len() {
        return Ok(false);
    }
    for i in 0..fields.len() {
        if !meet_field(&fields[i], &others[i], bound)? {
            return Ok(false);
        }
    }
    Ok(true)
}

#[cycle(meet)]
fn meet_field(field: &Field, other: &Field, bound: &mut List<Bound>) -> Result<bool, NoMemory>
    ensures grown { OnOk result (IsBefore bound.old bound.new) }
    ensures value { IfOk result (λ done. when done (Some bound.new) ≡ met_field field.now other.now bound.old) }
{
    if field.label.as_slice() != other.label.as_slice() {
        return Ok(false);
    }
    meet(&field.ty, &other.ty, bound)
}
