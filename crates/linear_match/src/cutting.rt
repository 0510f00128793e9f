// Tests by which the search sees early that no word splits factors along a pattern.
ghost use Rattle.std.specs.Prelude.{◌≡◌, ◌↔◌, ◌<◌, ◌+◌, ◌++◌, ◌∷◌, [], ℕ, List, IsTrue, false, length, slice_get};
ghost use Rattle.type_core.specs.declared.ty.Ty.TheViews.{out-Ty};
ghost use Rattle.linear_match.specs.Meetings.{MeetEach, MeetFields, Meeting, Meets};
ghost use Rattle.linear_match.specs.search.Cutting.{IsEndedByNone, IsTakenByNone, TakesOne};
ghost use Rattle.linear_match.specs.search.Tasks.{IsRigid};

use crate::singles::{single_arrow, single_atom};
use iso_normal::Factor;
use type_core::{Field, Ty, same};

/// Whether the factors are one tree.
#[cycle(same_factor)]
pub fn same_factor(a: &Factor, b: &Factor) -> bool
    ensures value { IsTrue result ↔ (a.now ≡ b.now) }
{
    match (a, b) {
        (Factor::Atom(t), Factor::Atom(u)) => same(t, u),
        (Factor::Arr(arguments, results), Factor::Arr(others, other_results)) => {
            if !same_factors(arguments.as_slice(), others.as_slice()) {
                return false;
            }
            same_factors(results.as_slice(), other_results.as_slice())
        }
        _ => false,
    }
}

#[cycle(same_factor)]
fn same_factors(a: &[Factor], b: &[Factor]) -> bool
    ensures value { IsTrue result ↔ (a.now ≡ b.now) }
{
    if a.len() != b.len() {
        return false;
    }
    for i in 0..a.len() {
        if !same_factor(&a[i], &b[i]) {
            return false;
        }
    }
    true
}

/// Whether the factor at the next place is the same.
pub fn is_repeated(fs: &[Factor], at: usize) -> bool
    requires within { at < length fs.now }
    ensures same { IsTrue result → slice_get fs.now (at + 1) ≡ slice_get fs.now at }
{
    at + 1 < fs.len() && same_factor(&fs[at], &fs[at + 1])
}

/// Whether the pattern may be the type but for its variables, whatever these have met.
#[cycle(may_meet)]
fn may_meet(p: &Ty, t: &Ty) -> bool
    ensures none { result ≡ false → (ms : List Meeting) → ¬ (Meets (out-Ty p.now) t.now ms) }
{
    match (p, t) {
        (Ty::Var(_), _) => true,
        (Ty::Con(name, parts), Ty::Con(other, others)) => {
            if name.0 != other.0 {
                return false;
            }
            each_may_meet(parts.as_slice(), others.as_slice())
        }
        (Ty::Rec(fields), Ty::Rec(others)) => {
            fields_may_meet(fields.as_slice(), others.as_slice())
        }
        (Ty::Tup(parts), Ty::Tup(others)) => each_may_meet(parts.as_slice(), others.as_slice()),
        (Ty::Arrow(from, to), Ty::Arrow(other_from, other_to)) => {
            if !may_meet(from.get(), other_from.get()) {
                return false;
            }
            may_meet(to.get(), other_to.get())
        }
        _ => false,
    }
}

#[cycle(may_meet)]
fn each_may_meet(parts: &[Ty], others: &[Ty]) -> bool
    ensures none { result ≡ false → (ms : List Meeting) → ¬ (MeetEach parts.now others.now ms) }
{
    if parts.len() != others.len() {
        return false;
    }
    for i in 0..parts.len() {
        if !may_meet(&parts[i], &others[i]) {
            return false;
        }
    }
    true
}

#[cycle(may_meet)]
fn fields_may_meet(fields: &[Field], others: &[Field]) -> bool
    ensures none { result ≡ false → (ms : List Meeting) → ¬ (MeetFields fields.now others.now ms) }
{
    if fields.len() != others.len() {
        return false;
    }
    for i in 0..fields.len() {
        if !may_meet(&fields[i].ty, &others[i].ty) {
            return false;
        }
    }
    true
}

/// Whether the pattern is an application or a record.
pub fn is_rigid(p: &Ty) -> bool
    ensures value { IsTrue result → IsRigid (out-Ty p.now) }
{
    match p {
        Ty::Con(_, _) => true,
        Ty::Rec(_) => true,
        _ => false,
    }
}

/// Whether the pattern takes exactly one factor: it is an application or a record, or an arrow to one that does.
#[cycle(takes_one)]
fn takes_one(p: &Ty) -> bool
    ensures value { IsTrue result → TakesOne p.now }
{
    match p {
        Ty::Arrow(_, to) => takes_one(to.get()),
        _ => is_rigid(p),
    }
}

/// Whether the pattern may take this factor behind those that it has, and maybe more.
pub fn may_take(p: &Ty, held: &[Factor], f: &Factor) -> bool
    ensures none { result ≡ false → IsTakenByNone p.now (held.now ++ f.now ∷ []) }
{
    if let Ty::Tup(parts) = p {
        return !parts.as_slice().is_empty();
    }
    if takes_one(p) && !held.is_empty() {
        return false;
    }
    if !is_rigid(p) {
        return true;
    }
    match f {
        Factor::Atom(t) => may_meet(p, t),
        Factor::Arr(_, _) => false,
    }
}

/// Whether the right side of an arrow may take these results, behind whatever arguments it gets.
#[cycle(may_end)]
pub fn may_end(p: &Ty, results: &[Factor]) -> bool
    ensures none { result ≡ false → IsEndedByNone p.now results.now }
{
    if let Ty::Arrow(_, to) = p {
        if single_arrow(results).is_some() {
            return true;
        }
        return may_end(to.get(), results);
    }
    if !is_rigid(p) {
        return true;
    }
    match single_atom(results) {
        Some(t) => may_meet(p, t),
        None => false,
    }
}
