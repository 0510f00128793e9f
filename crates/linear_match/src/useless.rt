// Letters of a dealing that needn't be tried.
ghost use Rattle.std.specs.Prelude.{◌≡◌, ◌<◌, ◌≤◌, ◌∷◌, [], ℕ, List, Some, IsTrue, IfOk, false, length, replicate, slice_get};
ghost use Rattle.type_core.specs.declared.names.TypeName.{TypeName};
ghost use Rattle.type_core.specs.declared.ty.Ty.TheVariants as ty;
ghost use Rattle.type_core.specs.declared.ty.VarId.{VarId};
ghost use Rattle.linear_match.specs.declared.search.Task.{Task};
ghost use Rattle.linear_match.specs.Meetings.{Meeting};
ghost use Rattle.linear_match.specs.search.Cutting.{ArePassedOn, IsLackingPartner, IsLikeNone, WasInVain};
ghost use Rattle.linear_match.specs.search.Tasks.{Beginning, DealingFrom, HasNone, SortingFrom};

use crate::cutting::{is_repeated, may_take};
use crate::needs::lacks_atoms;
use crate::search::{Dealing, Sorting};
use iso_normal::{Factor, agree};
use sig_base::NoMemory;
use std::alloc::Global;
use type_core::Ty;

/// Whether no factor of the second list from number `from` on is like factor number `at` of the first.
fn is_like_none(
    alloc: Global,
    fs: &[Factor],
    at: usize,
    gs: &[Factor],
    from: usize,
) -> Result<bool, NoMemory>
    requires within { at < length fs.now }
    requires begun { from ≤ length gs.now }
    ensures none { IfOk result (λ r. IsTrue r → IsLikeNone fs.now at gs.now from) }
{
    for k in from..gs.len() {
        if agree(alloc, &fs[at..at + 1], &gs[k..k + 1])? {
            return Ok(false);
        }
    }
    Ok(true)
}

/// Whether the pattern is the variable of this number.
fn is_variable(p: &Ty, n: u32) -> bool
    ensures value { IsTrue result → (v : VarId) × (p.now ≡ ty.Var v) × (v.n ≡ n) }
{
    match p {
        Ty::Var(v) => v.n == n,
        _ => false,
    }
}

/// Whether the component at this place is a variable, and another component is the same variable, but has no factor
/// like the next, and no such factor is left.
fn lacks_partner(
    alloc: Global,
    dealing: &Dealing,
    at: usize,
    place: usize,
) -> Result<bool, NoMemory>
    requires more { at < length dealing.now.factors.now }
    requires below { place < length dealing.now.parts.now }
    requires pieces { length dealing.now.pieces.items ≡ length dealing.now.parts.now }
    ensures value { IfOk result (λ r. IsTrue r → IsLackingPartner dealing.now at place) }
{
    let Ty::Var(v) = &dealing.parts[place] else {
        return Ok(false);
    };
    let factors = dealing.factors;
    if !is_like_none(alloc, factors, at, factors, at + 1)? {
        return Ok(false);
    }
    for k in 0..dealing.parts.len() {
        if k == place || !is_variable(&dealing.parts[k], v.n) {
            continue;
        }
        if is_like_none(alloc, factors, at, dealing.pieces[k].as_slice(), 0)? {
            return Ok(true);
        }
    }
    Ok(false)
}

/// Whether the component of this letter takes the next factor for no word.
pub fn is_useless(
    alloc: Global,
    dealing: &Dealing,
    at: usize,
    letter: usize,
) -> Result<bool, NoMemory>
    requires more { at < length dealing.now.factors.now }
    requires below { letter < length dealing.now.parts.now }
    requires pieces { length dealing.now.pieces.items ≡ length dealing.now.parts.now }
    ensures none { IfOk result (λ r. IsTrue r → (names : List TypeName) (ms : List Meeting) (tasks : List Task)
        → HasNone names ms (Beginning letter (DealingFrom dealing.now at tasks))) }
{
    let place = (at + letter) % dealing.parts.len();
    let (part, piece) = (&dealing.parts[place], dealing.pieces[place].as_slice());
    if !may_take(part, piece, &dealing.factors[at]) {
        return Ok(true);
    }
    if lacks_partner(alloc, dealing, at, place)? {
        return Ok(true);
    }
    Ok(lacks_atoms(dealing, at, place))
}

/// Whether the left side of an arrow may take the next argument.
pub fn may_send(sorting: &Sorting, at: usize) -> bool
    requires more { at < length sorting.now.arguments.now }
    ensures none { result ≡ false → (names : List TypeName) (ms : List Meeting) (tasks : List Task)
        → HasNone names ms (Beginning 0 (SortingFrom sorting.now at tasks)) }
{
    may_take(
        sorting.from,
        sorting.sent.as_slice(),
        &sorting.arguments[at],
    )
}

/// As many letters, none of which is tried.
pub fn none_tried(alloc: Global, count: usize) -> Result<Vec<bool>, NoMemory>
    ensures value { IfOk result (λ tried. tried.items ≡ replicate count false) }
{
    let mut tried = Vec::new(alloc);
    for _ in 0..count {
        tried.push(false)?;
    }
    Ok(tried)
}

/// Whether the factor before had the place in vain that the next gets by letter l: by a letter before this one, or by one
/// with a mark.
fn was_in_vain(tried: &[bool], letter: usize, l: usize) -> bool
    requires within { l < length tried.now }
    ensures value { IsTrue result → WasInVain tried.now letter l }
{
    let earlier = (l + 1) % tried.len();
    earlier < letter || tried[earlier]
}

/// The letters by which the factor after the next needn't be dealt: where it is the same as the next, it would get a
/// place that the next had in vain.
pub fn tried_next(
    alloc: Global,
    dealing: &Dealing,
    at: usize,
    letter: usize,
    tried: &[bool],
) -> Result<Vec<bool>, NoMemory>
    requires more { at < length dealing.now.factors.now }
    ensures marks { IfOk result (λ next. length next.items ≡ length tried.now) }
    ensures same { IfOk result (λ next. ArePassedOn dealing.now.factors.now at letter tried.now next.items) }
{
    let count = tried.len();
    if !is_repeated(dealing.factors, at) {
        return none_tried(alloc, count);
    }
    let mut next = Vec::new(alloc);
    for l in 0..count {
        next.push(was_in_vain(tried, letter, l))?;
    }
    Ok(next)
}
