// Atoms that the components of a dealing need, counted by the names at their heads.
ghost use Rattle.std.specs.Prelude.{◌≡◌, ◌<◌, ◌≤◌, ◌-◌, ℕ, IsTrue, length, map};
ghost use Rattle.type_core.specs.Lists.{sum_of};
ghost use Rattle.linear_match.specs.search.Needs.{IsShort, held, held_by, needed};

use crate::search::Dealing;
use iso_normal::Factor;
use type_core::Ty;

/// How many atoms with this name at their heads the pattern needs; if they are too many to be counted, fewer.
#[cycle(count_needed)]
fn count_needed(p: &Ty, head: u32) -> u64
    ensures least { result ≤ needed head p.now }
{
    match p {
        Ty::Var(_) => 0,
        Ty::Con(name, _) => { if name.0 == head { 1 } else { 0 } }
        Ty::Rec(_) => 0,
        Ty::Tup(parts) => count_all_needed(parts.as_slice(), head),
        Ty::Arrow(from, to) => {
            count_needed(from.get(), head).saturating_add(count_needed(to.get(), head))
        }
    }
}

#[cycle(count_needed)]
fn count_all_needed(parts: &[Ty], head: u32) -> u64
    ensures least { result ≤ sum_of (map (needed head) parts.now) }
{
    let mut count: u64 = 0;
    for part in parts {
        count = count.saturating_add(count_needed(part, head));
    }
    count
}

/// How many of the missing atoms with this name the factor leaves missing.
#[cycle(missing_after)]
fn missing_after(missing: u64, f: &Factor, head: u32) -> u64
    ensures value { result ≡ missing - held_by head f.now }
{
    match f {
        Factor::Atom(Ty::Con(name, _)) => {
            if name.0 == head {
                missing.saturating_sub(1)
            } else {
                missing
            }
        }
        Factor::Atom(_) => missing,
        Factor::Arr(arguments, results) => {
            let missing = missing_after_all(missing, arguments.as_slice(), head);
            missing_after_all(missing, results.as_slice(), head)
        }
    }
}

#[cycle(missing_after)]
fn missing_after_all(missing: u64, fs: &[Factor], head: u32) -> u64
    ensures value { result ≡ missing - held head fs.now }
{
    let mut left = missing;
    for f in fs {
        if left == 0 {
            return 0;
        }
        left = missing_after(left, f, head);
    }
    left
}

/// Whether the component of number k needs more atoms with this name than it has and are left behind the next factor.
fn lacks_head(dealing: &Dealing, at: usize, k: usize, head: u32) -> bool
    requires more { at < length dealing.now.factors.now }
    requires below { k < length dealing.now.parts.now }
    requires pieces { length dealing.now.pieces.items ≡ length dealing.now.parts.now }
    ensures value { IsTrue result → IsShort dealing.now at k }
{
    let needed = count_needed(&dealing.parts[k], head);
    let missing = missing_after_all(needed, dealing.pieces[k].as_slice(), head);
    missing_after_all(missing, &dealing.factors[at + 1..], head) > 0
}

/// Whether the component of number k is short of atoms with a name that this part of it has.
#[cycle(is_short)]
fn is_short(dealing: &Dealing, at: usize, k: usize, p: &Ty) -> bool
    requires more { at < length dealing.now.factors.now }
    requires below { k < length dealing.now.parts.now }
    requires pieces { length dealing.now.pieces.items ≡ length dealing.now.parts.now }
    ensures value { IsTrue result → IsShort dealing.now at k }
{
    match p {
        Ty::Var(_) => false,
        Ty::Con(name, _) => lacks_head(dealing, at, k, name.0),
        Ty::Rec(_) => false,
        Ty::Tup(parts) => is_short_in_any(dealing, at, k, parts.as_slice()),
        Ty::Arrow(from, to) => {
            if is_short(dealing, at, k, from.get()) {
                return true;
            }
            is_short(dealing, at, k, to.get())
        }
    }
}

#[cycle(is_short)]
fn is_short_in_any(dealing: &Dealing, at: usize, k: usize, parts: &[Ty]) -> bool
    requires more { at < length dealing.now.factors.now }
    requires below { k < length dealing.now.parts.now }
    requires pieces { length dealing.now.pieces.items ≡ length dealing.now.parts.now }
    ensures value { IsTrue result → IsShort dealing.now at k }
{
    for part in parts {
        if is_short(dealing, at, k, part) {
            return true;
        }
    }
    false
}

/// Whether a component other than the one at this place is short of atoms once that one has the next factor.
pub fn lacks_atoms(dealing: &Dealing, at: usize, place: usize) -> bool
    requires more { at < length dealing.now.factors.now }
    requires pieces { length dealing.now.pieces.items ≡ length dealing.now.parts.now }
    ensures value { IsTrue result → (there : ℕ) × (there ≡ place → ⊥) × IsShort dealing.now at there }
{
    for k in 0..dealing.parts.len() {
        if k == place {
            continue;
        }
        if is_short(dealing, at, k, &dealing.parts[k]) {
            return true;
        }
    }
    false
}
