// The queries among the members of a library, and how many hits they have.
ghost use Rattle.std.specs.Prelude.{◌≡◌, ◌+◌, IfOk, IfSome};
ghost use Rattle.std.specs.List.{All, Contains};
ghost use Rattle.type_core.specs.ValidLibrary.{IsValidLibrary};
ghost use Rattle.search_core.specs.Search.{CanBeSearchedFor};
ghost use Rattle.lib_gen.specs.Classes.{AreClasses, is_among};
ghost use Rattle.lib_gen.specs.Counts.{AreCounts, IsCounted};
ghost use Rattle.lib_gen.specs.Summary.{AreTotals, HasHits};

use crate::classes::{Classes, classes_of};
use search_core::{Hit, Mode, search};
use sig_base::{List, NoMemory};
use std::alloc::Global;
use type_core::{Library, Scheme};

/// How many queries there are, and how many hits they have in all, up to isomorphism and for more general members.
#[derive(Clone, Copy, Debug)]
pub struct Totals {
    pub queries: usize,
    pub iso: usize,
    pub general: usize,
}

/// How many hits a query has, up to isomorphism and for more general members.
#[derive(Clone, Copy, Debug)]
pub struct Counts {
    pub iso: usize,
    pub general: usize,
}

/// A scheme that was searched for.
#[derive(Clone, Copy, Debug)]
pub struct Searched {
    /// The scheme's number.
    pub class: usize,
    pub counts: Counts,
}

/// The totals of the queries among the first `n` members of the library.
///
/// Members of one scheme have the same hits. So a scheme is searched for once, among the distinct schemes.
pub fn totals_of(alloc: Global, lib: &Library, n: u32) -> Result<Totals, NoMemory>
    requires valid { IsValidLibrary lib.now }
    ensures totals { IfOk result (AreTotals lib.now n) }
{
    let classes = classes_of(alloc, lib)?;
    let mut totals = Totals {
        queries: 0,
        iso: 0,
        general: 0,
    };
    let mut before = List::new(alloc);
    for i in 0..n {
        if i % 100 == 13 {
            let Some(class) = classes.numbers.get(i as usize) else {
                return Err(NoMemory);
            };
            let searched = counted(alloc, lib, &classes, *class, before.as_slice())?;
            totals = with_query(totals, searched.counts)?;
            before.push(searched)?;
        }
    }
    Ok(totals)
}

/// The totals with those of one more query.
fn with_query(totals: Totals, counts: Counts) -> Result<Totals, NoMemory>
    ensures queries { IfOk result (λ sum. sum.queries ≡ totals.queries + 1) }
    ensures iso { IfOk result (λ sum. sum.iso ≡ totals.iso + counts.iso) }
    ensures general { IfOk result (λ sum. sum.general ≡ totals.general + counts.general) }
{
    Ok(Totals {
        queries: added(totals.queries, 1)?,
        iso: added(totals.iso, counts.iso)?,
        general: added(totals.general, counts.general)?,
    })
}

fn added(a: usize, b: usize) -> Result<usize, NoMemory>
    ensures value { IfOk result (λ sum. sum ≡ a + b) }
{
    a.checked_add(b).ok_or(NoMemory)
}

/// How many hits the scheme of this class has. One that was searched for before isn't searched for again.
fn counted(
    alloc: Global,
    lib: &Library,
    classes: &Classes,
    class: usize,
    before: &[Searched],
) -> Result<Searched, NoMemory>
    requires classes { AreClasses lib.now classes.now }
    requires before { All (IsCounted lib.now classes.now) before.now }
    ensures class { IfOk result (λ searched. searched.class ≡ class) }
    ensures counted { IfOk result (IsCounted lib.now classes.now) }
{
    if let Some(searched) = known(before, class) {
        return Ok(searched);
    }
    let Some(member) = classes.schemes.members.get(class) else {
        return Err(NoMemory);
    };
    let counts = Counts {
        iso: count(alloc, lib, classes, Mode::Iso, &member.scheme)?,
        general: count(alloc, lib, classes, Mode::General, &member.scheme)?,
    };
    Ok(Searched { class, counts })
}

/// What was counted for the scheme of this class.
fn known(before: &[Searched], class: usize) -> Option<Searched>
    ensures class { IfSome result (λ searched. searched.class ≡ class) }
    ensures among { IfSome result (Contains before.now) }
{
    for searched in before {
        if searched.class == class {
            return Some(*searched);
        }
    }
    None
}

/// How many members the mode finds for the query: all whose schemes it finds.
fn count(
    alloc: Global,
    lib: &Library,
    classes: &Classes,
    mode: Mode,
    query: &Scheme,
) -> Result<usize, NoMemory>
    requires classes { AreClasses lib.now classes.now }
    requires query { CanBeSearchedFor query.now }
    ensures count { IfOk result (HasHits lib.now mode query.now) }
{
    let answer = search(alloc, &classes.schemes, mode, query)?;
    let numbers = classes.numbers.as_slice();
    let mut count = 0;
    for i in 0..numbers.len() {
        if is_hit(answer.hits.as_slice(), numbers[i]) {
            count += 1;
        }
    }
    Ok(count)
}

/// Whether the member of this number was found.
fn is_hit(hits: &[Hit], number: usize) -> bool
    ensures value { result ≡ is_among hits.now number }
{
    for hit in hits {
        if hit.member as usize == number {
            return true;
        }
    }
    false
}
