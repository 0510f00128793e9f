// The search, place after place.
ghost use Rattle.std.specs.Prelude.{◌≡◌, ◌↔◌, ◌<◌, ◌≤◌, ◌++◌, ◌∷◌, ℕ, List, IsTrue, false, true, length, replicate, slice_get, slice_set, take, IfOk};
ghost use Rattle.std.specs.List.{All};
ghost use Rattle.coord_match.specs.search.Bindings.{AreMatching};
ghost use Rattle.coord_match.specs.search.Tasks.{Filling, FillingAt, HasNone, IsBest, IsFree, IsSound, goal_of, goals_of};

use crate::bindings::{Bound, meet};
use crate::fingerprints::fingerprint;
use sig_base::{List, NoMemory};
use std::alloc::Global;
use type_core::{Coordinate, same};

/// Two lists of coordinates; those of the first from a place on are to be paired with those of the second that aren't
/// taken yet.
#[derive(Drop)]
pub struct Task<'a> {
    pub first: &'a [Coordinate],
    pub at: usize,
    pub second: &'a [Coordinate],
    pub taken: Vec<bool>,
}

/// Leaves the first `keep` values.
fn cut<T: Drop>(list: &mut List<T>, keep: usize)
    requires within { keep ≤ length list.old }
    ensures value { list.new ≡ take keep list.old }
{
    while list.len() > keep {
        let _last = list.pop();
    }
}

/// As many marks, for places none of which is taken.
pub fn none_taken(alloc: Global, count: usize) -> Result<Vec<bool>, NoMemory>
    ensures value { IfOk result (λ taken. taken.items ≡ replicate count false) }
{
    let mut taken = Vec::new(alloc);
    for _ in 0..count {
        taken.push(false)?;
    }
    Ok(taken)
}

/// The same marks, with one place more taken.
fn with_taken(alloc: Global, taken: &[bool], place: usize) -> Result<Vec<bool>, NoMemory>
    requires within { place < length taken.now }
    ensures value { IfOk result (λ marks. marks.items ≡ slice_set taken.now place true) }
{
    let mut marks = Vec::new(alloc);
    for mark in taken {
        marks.push(*mark)?;
    }
    marks[place] = true;
    Ok(marks)
}

#[cycle(same_coordinates)]
fn same_coordinates(a: &[Coordinate], b: &[Coordinate]) -> bool
    ensures value { IsTrue result ↔ (a.now ≡ b.now) }
{
    if a.len() != b.len() {
        return false;
    }
    for i in 0..a.len() {
        if !same_coordinate(&a[i], &b[i]) {
            return false;
        }
    }
    true
}

#[cycle(same_coordinates)]
fn same_coordinate(a: &Coordinate, b: &Coordinate) -> bool
    ensures value { IsTrue result ↔ (a.now ≡ b.now) }
{
    same(&a.head, &b.head) && same_coordinates(a.arguments.as_slice(), b.arguments.as_slice())
}

/// Whether this place might be taken by the next coordinate, but an earlier place that isn't taken holds the same as it.
fn was_tried(task: &Task, place: usize) -> bool
    requires more { task.now.at < length task.now.first.now }
    requires within { place < length task.now.second.now }
    requires sound { IsSound task.now }
    ensures earlier { IsTrue result → (j : ℕ) × (j < place) × IsFree task.now.taken.items j
        × (slice_get task.now.second.now j ≡ slice_get task.now.second.now place) }
{
    let (taken, second) = (task.taken.as_slice(), task.second);
    if taken[place] || fingerprint(&task.first[task.at]) != fingerprint(&second[place]) {
        return false;
    }
    for i in 0..place {
        let j = place - 1 - i;
        if !taken[j] && same_coordinate(&second[j], &second[place]) {
            return true;
        }
    }
    false
}

/// Pairs the tasks, the last first; the bindings and the word then have what it takes, and else are as before.
#[cycle(search)]
pub fn search<'a>(
    alloc: Global,
    tasks: &mut List<Task<'a>>,
    bound: &mut List<Bound>,
    word: &mut List<u32>,
) -> Result<bool, NoMemory>
    requires sound { All IsSound tasks.old }
    requires matching { AreMatching bound.old }
    ensures found { IfOk result (λ found. found ≡ true → (w : List ℕ) × (word.new ≡ word.old ++ w)
        × IsBest bound.old bound.new (Filling (goals_of tasks.old)) w) }
    ensures none { IfOk result (λ found. found ≡ false → HasNone bound.old (Filling (goals_of tasks.old))) }
    ensures kept { IfOk result (λ found. found ≡ false → (tasks.new ≡ tasks.old) × (bound.new ≡ bound.old)
        × (word.new ≡ word.old)) }
{
    let Some(top) = tasks.pop() else {
        return Ok(true);
    };
    if top.at >= top.first.len() {
        if search(alloc, tasks, bound, word)? {
            return Ok(true);
        }
        tasks.push(top)?;
        return Ok(false);
    }
    'places: for place in 0..top.second.len() {
        if was_tried(&top, place) {
            continue;
        }
        if try_place(alloc, &top, place, tasks, bound, word)? {
            return Ok(true);
        }
    }
    tasks.push(top)?;
    Ok(false)
}

/// Gives the next coordinate of a task this place, and pairs what is left and all other tasks.
#[cycle(search)]
fn try_place<'a>(
    alloc: Global,
    top: &Task<'a>,
    place: usize,
    tasks: &mut List<Task<'a>>,
    bound: &mut List<Bound>,
    word: &mut List<u32>,
) -> Result<bool, NoMemory>
    requires more { top.now.at < length top.now.first.now }
    requires within { place < length top.now.second.now }
    requires sound_top { IsSound top.now }
    requires sound { All IsSound tasks.old }
    requires matching { AreMatching bound.old }
    ensures found { IfOk result (λ found. found ≡ true → (w : List ℕ) × (word.new ≡ word.old ++ place ∷ w)
        × IsBest bound.old bound.new (FillingAt (goal_of top.now) (goals_of tasks.old) place) w) }
    ensures none { IfOk result (λ found. found ≡ false
        → HasNone bound.old (FillingAt (goal_of top.now) (goals_of tasks.old) place)) }
    ensures kept { IfOk result (λ found. found ≡ false → (tasks.new ≡ tasks.old) × (bound.new ≡ bound.old)
        × (word.new ≡ word.old)) }
{
    let taken = top.taken.as_slice();
    if taken[place] {
        return Ok(false);
    }
    let (first, second) = (top.first, top.second);
    let (a, b) = (&first[top.at], &second[place]);
    if a.arguments.len() != b.arguments.len() {
        return Ok(false);
    }
    if fingerprint(a) != fingerprint(b) {
        return Ok(false);
    }
    let (waiting, before, written) = (tasks.len(), bound.len(), word.len());
    if !meet(&a.head, &b.head, bound)? {
        cut(bound, before);
        return Ok(false);
    }
    tasks.push(Task {
        first,
        at: top.at + 1,
        second,
        taken: with_taken(alloc, taken, place)?,
    })?;
    tasks.push(Task {
        first: a.arguments.as_slice(),
        at: 0,
        second: b.arguments.as_slice(),
        taken: none_taken(alloc, b.arguments.len())?,
    })?;
    word.push(place as u32)?;
    if search(alloc, tasks, bound, word)? {
        return Ok(true);
    }
    cut(tasks, waiting);
    cut(bound, before);
    cut(word, written);
    Ok(false)
}
