// The search, letter after letter.
ghost use Rattle.std.specs.Prelude.{◌≡◌, ◌<◌, ◌≤◌, ◌++◌, ◌∷◌, ◌%◌, ◌+◌, List, [], ℕ, IsTrue, false, true, length, map, replicate, take, IfOk, OnOk};
ghost use Rattle.std.specs.List.{All};
ghost use Rattle.iso_normal.specs.Factors.{factors_of_arrow};
ghost use Rattle.linear_match.specs.search.Bindings.{AreGood, meetings_of};
ghost use Rattle.linear_match.specs.search.Cutting.{NoneBefore, NoneMarked};
ghost use Rattle.linear_match.specs.search.Tasks.{AreSmall, AreSmallSides, Beginning, DealingFrom, Finds, HasNone, IsRigid, IsSameDealing, IsSmall, Matching, MatchingBoth, MatchingFirst, MatchingPieces, SortingFrom, patterns_of, pieces_of};
ghost use Rattle.linear_match.specs.search.Weights.{AreHeld, AreWithin, counts};
ghost use Rattle.type_core.specs.declared.ty.Ty.TheVariants as ty;
ghost use Rattle.type_core.specs.declared.ty.Ty.TheViews.{out-Ty};

use crate::bindings::{Met, meet_list, meet_type};
use crate::cutting::{is_repeated, is_rigid, may_end};
use crate::singles::{single_arrow, single_atom};
use crate::useless::{is_useless, may_send, none_tried, tried_next};
use iso_normal::{Factor, add_arrow, copy_factor, copy_factors};
use sig_base::{List, NoMemory};
use std::alloc::Global;
use type_core::{Ty, TypeName, VarId};

/// A part of the pattern, and the factors that are to be split along it.
#[derive(Drop)]
pub struct Task<'a> {
    pub pattern: &'a Ty,
    pub factors: List<Factor>,
}

/// Factors that are dealt to the components of a tuple, of which each has some already.
#[derive(Drop)]
pub struct Dealing<'a, 'b> {
    pub parts: &'a [Ty],
    pub factors: &'b [Factor],
    pub pieces: Vec<List<Factor>>,
}

/// Arguments of an arrow that are sent to the left side of another or kept for its right side.
#[derive(Drop)]
pub struct Sorting<'a, 'b> {
    pub from: &'a Ty,
    pub to: &'a Ty,
    pub arguments: &'b [Factor],
    pub results: &'b [Factor],
    pub sent: List<Factor>,
    pub kept: List<Factor>,
}

/// Leaves the first `keep` values.
fn cut<T: Drop>(list: &mut List<T>, keep: usize)
    requires within { keep ≤ length list.old }
    ensures value { list.new ≡ take keep list.old }
{
    while list.len() > keep {
        let _last = list.pop();
    }
}

/// As many empty lists.
fn no_factors(alloc: Global, count: usize) -> Result<Vec<List<Factor>>, NoMemory>
    ensures value { IfOk result (λ pieces. pieces.items ≡ replicate count []) }
{
    let mut pieces = Vec::new(alloc);
    for _ in 0..count {
        pieces.push(List::new(alloc))?;
    }
    Ok(pieces)
}

/// Matches the tasks, the last first; what was met and the word then have what it takes, and else are as before.
#[cycle(search)]
pub fn search<'a>(
    alloc: Global,
    names: &List<TypeName>,
    tasks: &mut List<Task<'a>>,
    met: &mut List<Met>,
    word: &mut List<u32>,
) -> Result<bool, NoMemory>
    requires small { All IsSmall tasks.old }
    requires good { AreGood names.now (meetings_of met.old) }
    ensures found { IfOk result (λ found. found ≡ true
        → Finds names.now met.old met.new word.old word.new (Matching tasks.old)) }
    ensures none { IfOk result (λ found. found ≡ false → HasNone names.now (meetings_of met.old) (Matching tasks.old)) }
    ensures kept { IfOk result (λ found. found ≡ false → (tasks.new ≡ tasks.old) × (met.new ≡ met.old)
        × (word.new ≡ word.old)) }
{
    let Some(top) = tasks.pop() else {
        return Ok(true);
    };
    if match_task(alloc, names, &top, tasks, met, word)? {
        return Ok(true);
    }
    tasks.push(top)?;
    Ok(false)
}

/// Matches a task, and then the others.
#[cycle(search)]
fn match_task<'a>(
    alloc: Global,
    names: &List<TypeName>,
    top: &Task<'a>,
    tasks: &mut List<Task<'a>>,
    met: &mut List<Met>,
    word: &mut List<u32>,
) -> Result<bool, NoMemory>
    requires small_top { IsSmall top.now }
    requires small { All IsSmall tasks.old }
    requires good { AreGood names.now (meetings_of met.old) }
    ensures found { IfOk result (λ found. found ≡ true
        → Finds names.now met.old met.new word.old word.new (MatchingFirst top.now tasks.old)) }
    ensures none { IfOk result (λ found. found ≡ false
        → HasNone names.now (meetings_of met.old) (MatchingFirst top.now tasks.old)) }
    ensures kept { IfOk result (λ found. found ≡ false → (tasks.new ≡ tasks.old) × (met.new ≡ met.old)
        × (word.new ≡ word.old)) }
{
    match top.pattern {
        Ty::Var(v) => match_variable(alloc, names, *v, top, tasks, met, word),
        Ty::Con(_, _) => match_atom(alloc, names, top, tasks, met, word),
        Ty::Rec(_) => match_atom(alloc, names, top, tasks, met, word),
        Ty::Tup(parts) => {
            let mut dealing = Dealing {
                parts: parts.as_slice(),
                factors: top.factors.as_slice(),
                pieces: no_factors(alloc, parts.len())?,
            };
            let tried = none_tried(alloc, parts.len())?;
            deal(
                alloc,
                names,
                &mut dealing,
                0,
                tried.as_slice(),
                tasks,
                met,
                word,
            )
        }
        Ty::Arrow(from, to) => {
            match_arrow(alloc, names, from.get(), to.get(), top, tasks, met, word)
        }
    }
}

/// Matches a task whose pattern is the arrow between these, and then the others.
#[cycle(search)]
fn match_arrow<'a>(
    alloc: Global,
    names: &List<TypeName>,
    from: &'a Ty,
    to: &'a Ty,
    top: &Task<'a>,
    tasks: &mut List<Task<'a>>,
    met: &mut List<Met>,
    word: &mut List<u32>,
) -> Result<bool, NoMemory>
    requires arrow { top.now.pattern.now ≡ ty.Arrow from.now to.now }
    requires small_top { IsSmall top.now }
    requires small { All IsSmall tasks.old }
    requires good { AreGood names.now (meetings_of met.old) }
    ensures found { IfOk result (λ found. found ≡ true
        → Finds names.now met.old met.new word.old word.new (MatchingFirst top.now tasks.old)) }
    ensures none { IfOk result (λ found. found ≡ false
        → HasNone names.now (meetings_of met.old) (MatchingFirst top.now tasks.old)) }
    ensures kept { IfOk result (λ found. found ≡ false → (tasks.new ≡ tasks.old) × (met.new ≡ met.old)
        × (word.new ≡ word.old)) }
{
    let Some((arguments, results)) = single_arrow(top.factors.as_slice()) else {
        let left = Task {
            pattern: from,
            factors: List::new(alloc),
        };
        let right = Task {
            pattern: to,
            factors: copy_factors(alloc, top.factors.as_slice())?,
        };
        return match_both(alloc, names, left, right, tasks, met, word);
    };
    if !may_end(to, results) {
        return Ok(false);
    }
    let mut sorting = Sorting {
        from,
        to,
        arguments,
        results,
        sent: List::new(alloc),
        kept: List::new(alloc),
    };
    sort(alloc, names, &mut sorting, 0, false, tasks, met, word)
}

/// Matches a task whose pattern is this variable, and then the others.
#[cycle(search)]
fn match_variable<'a>(
    alloc: Global,
    names: &List<TypeName>,
    v: VarId,
    top: &Task<'a>,
    tasks: &mut List<Task<'a>>,
    met: &mut List<Met>,
    word: &mut List<u32>,
) -> Result<bool, NoMemory>
    requires variable { top.now.pattern.now ≡ ty.Var v }
    requires small { All IsSmall tasks.old }
    requires good { AreGood names.now (meetings_of met.old) }
    ensures found { IfOk result (λ found. found ≡ true
        → Finds names.now met.old met.new word.old word.new (MatchingFirst top.now tasks.old)) }
    ensures none { IfOk result (λ found. found ≡ false
        → HasNone names.now (meetings_of met.old) (MatchingFirst top.now tasks.old)) }
    ensures kept { IfOk result (λ found. found ≡ false → (tasks.new ≡ tasks.old) × (met.new ≡ met.old)
        × (word.new ≡ word.old)) }
{
    let before = met.len();
    let factors = copy_factors(alloc, top.factors.as_slice())?;
    if !meet_list(alloc, names, v, factors, met)? {
        cut(met, before);
        return Ok(false);
    }
    if search(alloc, names, tasks, met, word)? {
        return Ok(true);
    }
    cut(met, before);
    Ok(false)
}

/// Matches a task whose pattern is an application or a record, and then the others.
#[cycle(search)]
fn match_atom<'a>(
    alloc: Global,
    names: &List<TypeName>,
    top: &Task<'a>,
    tasks: &mut List<Task<'a>>,
    met: &mut List<Met>,
    word: &mut List<u32>,
) -> Result<bool, NoMemory>
    requires atom { IsRigid (out-Ty top.now.pattern.now) }
    requires small { All IsSmall tasks.old }
    requires good { AreGood names.now (meetings_of met.old) }
    ensures found { IfOk result (λ found. found ≡ true
        → Finds names.now met.old met.new word.old word.new (MatchingFirst top.now tasks.old)) }
    ensures none { IfOk result (λ found. found ≡ false
        → HasNone names.now (meetings_of met.old) (MatchingFirst top.now tasks.old)) }
    ensures kept { IfOk result (λ found. found ≡ false → (tasks.new ≡ tasks.old) × (met.new ≡ met.old)
        × (word.new ≡ word.old)) }
{
    let Some(t) = single_atom(top.factors.as_slice()) else {
        return Ok(false);
    };
    let before = met.len();
    if !meet_type(alloc, names, top.pattern, t, met)? {
        cut(met, before);
        return Ok(false);
    }
    if search(alloc, names, tasks, met, word)? {
        return Ok(true);
    }
    cut(met, before);
    Ok(false)
}

/// Matches two tasks, one after the other, and then the others.
#[cycle(search)]
fn match_both<'a>(
    alloc: Global,
    names: &List<TypeName>,
    left: Task<'a>,
    right: Task<'a>,
    tasks: &mut List<Task<'a>>,
    met: &mut List<Met>,
    word: &mut List<u32>,
) -> Result<bool, NoMemory>
    requires small_left { IsSmall left }
    requires small_right { IsSmall right }
    requires small { All IsSmall tasks.old }
    requires good { AreGood names.now (meetings_of met.old) }
    ensures found { IfOk result (λ found. found ≡ true
        → Finds names.now met.old met.new word.old word.new (MatchingBoth left.entry right.entry tasks.old)) }
    ensures none { IfOk result (λ found. found ≡ false
        → HasNone names.now (meetings_of met.old) (MatchingBoth left.entry right.entry tasks.old)) }
    ensures kept { IfOk result (λ found. found ≡ false → (tasks.new ≡ tasks.old) × (met.new ≡ met.old)
        × (word.new ≡ word.old)) }
{
    let waiting = tasks.len();
    tasks.push(right)?;
    tasks.push(left)?;
    if search(alloc, names, tasks, met, word)? {
        return Ok(true);
    }
    cut(tasks, waiting);
    Ok(false)
}

/// Deals the factors from number `at` on to components that have some already, and then matches these and the tasks.
/// A letter that is marked as tried isn't tried again.
#[cycle(search)]
fn deal<'a>(
    alloc: Global,
    names: &List<TypeName>,
    dealing: &mut Dealing<'a, '_>,
    at: usize,
    tried: &[bool],
    tasks: &mut List<Task<'a>>,
    met: &mut List<Met>,
    word: &mut List<u32>,
) -> Result<bool, NoMemory>
    requires within { at ≤ length dealing.old.factors.now }
    requires pieces { length dealing.old.pieces.items ≡ length dealing.old.parts.now }
    requires held { AreWithin (counts (take at dealing.old.factors.now)) dealing.old.pieces.items }
    requires marks { length tried.now ≡ length dealing.old.parts.now }
    requires tried { NoneMarked names.now (meetings_of met.old) (DealingFrom dealing.old at tasks.old) tried.now }
    requires small_parts { AreSmall dealing.old.parts.now }
    requires small { All IsSmall tasks.old }
    requires good { AreGood names.now (meetings_of met.old) }
    ensures found { IfOk result (λ found. found ≡ true
        → Finds names.now met.old met.new word.old word.new (DealingFrom dealing.old at tasks.old)) }
    ensures none { IfOk result (λ found. found ≡ false
        → HasNone names.now (meetings_of met.old) (DealingFrom dealing.old at tasks.old)) }
    ensures kept { IfOk result (λ found. found ≡ false → (tasks.new ≡ tasks.old) × (met.new ≡ met.old)
        × (word.new ≡ word.old)) }
    ensures undone { IfOk result (λ found. found ≡ false → IsSameDealing dealing.new dealing.old) }
{
    if at >= dealing.factors.len() {
        return match_pieces(alloc, names, dealing, tasks, met, word);
    }
    'letters: for letter in 0..dealing.parts.len() {
        if deal_next(alloc, names, dealing, at, letter, tried, tasks, met, word)? {
            return Ok(true);
        }
    }
    Ok(false)
}

/// Gives the next factor to the component of this letter, and deals the others.
#[cycle(search)]
fn deal_next<'a>(
    alloc: Global,
    names: &List<TypeName>,
    dealing: &mut Dealing<'a, '_>,
    at: usize,
    letter: usize,
    tried: &[bool],
    tasks: &mut List<Task<'a>>,
    met: &mut List<Met>,
    word: &mut List<u32>,
) -> Result<bool, NoMemory>
    requires more { at < length dealing.old.factors.now }
    requires below { letter < length dealing.old.parts.now }
    requires pieces { length dealing.old.pieces.items ≡ length dealing.old.parts.now }
    requires marks { length tried.now ≡ length dealing.old.parts.now }
    requires tried { NoneMarked names.now (meetings_of met.old) (DealingFrom dealing.old at tasks.old) tried.now }
    requires before { NoneBefore names.now (meetings_of met.old) (DealingFrom dealing.old at tasks.old) letter }
    requires held { AreWithin (counts (take at dealing.old.factors.now)) dealing.old.pieces.items }
    requires small_parts { AreSmall dealing.old.parts.now }
    requires small { All IsSmall tasks.old }
    requires good { AreGood names.now (meetings_of met.old) }
    ensures found { IfOk result (λ found. found ≡ true
        → Finds names.now met.old met.new word.old word.new (Beginning letter (DealingFrom dealing.old at tasks.old))) }
    ensures none { IfOk result (λ found. found ≡ false
        → HasNone names.now (meetings_of met.old) (Beginning letter (DealingFrom dealing.old at tasks.old))) }
    ensures kept { IfOk result (λ found. found ≡ false → (tasks.new ≡ tasks.old) × (met.new ≡ met.old)
        × (word.new ≡ word.old)) }
    ensures undone { IfOk result (λ found. found ≡ false → IsSameDealing dealing.new dealing.old) }
{
    if tried[letter] {
        return Ok(false);
    }
    if is_useless(alloc, dealing, at, letter)? {
        return Ok(false);
    }
    let count = dealing.parts.len();
    let place = (at + letter) % count;
    let next = tried_next(alloc, dealing, at, letter, tried)?;
    let (held, written) = (dealing.pieces[place].len(), word.len());
    let factor = copy_factor(alloc, &dealing.factors[at])?;
    dealing.pieces[place].push(factor)?;
    word.push(letter as u32)?;
    if deal(
        alloc,
        names,
        dealing,
        at + 1,
        next.as_slice(),
        tasks,
        met,
        word,
    )? {
        return Ok(true);
    }
    cut(&mut dealing.pieces[place], held);
    cut(word, written);
    Ok(false)
}

/// Matches each component with what was dealt to it, the first first, and then the tasks.
#[cycle(search)]
fn match_pieces<'a>(
    alloc: Global,
    names: &List<TypeName>,
    dealing: &Dealing<'a, '_>,
    tasks: &mut List<Task<'a>>,
    met: &mut List<Met>,
    word: &mut List<u32>,
) -> Result<bool, NoMemory>
    requires pieces { length dealing.now.pieces.items ≡ length dealing.now.parts.now }
    requires held { AreWithin (counts dealing.now.factors.now) dealing.now.pieces.items }
    requires small_parts { AreSmall dealing.now.parts.now }
    requires small { All IsSmall tasks.old }
    requires good { AreGood names.now (meetings_of met.old) }
    ensures found { IfOk result (λ found. found ≡ true
        → Finds names.now met.old met.new word.old word.new (MatchingPieces dealing.now tasks.old)) }
    ensures none { IfOk result (λ found. found ≡ false
        → HasNone names.now (meetings_of met.old) (MatchingPieces dealing.now tasks.old)) }
    ensures kept { IfOk result (λ found. found ≡ false → (tasks.new ≡ tasks.old) × (met.new ≡ met.old)
        × (word.new ≡ word.old)) }
{
    let waiting = tasks.len();
    push_pieces(alloc, dealing, tasks)?;
    if search(alloc, names, tasks, met, word)? {
        return Ok(true);
    }
    cut(tasks, waiting);
    Ok(false)
}

/// Puts each component with what was dealt to it on top of the tasks, so that the first is the last task.
fn push_pieces<'a>(
    alloc: Global,
    dealing: &Dealing<'a, '_>,
    tasks: &mut List<Task<'a>>,
) -> Result<(), NoMemory>
    requires pieces { length dealing.now.pieces.items ≡ length dealing.now.parts.now }
    requires small_parts { AreSmall dealing.now.parts.now }
    requires small { All IsSmall tasks.old }
    ensures patterns { OnOk result (patterns_of tasks.new ≡ dealing.now.parts.now ++ patterns_of tasks.old) }
    ensures pieces { OnOk result (pieces_of tasks.new ≡ dealing.now.pieces.items ++ pieces_of tasks.old) }
    ensures grown { OnOk result (take (length tasks.old) tasks.new ≡ tasks.old) }
    ensures small { OnOk result (All IsSmall tasks.new) }
{
    let count = dealing.parts.len();
    for i in 0..count {
        let k = count - 1 - i;
        tasks.push(Task {
            pattern: &dealing.parts[k],
            factors: copy_factors(alloc, dealing.pieces[k].as_slice())?,
        })?;
    }
    Ok(())
}

/// Sorts the arguments from number `at` on, and then matches both sides of the arrow and the tasks; the next isn't sent
/// where that was tried.
#[cycle(search)]
fn sort<'a>(
    alloc: Global,
    names: &List<TypeName>,
    sorting: &mut Sorting<'a, '_>,
    at: usize,
    tried: bool,
    tasks: &mut List<Task<'a>>,
    met: &mut List<Met>,
    word: &mut List<u32>,
) -> Result<bool, NoMemory>
    requires within { at ≤ length sorting.old.arguments.now }
    requires held { AreHeld sorting.old at }
    requires tried { IsTrue tried → HasNone names.now (meetings_of met.old)
        (Beginning 0 (SortingFrom sorting.old at tasks.old)) }
    requires small_sides { AreSmallSides sorting.old }
    requires small { All IsSmall tasks.old }
    requires good { AreGood names.now (meetings_of met.old) }
    ensures found { IfOk result (λ found. found ≡ true
        → Finds names.now met.old met.new word.old word.new (SortingFrom sorting.old at tasks.old)) }
    ensures none { IfOk result (λ found. found ≡ false
        → HasNone names.now (meetings_of met.old) (SortingFrom sorting.old at tasks.old)) }
    ensures kept { IfOk result (λ found. found ≡ false → (tasks.new ≡ tasks.old) × (met.new ≡ met.old)
        × (word.new ≡ word.old)) }
    ensures undone { IfOk result (λ found. found ≡ false → sorting.new ≡ sorting.old) }
{
    if at >= sorting.arguments.len() {
        let left = Task {
            pattern: sorting.from,
            factors: copy_factors(alloc, sorting.sent.as_slice())?,
        };
        let right = Task {
            pattern: sorting.to,
            factors: kept_arrow(alloc, sorting)?,
        };
        return match_both(alloc, names, left, right, tasks, met, word);
    }
    if send_next(alloc, names, sorting, at, tried, tasks, met, word)? {
        return Ok(true);
    }
    keep_next(alloc, names, sorting, at, tasks, met, word)
}

/// The factors of the arrow from the arguments that are kept to the results.
fn kept_arrow(alloc: Global, sorting: &Sorting) -> Result<List<Factor>, NoMemory>
    ensures value { IfOk result (λ fs. fs ≡ factors_of_arrow sorting.now.kept sorting.now.results.now) }
{
    let kept = copy_factors(alloc, sorting.kept.as_slice())?;
    let results = copy_factors(alloc, sorting.results)?;
    let mut factors = List::new(alloc);
    add_arrow(alloc, kept, results, &mut factors)?;
    Ok(factors)
}

/// Sends the next argument to the left side, and sorts the others.
#[cycle(search)]
fn send_next<'a>(
    alloc: Global,
    names: &List<TypeName>,
    sorting: &mut Sorting<'a, '_>,
    at: usize,
    tried: bool,
    tasks: &mut List<Task<'a>>,
    met: &mut List<Met>,
    word: &mut List<u32>,
) -> Result<bool, NoMemory>
    requires more { at < length sorting.old.arguments.now }
    requires held { AreHeld sorting.old at }
    requires tried { IsTrue tried → HasNone names.now (meetings_of met.old)
        (Beginning 0 (SortingFrom sorting.old at tasks.old)) }
    requires small_sides { AreSmallSides sorting.old }
    requires small { All IsSmall tasks.old }
    requires good { AreGood names.now (meetings_of met.old) }
    ensures found { IfOk result (λ found. found ≡ true
        → Finds names.now met.old met.new word.old word.new (Beginning 0 (SortingFrom sorting.old at tasks.old))) }
    ensures none { IfOk result (λ found. found ≡ false
        → HasNone names.now (meetings_of met.old) (Beginning 0 (SortingFrom sorting.old at tasks.old))) }
    ensures kept { IfOk result (λ found. found ≡ false → (tasks.new ≡ tasks.old) × (met.new ≡ met.old)
        × (word.new ≡ word.old)) }
    ensures undone { IfOk result (λ found. found ≡ false → sorting.new ≡ sorting.old) }
{
    if tried {
        return Ok(false);
    }
    if !may_send(sorting, at) {
        return Ok(false);
    }
    let (held, written) = (sorting.sent.len(), word.len());
    let factor = copy_factor(alloc, &sorting.arguments[at])?;
    sorting.sent.push(factor)?;
    word.push(0)?;
    if sort(alloc, names, sorting, at + 1, false, tasks, met, word)? {
        return Ok(true);
    }
    cut(&mut sorting.sent, held);
    cut(word, written);
    Ok(false)
}

/// Keeps the next argument for the right side, and sorts the others.
#[cycle(search)]
fn keep_next<'a>(
    alloc: Global,
    names: &List<TypeName>,
    sorting: &mut Sorting<'a, '_>,
    at: usize,
    tasks: &mut List<Task<'a>>,
    met: &mut List<Met>,
    word: &mut List<u32>,
) -> Result<bool, NoMemory>
    requires more { at < length sorting.old.arguments.now }
    requires held { AreHeld sorting.old at }
    requires tried { HasNone names.now (meetings_of met.old) (Beginning 0 (SortingFrom sorting.old at tasks.old)) }
    requires small_sides { AreSmallSides sorting.old }
    requires small { All IsSmall tasks.old }
    requires good { AreGood names.now (meetings_of met.old) }
    ensures found { IfOk result (λ found. found ≡ true
        → Finds names.now met.old met.new word.old word.new (Beginning 1 (SortingFrom sorting.old at tasks.old))) }
    ensures none { IfOk result (λ found. found ≡ false
        → HasNone names.now (meetings_of met.old) (Beginning 1 (SortingFrom sorting.old at tasks.old))) }
    ensures kept { IfOk result (λ found. found ≡ false → (tasks.new ≡ tasks.old) × (met.new ≡ met.old)
        × (word.new ≡ word.old)) }
    ensures undone { IfOk result (λ found. found ≡ false → sorting.new ≡ sorting.old) }
{
    if is_rigid(sorting.to) {
        return Ok(false);
    }
    let (held, written) = (sorting.kept.len(), word.len());
    let factor = copy_factor(alloc, &sorting.arguments[at])?;
    sorting.kept.push(factor)?;
    word.push(1)?;
    let repeated = is_repeated(sorting.arguments, at);
    if sort(alloc, names, sorting, at + 1, repeated, tasks, met, word)? {
        return Ok(true);
    }
    cut(&mut sorting.kept, held);
    cut(word, written);
    Ok(false)
}
