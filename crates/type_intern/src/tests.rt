// Coordinates by letters, and which of their numbers are one.
ghost use Rattle.std.specs.Prelude.{◌≡◌, ◌<◌, [], ◌∷◌, ◌++◌, length, IfOk};
ghost use Rattle.type_intern.specs.Meanings.{Keeps};
ghost use Rattle.type_intern.specs.Numbering.{AllBelow};
ghost use Rattle.type_intern.specs.Tops.{numbers_of};

use crate::{Arena, CoordId, Node, TyId};
use sig_base::{List, NoMemory, Row, Shared, Text};
use std::alloc::Global;
use std::test::Fail;
use type_core::{Field, NameId, Ty, VarId};

fn variable(letter: u8) -> Ty {
    let n = letter.wrapping_sub(b'a') as u32;
    Ty::Var(VarId { n, eq: n >= 8 })
}

fn list_of(alloc: Global, t: Ty) -> Result<Ty, NoMemory> {
    let mut arguments = List::new(alloc);
    arguments.push(t)?;
    Ok(Ty::Con(NameId(7), Row::new(alloc, arguments)?))
}

fn record_of(alloc: Global, t: Ty) -> Result<Ty, NoMemory> {
    let label = Text::from_slice(alloc, b"x")?;
    let mut fields = List::new(alloc);
    fields.push(Field { label, ty: t })?;
    Ok(Ty::Rec(Row::new(alloc, fields)?))
}

/// `a` to `h` are variables and later letters are variables with the equality mark; `1` and `2` are lists, and `3` and
/// `4` records, of the first two variables.
fn head(alloc: Global, letter: u8) -> Result<Ty, NoMemory> {
    match letter {
        b'1' => list_of(alloc, variable(b'a')),
        b'2' => list_of(alloc, variable(b'b')),
        b'3' => record_of(alloc, variable(b'a')),
        b'4' => record_of(alloc, variable(b'b')),
        letter => Ok(variable(letter)),
    }
}

/// The number of the type.
fn interned(arena: &mut Arena, t: Ty) -> Result<TyId, NoMemory>
    ensures within { IfOk result (λ id. id.0 < length arena.new.types) }
    ensures keeps { Keeps arena.old arena.new }
{
    arena.intern(&t)
}

/// The coordinate with these arguments and the head that the letter stands for.
#[tactic(auto, using(crate::proofs::Rows::coords_kept))]
fn over(alloc: Global, arena: &mut Arena, args: &[CoordId], letter: u8) -> Result<CoordId, NoMemory>
    requires args { AllBelow (length arena.old.coords) (numbers_of args.now) }
    ensures within { IfOk result (λ c. c.0 < length arena.new.coords) }
    ensures keeps { Keeps arena.old arena.new }
{
    let t = head(alloc, letter)?;
    let head = interned(arena, t)?;
    arena.coord(args, head)
}

/// The row with one more coordinate; for a capital letter the one coordinate that takes the row as its arguments.
fn next(
    alloc: Global,
    arena: &mut Arena,
    row: List<CoordId>,
    letter: u8,
) -> Result<List<CoordId>, NoMemory>
    requires row { AllBelow (length arena.old.coords) (numbers_of row) }
    ensures within { IfOk result (λ ids. AllBelow (length arena.new.coords) (numbers_of ids)) }
    ensures keeps { Keeps arena.old arena.new }
{
    if letter.is_ascii_uppercase() {
        let c = over(alloc, arena, row.as_slice(), letter.to_ascii_lowercase())?;
        return one_more(List::new(alloc), c);
    }
    let c = over(alloc, arena, &[], letter)?;
    one_more(row, c)
}

fn one_more(row: List<CoordId>, c: CoordId) -> Result<List<CoordId>, NoMemory>
    ensures value { IfOk result (λ ids. ids ≡ row ++ c ∷ []) }
{
    let mut row = row;
    row.push(c)?;
    Ok(row)
}

/// A row of coordinates: each letter adds one, and a capital letter takes the row so far as its arguments.
fn read(alloc: Global, arena: &mut Arena, text: &[u8]) -> Result<List<CoordId>, NoMemory>
    ensures within { IfOk result (λ ids. AllBelow (length arena.new.coords) (numbers_of ids)) }
    ensures keeps { Keeps arena.old arena.new }
{
    let mut row = List::new(alloc);
    for letter in text {
        row = next(alloc, arena, row, *letter)?;
    }
    Ok(row)
}

/// `n` where the two have one number, `c` where they have one canonical number, and `e` where they have one erasure.
fn compare(arena: &Arena, a: CoordId, b: CoordId, text: &mut Text) -> Result<(), NoMemory>
    requires first { a.0 < length arena.now.coords }
    requires second { b.0 < length arena.now.coords }
{
    if a == b {
        text.push(b'n')?;
    }
    if arena.canon(a) == arena.canon(b) {
        text.push(b'c')?;
    }
    if arena.erased(a) == arena.erased(b) {
        text.push(b'e')?;
    }
    Ok(())
}

/// What two rows have in common, where each is one coordinate.
fn compare_alone(
    arena: &Arena,
    a: &[CoordId],
    b: &[CoordId],
    text: &mut Text,
) -> Result<(), NoMemory>
    requires first { AllBelow (length arena.now.coords) (numbers_of a.now) }
    requires second { AllBelow (length arena.now.coords) (numbers_of b.now) }
{
    if a.len() == 1 && b.len() == 1 {
        return compare(arena, a[0], b[0], text);
    }
    Ok(())
}

/// Whether two rows have one key.
#[tactic(auto, using(crate::proofs::Rows::coords_kept))]
fn have_one_key(arena: &mut Arena, a: &[CoordId], b: &[CoordId]) -> Result<bool, NoMemory>
    requires first { AllBelow (length arena.old.coords) (numbers_of a.now) }
    requires second { AllBelow (length arena.old.coords) (numbers_of b.now) }
{
    let key = arena.key(a)?;
    Ok(key == arena.key(b)?)
}

/// What two rows have in common, with `k` where they have one key.
#[tactic(auto, using(crate::proofs::Rows::coords_kept))]
fn told(alloc: Global, a: &[u8], b: &[u8]) -> Result<Text, NoMemory> {
    let mut arena = Arena::new(alloc)?;
    let a = read(alloc, &mut arena, a)?;
    let b = read(alloc, &mut arena, b)?;
    let mut text = Text::new(alloc);
    compare_alone(&arena, a.as_slice(), b.as_slice(), &mut text)?;
    if have_one_key(&mut arena, a.as_slice(), b.as_slice())? {
        text.push(b'k')?;
    }
    Ok(text)
}

#[test]
fn numbers_that_are_one(rt: HostRuntime) -> Result<(), Fail> {
    let alloc = rt.alloc();
    let cases = [
        (b"abC".as_slice(), b"abC".as_slice(), b"ncek".as_slice()),
        // the order of arguments, also of those of an argument
        (b"abC", b"baC", b"cek"),
        (b"abCdE", b"baCdE", b"cek"),
        (b"ab", b"ba", b"k"),
        // how often an argument comes
        (b"aaC", b"aC", b""),
        (b"aabC", b"abbC", b"ek"),
        (b"ab", b"a", b""),
        // variables and their marks, also beneath names and labels
        (b"a", b"b", b"ek"),
        (b"a", b"i", b""),
        (b"aiC", b"abC", b""),
        (b"ai", b"ab", b""),
        (b"ia", b"bj", b"k"),
        (b"1", b"2", b"ek"),
        (b"3", b"4", b"ek"),
        (b"1", b"3", b""),
        // a coordinate and its arguments
        (b"aB", b"ab", b""),
        (b"", b"", b"k"),
    ];
    for (a, b, wanted) in cases {
        let text = told(alloc, a, b)?;
        assert!(rt; text.as_slice() == wanted);
    }
    Ok(())
}

/// The number of the variable that the letter stands for.
fn number_of(arena: &mut Arena, letter: u8) -> Result<TyId, NoMemory>
    ensures within { IfOk result (λ id. id.0 < length arena.new.types) }
    ensures keeps { Keeps arena.old arena.new }
{
    interned(arena, variable(letter))
}

/// The number of the function type from one variable to another.
fn arrow_of(alloc: Global, arena: &mut Arena, from: u8, to: u8) -> Result<TyId, NoMemory>
    ensures within { IfOk result (λ id. id.0 < length arena.new.types) }
    ensures keeps { Keeps arena.old arena.new }
{
    let from = Shared::new(alloc, variable(from))?;
    let to = Shared::new(alloc, variable(to))?;
    interned(arena, Ty::Arrow(from, to))
}

/// Whether the function type from `a` to `i` is read back as it was put in.
#[tactic(auto, using(crate::proofs::Rows::type_kept))]
fn is_read_back(alloc: Global) -> Result<bool, NoMemory> {
    let mut arena = Arena::new(alloc)?;
    let a = number_of(&mut arena, b'a')?;
    let arrow = arrow_of(alloc, &mut arena, b'a', b'i')?;
    match arena.node(arrow) {
        Node::Arrow(from, to) => Ok(arena.same(*from, a) && !arena.same(*to, a)),
        _ => Ok(false),
    }
}

/// Whether a coordinate is read back as it was put in.
#[tactic(auto, using(crate::proofs::Rows::coord_kept))]
fn is_coordinate_read_back(alloc: Global) -> Result<bool, NoMemory> {
    let mut arena = Arena::new(alloc)?;
    let c = over(alloc, &mut arena, &[], b'a')?;
    let d = over(alloc, &mut arena, &[c], b'i')?;
    let args = arena.args(d);
    let is_argument = args.len() == 1 && args[0] == c;
    let (head, other) = (arena.head(d), arena.head(c));
    Ok(is_argument && !arena.same(head, other))
}

#[test]
fn what_is_numbered_is_read_back(rt: HostRuntime) -> Result<(), Fail> {
    assert!(rt; is_read_back(rt.alloc())?);
    assert!(rt; is_coordinate_read_back(rt.alloc())?);
    Ok(())
}

/// The number of a name without arguments.
fn name(arena: &mut Arena, n: u32) -> Result<TyId, NoMemory> {
    interned(arena, Ty::Con(NameId(n), Row::empty()))
}

/// The numbers of 100,000 types that differ.
fn many(alloc: Global, arena: &mut Arena) -> Result<Vec<TyId>, NoMemory> {
    let mut numbers = Vec::new(alloc);
    for n in 0..100_000 {
        numbers.push(name(arena, n)?)?;
    }
    Ok(numbers)
}

/// Whether the types get their numbers back when they are numbered again.
fn are_numbered_once(alloc: Global) -> Result<bool, NoMemory> {
    let mut arena = Arena::new(alloc)?;
    let numbers = many(alloc, &mut arena)?;
    let mut n = 0;
    for number in numbers.as_slice() {
        if name(&mut arena, n)? != *number {
            return Ok(false);
        }
        n = n.wrapping_add(1);
    }
    Ok(n == 100_000)
}

#[test]
fn many_types_are_numbered_once(rt: HostRuntime) -> Result<(), Fail> {
    assert!(rt; are_numbered_once(rt.alloc())?);
    Ok(())
}
