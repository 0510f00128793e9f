// Types by hand, and their normal forms; pairings by hand, their words and inverses.
ghost use Rattle.std.specs.Prelude.{◌≡◌, [], ◌∷◌, IfOk};
ghost use Rattle.iso_normal.specs.PairTrees.{IsPermuted, entry, pair_tree};

use crate::{Entry, Factor, PairTree, agree, inverse, linear, normal, pairing, reify};
use sig_base::{List, NoMemory, Row, Shared, Text};
use std::alloc::Global;
use std::test::Fail;
use type_core::{Coordinate, NameId, Ty, VarId, initial_names, print_type};

fn variable(letter: u8) -> Ty {
    Ty::Var(VarId {
        n: letter.wrapping_sub(b'a') as u32,
        eq: false,
    })
}

fn unit() -> Ty {
    Ty::Tup(Row::empty())
}

fn arrow(alloc: Global, from: Ty, to: Ty) -> Result<Ty, NoMemory> {
    let from = Shared::new(alloc, from)?;
    let to = Shared::new(alloc, to)?;
    Ok(Ty::Arrow(from, to))
}

fn pair(alloc: Global, first: Ty, second: Ty) -> Result<List<Ty>, NoMemory> {
    let mut both = List::new(alloc);
    both.push(first)?;
    both.push(second)?;
    Ok(both)
}

/// The type last read; unit where there is none.
fn top(stack: &mut List<Ty>) -> Ty {
    match stack.pop() {
        Some(t) => t,
        None => unit(),
    }
}

/// The type that a byte makes of those read before it.
fn step(alloc: Global, stack: &mut List<Ty>, byte: u8) -> Result<Ty, NoMemory> {
    match byte {
        b'1' => Ok(unit()),
        b'*' => {
            let second = top(stack);
            let first = top(stack);
            Ok(Ty::Tup(Row::new(alloc, pair(alloc, first, second)?)?))
        }
        b'>' => {
            let to = top(stack);
            let from = top(stack);
            arrow(alloc, from, to)
        }
        b'3' => {
            let third = top(stack);
            let second = top(stack);
            let first = top(stack);
            let mut all = pair(alloc, first, second)?;
            all.push(third)?;
            Ok(Ty::Tup(Row::new(alloc, all)?))
        }
        b'N' => {
            let second = top(stack);
            let first = top(stack);
            let arguments = Row::new(alloc, pair(alloc, first, second)?)?;
            Ok(Ty::Con(NameId(13), arguments))
        }
        letter => Ok(variable(letter)),
    }
}

/// The type in postfix notation: letters are variables, `1` is unit, `*` a pair, `3` a triple, `>` an arrow and `N` a
/// name of two arguments.
fn read(alloc: Global, text: &[u8]) -> Result<Ty, NoMemory> {
    let mut stack = List::new(alloc);
    for byte in text {
        let t = step(alloc, &mut stack, *byte)?;
        stack.push(t)?;
    }
    Ok(top(&mut stack))
}

/// Writes a letter for a variable, and `N` for another head.
fn write_head(text: &mut Text, head: &Ty) -> Result<(), NoMemory> {
    match head {
        Ty::Var(v) => text.push(b'a' + (v.n % 26) as u8),
        _ => text.push(b'N'),
    }
}

/// Writes each coordinate as its arguments in parentheses and its head.
#[cycle(write_coordinates)]
fn write_coordinates(text: &mut Text, all: &[Coordinate]) -> Result<(), NoMemory> {
    for c in all {
        text.push(b'(')?;
        write_coordinates(text, c.arguments.as_slice())?;
        text.push(b')')?;
        write_head(text, &c.head)?;
    }
    Ok(())
}

/// Writes each atom as its head, and each arrow as `(arguments>results)`.
#[cycle(write_factors)]
fn write_factors(text: &mut Text, all: &[Factor]) -> Result<(), NoMemory> {
    for f in all {
        match f {
            Factor::Atom(t) => write_head(text, t)?,
            Factor::Arr(arguments, results) => {
                text.push(b'(')?;
                write_factors(text, arguments.as_slice())?;
                text.push(b'>')?;
                write_factors(text, results.as_slice())?;
                text.push(b')')?;
            }
        }
    }
    Ok(())
}

/// Writes each entry as its pairing of arguments in parentheses and the digit of its place.
#[cycle(write_pairing)]
fn write_pairing(text: &mut Text, p: &PairTree) -> Result<(), NoMemory> {
    for e in p.entries.as_slice() {
        text.push(b'(')?;
        write_pairing(text, &e.args)?;
        text.push(b')')?;
        text.push(b'0' + (e.place % 10) as u8)?;
    }
    Ok(())
}

fn has_coordinates(alloc: Global, t: &Ty, wanted: &[u8]) -> Result<bool, NoMemory> {
    let mut text = Text::new(alloc);
    let cs = normal(alloc, t)?;
    write_coordinates(&mut text, cs.as_slice())?;
    Ok(text.as_slice() == wanted)
}

fn has_factors(alloc: Global, t: &Ty, wanted: &[u8]) -> Result<bool, NoMemory> {
    let mut text = Text::new(alloc);
    let fs = linear(alloc, t)?;
    write_factors(&mut text, fs.as_slice())?;
    Ok(text.as_slice() == wanted)
}

/// Whether this is the product of the factors of the type.
fn has_product(alloc: Global, t: &Ty, wanted: &[u8]) -> Result<bool, NoMemory> {
    let fs = linear(alloc, t)?;
    let product = reify(alloc, &fs)?;
    let names = initial_names(alloc)?;
    let shown = print_type(alloc, &names, &product)?;
    Ok(shown.as_slice() == wanted)
}

#[test]
fn types_have_coordinates(rt: HostRuntime) -> Result<(), Fail> {
    let alloc = rt.alloc();
    let cases = [
        (b"a".as_slice(), b"()a".as_slice()),
        (b"cab*13", b"()c()a()b"),
        (b"abN", b"()N"),
        (b"abc>>", b"(()a()b)c"),
        (b"ab*cd*>", b"(()a()b)c(()a()b)d"),
        (b"1a>", b"()a"),
        (b"a1>", b""),
        (b"ab>cd>*e>", b"((()a)b(()c)d)e"),
    ];
    for (text, wanted) in cases {
        let t = read(alloc, text)?;
        assert!(rt; has_coordinates(alloc, &t, wanted)?);
    }
    Ok(())
}

#[test]
fn types_have_factors(rt: HostRuntime) -> Result<(), Fail> {
    let alloc = rt.alloc();
    let cases = [
        (b"1".as_slice(), b"".as_slice(), b"unit".as_slice()),
        (b"abc**", b"abc", b"'a * 'b * 'c"),
        (b"a1*", b"a", b"'a"),
        (b"abc>>", b"(ab>c)", b"'a * 'b -> 'c"),
        (b"a1bc>*>", b"(ab>c)", b"'a * 'b -> 'c"),
        (b"ab*cd*>", b"(ab>cd)", b"'a * 'b -> 'c * 'd"),
        (b"a1>", b"(a>)", b"'a -> unit"),
        (b"ab>c>", b"((a>b)>c)", b"('a -> 'b) -> 'c"),
    ];
    for (text, factors, product) in cases {
        let t = read(alloc, text)?;
        assert!(rt; has_factors(alloc, &t, factors)?);
        assert!(rt; has_product(alloc, &t, product)?);
    }
    Ok(())
}

fn have_like_factors(alloc: Global, first: &[u8], second: &[u8]) -> Result<bool, NoMemory> {
    let fs = linear(alloc, &read(alloc, first)?)?;
    let gs = linear(alloc, &read(alloc, second)?)?;
    agree(alloc, fs.as_slice(), gs.as_slice())
}

#[test]
fn factors_agree(rt: HostRuntime) -> Result<(), Fail> {
    let alloc = rt.alloc();
    let cases = [
        (b"abc**".as_slice(), b"cb*a*".as_slice(), true),
        (b"aab**", b"abb**", false),
        (b"aa*", b"a", false),
        (b"abc>>", b"ba*c>", true),
        (b"ab>cd>*", b"cd>ab>*", true),
        (b"ab>", b"ba>", false),
        (b"a1>", b"1", false),
    ];
    for (first, second, wanted) in cases {
        assert!(rt; have_like_factors(alloc, first, second)? == wanted);
    }
    Ok(())
}

/// Whether the word is that of the pairing of these coordinates; of none, where the text is empty.
fn reads(
    alloc: Global,
    a: &List<Coordinate>,
    word: &[u32],
    wanted: &[u8],
) -> Result<bool, NoMemory> {
    let mut text = Text::new(alloc);
    match pairing(alloc, a, word)? {
        Some(p) => write_pairing(&mut text, &p)?,
        None => {}
    }
    Ok(text.as_slice() == wanted)
}

#[test]
fn words_are_read(rt: HostRuntime) -> Result<(), Fail> {
    let alloc = rt.alloc();
    let cases = [
        (
            b"ab>cd*>".as_slice(),
            [9, 8, 7, 6, 5, 4].as_slice(),
            b"((()7)8)9((()4)5)6".as_slice(),
        ),
        (b"ab>cd*>", &[1, 0, 0, 0, 0], b""),
        (b"ab>cd*>", &[1, 0, 0, 0, 0, 0, 0], b""),
        (b"a", &[], b""),
        (b"a", &[3], b"()3"),
    ];
    for (text, word, wanted) in cases {
        let t = read(alloc, text)?;
        let a = normal(alloc, &t)?;
        assert!(rt; reads(alloc, &a, word, wanted)?);
    }
    Ok(())
}

fn leaf(alloc: Global, place: u32) -> Entry
    ensures value { result ≡ entry place (pair_tree []) }
{
    let entries = List::new(alloc);
    Entry {
        place,
        args: PairTree { entries },
    }
}

fn two(alloc: Global, first: Entry, second: Entry) -> Result<List<Entry>, NoMemory>
    ensures value { IfOk result (λ entries. entries ≡ first ∷ second ∷ []) }
{
    let mut entries = List::new(alloc);
    entries.push(first)?;
    entries.push(second)?;
    Ok(entries)
}

/// A pairing of two coordinates without arguments, each with the other.
fn exchange(alloc: Global) -> Result<PairTree, NoMemory>
    ensures permuted { IfOk result IsPermuted }
{
    let entries = two(alloc, leaf(alloc, 1), leaf(alloc, 0))?;
    Ok(PairTree { entries })
}

/// A pairing of three coordinates, of which the first has two arguments.
fn cycle_of_three(alloc: Global) -> Result<PairTree, NoMemory>
    ensures permuted { IfOk result IsPermuted }
{
    let args = exchange(alloc)?;
    let first = Entry { place: 1, args };
    let mut entries = two(alloc, first, leaf(alloc, 2))?;
    entries.push(leaf(alloc, 0))?;
    Ok(PairTree { entries })
}

fn is_written(alloc: Global, p: &PairTree, wanted: &[u8]) -> Result<bool, NoMemory> {
    let mut text = Text::new(alloc);
    write_pairing(&mut text, p)?;
    Ok(text.as_slice() == wanted)
}

#[test]
fn pairings_are_inverted(rt: HostRuntime) -> Result<(), Fail> {
    let alloc = rt.alloc();
    let p = cycle_of_three(alloc)?;
    assert!(rt; is_written(alloc, &p, b"(()1()0)1()2()0")?);
    let q = inverse(alloc, &p)?;
    assert!(rt; is_written(alloc, &q, b"()2(()1()0)0()1")?);
    Ok(())
}
