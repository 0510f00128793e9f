// Types by hand, and the least words.
ghost use Rattle.std.specs.Prelude.{◌<◌, ◌^◌, IfOk};
ghost use Rattle.type_core.specs.Schemes.{IsScheme};
ghost use Rattle.type_core.specs.Size.{size_of};
ghost use Rattle.type_core.specs.Types.{IsType};

use crate::first;
use sig_base::{List, NoMemory, Row, Shared, Text};
use std::alloc::Global;
use std::test::Fail;
use type_core::{Equality, NameId, Scheme, Ty, TypeName, VarId, close, is_type, size};

/// The type last read; unit where there is none.
fn top(stack: &mut List<Ty>) -> Ty {
    match stack.pop() {
        Some(t) => t,
        None => Ty::Tup(Row::empty()),
    }
}

/// The last types, so many, in the order in which they were read.
fn several(alloc: Global, stack: &mut List<Ty>, count: usize) -> Result<Row<Ty>, NoMemory> {
    let mut last = List::new(alloc);
    for _ in 0..count {
        last.push(top(stack))?;
    }
    let mut parts = List::new(alloc);
    for _ in 0..count {
        parts.push(top(&mut last))?;
    }
    Row::new(alloc, parts)
}

fn arrow(alloc: Global, stack: &mut List<Ty>) -> Result<Ty, NoMemory> {
    let to = Shared::new(alloc, top(stack))?;
    let from = Shared::new(alloc, top(stack))?;
    Ok(Ty::Arrow(from, to))
}

/// The type that a byte makes of those read before it.
fn step(alloc: Global, stack: &mut List<Ty>, byte: u8) -> Result<Ty, NoMemory> {
    match byte {
        b'1' => Ok(Ty::Tup(Row::empty())),
        b'I' => Ok(Ty::Con(NameId(0), Row::empty())),
        b'D' => Ok(Ty::Con(NameId(1), Row::empty())),
        b'S' => Ok(Ty::Con(NameId(2), Row::empty())),
        b'B' => Ok(Ty::Con(NameId(3), Row::empty())),
        b'L' => Ok(Ty::Con(NameId(4), several(alloc, stack, 1)?)),
        b'*' => Ok(Ty::Tup(several(alloc, stack, 2)?)),
        b'T' => Ok(Ty::Tup(several(alloc, stack, 3)?)),
        b'>' => arrow(alloc, stack),
        letter => {
            let n = letter.wrapping_sub(b'a') as u32;
            Ok(Ty::Var(VarId { n, eq: n >= 8 }))
        }
    }
}

/// The type in postfix notation: `a` to `h` are variables, later letters are variables with the equality mark, `1` is
/// unit, `I` int, `D` real, `S` string, `B` bool, `L` list, `*` a pair, `T` a triple
/// and `>` an arrow.
fn read(alloc: Global, text: &[u8]) -> Result<Ty, NoMemory> {
    let mut stack = List::new(alloc);
    for byte in text {
        let t = step(alloc, &mut stack, *byte)?;
        stack.push(t)?;
    }
    Ok(top(&mut stack))
}

/// The names of int, real, string, bool and list.
fn some_names(alloc: Global) -> Result<List<TypeName>, NoMemory> {
    let mut names = List::new(alloc);
    for n in 0..5 {
        names.push(TypeName {
            path: Text::new(alloc),
            arity: if n == 4 { 1 } else { 0 },
            equality: if n == 1 {
                Equality::Never
            } else {
                Equality::IfArgs
            },
            external: false,
        })?;
    }
    Ok(names)
}

fn read_scheme(alloc: Global, text: &[u8]) -> Result<Scheme, NoMemory>
    ensures scheme { IfOk result IsScheme }
    ensures body { IfOk result (λ s. IsType s.body × (size_of s.body < 2 ^ 32)) }
{
    let t = read(alloc, text)?;
    if size(&t) > 1000 {
        return Err(NoMemory);
    }
    let scheme = close(alloc, &t)?;
    if !is_type(&scheme.body) || size(&scheme.body) > 1000 {
        return Err(NoMemory);
    }
    Ok(scheme)
}

/// The least word as digits, or `none`.
fn written(alloc: Global, pattern: &[u8], subject: &[u8]) -> Result<Text, NoMemory> {
    let names = some_names(alloc)?;
    let pattern = read_scheme(alloc, pattern)?;
    let subject = read(alloc, subject)?;
    if !is_type(&subject) {
        return Err(NoMemory);
    }
    let Some(instance) = first(alloc, &names, &pattern, &subject)? else {
        return Text::from_slice(alloc, b"none");
    };
    let mut text = Text::new(alloc);
    for letter in instance.word.as_slice() {
        text.push(b'0' + (*letter % 10) as u8)?;
    }
    Ok(text)
}

#[test]
fn least_words(rt: HostRuntime) -> Result<(), Fail> {
    let alloc = rt.alloc();
    let cases = [
        // two variables may take one type, and one variable takes no two
        (b"ab*B>".as_slice(), b"aa*B>".as_slice(), b"0000".as_slice()),
        (b"aa*B>", b"ab*B>", b"none"),
        // a variable with the mark takes no type that does not admit equality
        (b"ii*B>", b"DD*B>", b"none"),
        // a variable may vanish
        (b"ab*c>abc>>>", b"IB>IB>>", b"01000"),
        // what is beneath a name tells the order of what is not
        (b"aaL*I>", b"SIIS*LTI>", b"000011"),
        // results are not split
        (b"II>II>*", b"III*>", b"none"),
        // twelve factors that differ
        (b"abcTdL>", b"IDSTBILDLTSLBLILLTDLLSLLBLLT***B>", b"none"),
        (
            b"BeB**cILLbL>*IBLIL>*aDBLTDc>TT",
            b"BeB**cILLbL>*IBLIL>*aDBLTDc>TT",
            b"01110021021001000121102200002220",
        ),
    ];
    for (pattern, subject, wanted) in cases {
        let text = written(alloc, pattern, subject)?;
        assert!(rt; text.as_slice() == wanted);
    }
    Ok(())
}
