// Types in postfix notation, and what is to come of them.
ghost use Rattle.std.specs.Prelude.{IfOk};
ghost use Rattle.type_core.specs.Schemes.{IsScheme};

use crate::substitution::each_variable_is;
use crate::{
    Equality, Field, NameId, Scheme, Ty, TypeFn, TypeName, VarId, admits_equality, apply_fn,
    arrows, close, compare_labels, copy, equal_schemes, height, initial_names, is_type, is_type_fn,
    is_type_over, normal_size, print_scheme, print_type, same, size, substitute, type_weight,
};
use sig_base::{List, NoMemory, Row, Stack, Text};
use std::alloc::Global;
use std::cmp::Ordering;
use std::test::Fail;

fn variable(n: u32, eq: bool) -> Ty {
    Ty::Var(VarId { n, eq })
}

/// The name at the types last read.
fn named(alloc: Global, types: &mut Stack<Ty>, name: u32, count: usize) -> Result<Ty, NoMemory> {
    let arguments = Row::new(alloc, types.take_last(count)?)?;
    Ok(Ty::Con(NameId(name), arguments))
}

/// The tuple of the types last read.
fn tuple(alloc: Global, types: &mut Stack<Ty>, count: usize) -> Result<Ty, NoMemory> {
    let components = Row::new(alloc, types.take_last(count)?)?;
    Ok(Ty::Tup(components))
}

fn push_field(alloc: Global, fields: &mut List<Field>, label: u8, ty: Ty) -> Result<(), NoMemory> {
    let label = Text::from_slice(alloc, &[label])?;
    fields.push(Field { label, ty })
}

/// The type last read; unit where there is none.
fn top(types: &mut Stack<Ty>) -> Ty {
    match types.pop() {
        Some(t) => t,
        None => Ty::Tup(Row::empty()),
    }
}

/// The record of the two types last read, at these labels of one letter.
fn record(alloc: Global, types: &mut Stack<Ty>, labels: [u8; 2]) -> Result<Ty, NoMemory> {
    let mut fields = List::new(alloc);
    let second = top(types);
    push_field(alloc, &mut fields, labels[0], top(types))?;
    push_field(alloc, &mut fields, labels[1], second)?;
    Ok(Ty::Rec(Row::new(alloc, fields)?))
}

/// The type that a byte makes of those read before it.
fn step(alloc: Global, types: &mut Stack<Ty>, byte: u8) -> Result<Ty, NoMemory> {
    match byte {
        b'a'..=b'z' => Ok(variable((byte - b'a') as u32, false)),
        b'A'..=b'Z' => Ok(variable((byte - b'A') as u32, true)),
        b'0'..=b'9' => named(alloc, types, (byte - b'0') as u32, 0),
        b'[' => named(alloc, types, 9, 1),
        b'!' => named(alloc, types, 10, 1),
        b'?' => named(alloc, types, 11, 1),
        b'%' => named(alloc, types, 14, 2),
        b'>' => arrows(alloc, types.take_last(2)?),
        b'*' => tuple(alloc, types, 2),
        b'_' => tuple(alloc, types, 1),
        b'{' => record(alloc, types, [b'x', b'y']),
        b'}' => record(alloc, types, [b'y', b'x']),
        b'|' => record(alloc, types, [b'1', b'2']),
        _ => tuple(alloc, types, 0),
    }
}

/// The types in postfix notation. Letters are variables, capitals those that admit equality, digits names; `[`, `!`,
/// `?` and `%` stand for `list`, `ref`, `option` and a name of two arguments, `>` for an arrow, `.` for unit, `*` for a
/// pair and `_` for a tuple of one, and `{`, `}` and `|` for records of two fields.
fn read_all(alloc: Global, text: &str) -> Result<List<Ty>, NoMemory> {
    let mut types = Stack::new(alloc);
    for byte in text.as_bytes() {
        let t = step(alloc, &mut types, *byte)?;
        types.push(t)?;
    }
    types.take_all()
}

/// The last of the types.
fn read(alloc: Global, text: &str) -> Result<Ty, NoMemory> {
    let mut types = read_all(alloc, text)?;
    types.pop().ok_or(NoMemory)
}

/// The initial names, and number 14 of two arguments.
fn names(alloc: Global) -> Result<List<TypeName>, NoMemory> {
    let mut names = initial_names(alloc)?;
    let path = Text::from_slice(alloc, b"Map.map")?;
    let (arity, equality) = (2, Equality::IfArgs);
    names.push(TypeName {
        path,
        arity,
        equality,
        external: true,
    })?;
    Ok(names)
}

fn variable_shows(alloc: Global, v: (u32, bool), text: &str) -> Result<bool, NoMemory> {
    let shown = print_type(alloc, &List::new(alloc), &variable(v.0, v.1))?;
    Ok(shown.as_slice() == text.as_bytes())
}

#[test]
fn variables_are_shown(rt: HostRuntime) -> Result<(), Fail> {
    for (n, eq, text) in [
        (0, false, "'a"),
        (25, false, "'z"),
        (26, false, "'a1"),
        (4_294_967_295, false, "'v165191049"),
        (0, true, "''a"),
        (53, true, "''b2"),
    ] {
        assert!(rt; variable_shows(rt.alloc(), (n, eq), text)?, "of {text}");
    }
    Ok(())
}

fn shows(alloc: Global, t: &str, text: &str) -> Result<bool, NoMemory> {
    let shown = print_type(alloc, &names(alloc)?, &read(alloc, t)?)?;
    Ok(shown.as_slice() == text.as_bytes())
}

#[test]
fn types_are_shown(rt: HostRuntime) -> Result<(), Fail> {
    for (t, text) in [
        ("ab>c>", "('a -> 'b) -> 'c"),
        ("abc>>", "'a -> 'b -> 'c"),
        ("ab*c>", "'a * 'b -> 'c"),
        ("abc*>", "'a -> 'b * 'c"),
        (".", "unit"),
        ("..>", "unit -> unit"),
        (".a*", "unit * 'a"),
        ("ab*c*", "('a * 'b) * 'c"),
        ("abc>*", "'a * ('b -> 'c)"),
        ("0", "int"),
        ("a?[", "'a option list"),
        (".[", "unit list"),
        ("ab>!", "('a -> 'b) ref"),
        ("ab*?", "('a * 'b) option"),
        ("4ab>%", "(string, 'a -> 'b) Map.map"),
        ("ab>.{2>", "{x : 'a -> 'b, y : unit} -> real"),
    ] {
        assert!(rt; shows(rt.alloc(), t, text)?, "of {t}");
    }
    Ok(())
}

/// The type closed, where it is a small one.
fn closed(alloc: Global, t: &Ty) -> Result<Scheme, NoMemory>
    ensures scheme { IfOk result IsScheme }
{
    if size(t) > 1000 {
        return Err(NoMemory);
    }
    close(alloc, t)
}

fn scheme(alloc: Global, t: &str) -> Result<Scheme, NoMemory>
    ensures scheme { IfOk result IsScheme }
{
    closed(alloc, &read(alloc, t)?)
}

fn shows_closed(alloc: Global, t: &str, text: &str) -> Result<bool, NoMemory> {
    let shown = print_scheme(alloc, &List::new(alloc), &scheme(alloc, t)?)?;
    Ok(shown.as_slice() == text.as_bytes())
}

#[test]
fn variables_are_numbered(rt: HostRuntime) -> Result<(), Fail> {
    for (t, text) in [
        ("hd>h>", "('a -> 'b) -> 'a"),
        ("jJ{j*", "{x : 'a, y : ''b} * 'a"),
    ] {
        assert!(rt; shows_closed(rt.alloc(), t, text)?, "of {t}");
    }
    Ok(())
}

/// Whether the two types are closed to equal schemes.
fn are_equal(alloc: Global, a: &str, b: &str) -> Result<bool, NoMemory> {
    Ok(equal_schemes(&scheme(alloc, a)?, &scheme(alloc, b)?))
}

#[test]
fn schemes_are_equal_up_to_names(rt: HostRuntime) -> Result<(), Fail> {
    for (a, b, equal) in [
        ("ec>", "ai>", true),
        ("aa>", "ab>", false),
        ("a", "A", false),
        ("a[", "a!", false),
    ] {
        assert!(rt; are_equal(rt.alloc(), a, b)? == equal, "of {a} and {b}");
    }
    Ok(())
}

/// The size, the height, the weight and the size of the normal form.
fn measures(alloc: Global, text: &str) -> Result<[u64; 4], NoMemory> {
    let t = read(alloc, text)?;
    Ok([size(&t), height(&t), type_weight(&t), normal_size(&t)])
}

#[test]
fn types_are_measured(rt: HostRuntime) -> Result<(), Fail> {
    for (t, wanted) in [
        (".", [1, 1, 1, 0]),
        ("a[0>", [4, 3, 4, 3]),
        ("ab{", [3, 2, 5, 3]),
        ("a.>", [3, 2, 3, 0]),
        ("ab*cd*>", [7, 3, 7, 6]),
    ] {
        assert!(rt; measures(rt.alloc(), t)? == wanted, "of {t}");
    }
    Ok(())
}

/// So many times `int` in a tuple.
fn ints(alloc: Global, count: u32) -> Result<Ty, NoMemory> {
    let mut components = List::new(alloc);
    for _ in 0..count {
        components.push(Ty::Con(NameId(0), Row::empty()))?;
    }
    Ok(Ty::Tup(Row::new(alloc, components)?))
}

/// The size of the normal form of an arrow between tuples of so many.
fn normal_size_between(alloc: Global, from: u32, to: u32) -> Result<u64, NoMemory> {
    let mut sides = List::new(alloc);
    sides.push(ints(alloc, from)?)?;
    sides.push(ints(alloc, to)?)?;
    Ok(normal_size(&arrows(alloc, sides)?))
}

// Each of the results has all arguments.
#[test]
fn normal_forms_are_measured(rt: HostRuntime) -> Result<(), Fail> {
    for (from, to, wanted) in [(99, 80, 8000), (126, 63, 8001)] {
        assert!(rt;
            normal_size_between(rt.alloc(), from, to)? == wanted,
            "of {wanted}"
        );
    }
    Ok(())
}

/// The type function at these types, where it is one of so many parameters.
fn applied(alloc: Global, f: &TypeFn, by: &List<Ty>) -> Result<Ty, NoMemory> {
    if !is_type_fn(f) || f.arity as usize != by.len() {
        return Err(NoMemory);
    }
    apply_fn(alloc, f, by)
}

/// A copy of the type with these in place of its variables, where there are enough.
fn replaced(alloc: Global, t: &Ty, by: &List<Ty>) -> Result<Ty, NoMemory> {
    if !each_variable_is(t, by.len(), true) {
        return Err(NoMemory);
    }
    copy(alloc, &substitute(alloc, t, by)?)
}

/// The type that the function of this body and two parameters gives.
fn applied_to(alloc: Global, body: &str, by: &List<Ty>) -> Result<Ty, NoMemory> {
    let f = TypeFn {
        arity: 2,
        body: read(alloc, body)?,
    };
    applied(alloc, &f, by)
}

fn is(alloc: Global, t: &Ty, wanted: &str) -> Result<bool, NoMemory> {
    Ok(same(t, &read(alloc, wanted)?))
}

/// Whether this type comes when the types of `by` are put in place.
fn comes(alloc: Global, body: &str, by: &List<Ty>, wanted: &str) -> Result<bool, NoMemory> {
    let t = replaced(alloc, &read(alloc, body)?, by)?;
    is(alloc, &t, wanted)
}

fn comes_applied(alloc: Global, body: &str, by: &List<Ty>, wanted: &str) -> Result<bool, NoMemory> {
    let t = applied_to(alloc, body, by)?;
    is(alloc, &t, wanted)
}

fn gives(alloc: Global, body: &str, by: &str, wanted: &str) -> Result<bool, NoMemory> {
    let by = read_all(alloc, by)?;
    Ok(comes(alloc, body, &by, wanted)? && comes_applied(alloc, body, &by, wanted)?)
}

#[test]
fn types_are_put_in_place(rt: HostRuntime) -> Result<(), Fail> {
    for (body, by, wanted) in [("ba>", "01", "10>"), ("a[bb*{", ".c?", ".[c?c?*{")] {
        assert!(rt; gives(rt.alloc(), body, by, wanted)?, "of {body}");
    }
    Ok(())
}

/// Whether the tree is a type, one over the names, and admits equality.
fn told(alloc: Global, names: &List<TypeName>, text: &str) -> Result<[bool; 3], NoMemory> {
    let t = read(alloc, text)?;
    Ok([
        is_type(&t),
        is_type_over(names, &t),
        admits_equality(names, &t),
    ])
}

fn is_told(alloc: Global, text: &str, wanted: [bool; 3]) -> Result<bool, NoMemory> {
    Ok(told(alloc, &names(alloc)?, text)? == wanted)
}

#[test]
fn types_are_told(rt: HostRuntime) -> Result<(), Fail> {
    for (t, wanted) in [
        ("0", [true, true, true]),
        ("2", [true, true, false]),
        ("a[", [true, true, false]),
        ("A[", [true, true, true]),
        ("aa>!", [true, true, true]),
        ("01{", [true, true, true]),
        ("01|", [false, false, true]),
        ("01}", [false, false, true]),
        ("0_", [false, false, true]),
        ("9", [true, false, true]),
    ] {
        assert!(rt; is_told(rt.alloc(), t, wanted)?, "of {t}");
    }
    Ok(())
}

#[test]
fn labels_are_ordered(rt: HostRuntime) -> Result<(), Fail> {
    for (a, b, order) in [
        ("9", "10", Ordering::Less),
        ("10", "a", Ordering::Less),
        ("b", "a", Ordering::Greater),
        ("12", "12", Ordering::Equal),
    ] {
        assert!(rt;
            compare_labels(a.as_bytes(), b.as_bytes()) == order,
            "of {a} and {b}"
        );
    }
    Ok(())
}
