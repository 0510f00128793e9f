// Texts with the trees of their tokens, or the token at which they stop being a type or nest too deep.
use crate::{FieldExp, ParseRefusal, TyExp, TypeAt, TypePart, parse_type, read_type};
use sig_base::{NoMemory, Text};
use sml_lexer::lex;
use std::alloc::Global;
use std::test::Fail;

fn write_digit(out: &mut Text, n: u32) -> Result<(), NoMemory> {
    out.push(b'0' + (n % 10) as u8)
}

// A number below 1000.
fn write_number(out: &mut Text, n: u32) -> Result<(), NoMemory> {
    if n >= 100 {
        write_digit(out, n / 100)?;
    }
    if n >= 10 {
        write_digit(out, n / 10)?;
    }
    write_digit(out, n)
}

// Variables, labels and constructors are the numbers of their tokens, the last after the arguments and a
// semicolon.
#[cycle(write)]
fn write_type(out: &mut Text, ty: &TyExp) -> Result<(), NoMemory> {
    match ty {
        TyExp::Var(place) => {
            out.push(b'\'')?;
            write_number(out, *place)
        }
        TyExp::Fields(fields) => {
            out.push(b'{')?;
            write_fields(out, fields.as_slice())?;
            out.push(b'}')
        }
        TyExp::Tuple(parts) => {
            out.push(b'(')?;
            write_all(out, parts.as_slice(), b" * ")?;
            out.push(b')')
        }
        TyExp::Arrows(sides) => {
            out.push(b'(')?;
            write_all(out, sides.as_slice(), b" -> ")?;
            out.push(b')')
        }
        TyExp::Apply(arguments, constructors) => {
            out.push(b'[')?;
            write_all(out, arguments.as_slice(), b", ")?;
            write_places(out, constructors.as_slice())
        }
    }
}

#[cycle(write)]
fn write_all(out: &mut Text, trees: &[TyExp], between: &[u8]) -> Result<(), NoMemory> {
    for (i, tree) in trees.iter().enumerate() {
        if i > 0 {
            out.extend(between)?;
        }
        write_type(out, tree)?;
    }
    Ok(())
}

#[cycle(write)]
fn write_fields(out: &mut Text, fields: &[FieldExp]) -> Result<(), NoMemory> {
    for (i, field) in fields.iter().enumerate() {
        if i > 0 {
            out.extend(b", ")?;
        }
        write_number(out, field.label)?;
        out.extend(b": ")?;
        write_type(out, &field.ty)?;
    }
    Ok(())
}

fn write_places(out: &mut Text, places: &[u32]) -> Result<(), NoMemory> {
    out.push(b';')?;
    for place in places {
        out.push(b' ')?;
        write_number(out, *place)?;
    }
    out.push(b']')
}

fn write_refusal(out: &mut Text, refusal: &ParseRefusal) -> Result<(), NoMemory> {
    match refusal {
        ParseRefusal::Syntax(place) => {
            out.extend(b"stops at ")?;
            write_number(out, *place)
        }
        ParseRefusal::TooDeep(place) => {
            out.extend(b"too deep at ")?;
            write_number(out, *place)
        }
        ParseRefusal::NoMemory => out.extend(b"no memory"),
    }
}

fn parsed(alloc: Global, text: &[u8]) -> Result<TypeAt, ParseRefusal> {
    if text.len() > 4_194_304 {
        return Err(ParseRefusal::NoMemory);
    }
    match lex(alloc, text) {
        Ok(tokens) => parse_type(alloc, text, tokens.as_slice()),
        Err(_) => Err(ParseRefusal::NoMemory),
    }
}

fn write_outcome(out: &mut Text, found: &Result<TypeAt, ParseRefusal>) -> Result<(), NoMemory> {
    match found {
        Ok(found) => write_type(out, &found.ty),
        Err(refusal) => write_refusal(out, refusal),
    }
}

// Whether this line is what reading a text gives.
fn gives(alloc: Global, text: &[u8], wanted: &str) -> Result<bool, NoMemory> {
    let mut out = Text::new(alloc);
    write_outcome(&mut out, &parsed(alloc, text))?;
    Ok(out.as_slice() == wanted.as_bytes())
}

fn part_of(alloc: Global, text: &[u8], at: u32, depth: u32) -> Result<TypePart, ParseRefusal> {
    if text.len() > 4_194_304 || depth > 200 {
        return Err(ParseRefusal::NoMemory);
    }
    match lex(alloc, text) {
        Ok(tokens) if at as usize <= tokens.len() => read_type(
            alloc,
            text,
            tokens.as_slice(),
            at,
            depth,
        ),
        _ => Err(ParseRefusal::NoMemory),
    }
}

fn write_part(out: &mut Text, part: &TypePart) -> Result<(), NoMemory> {
    write_type(out, &part.ty.ty)?;
    out.extend(b" up to ")?;
    write_number(out, part.next)
}

fn write_part_outcome(
    out: &mut Text,
    found: &Result<TypePart, ParseRefusal>,
) -> Result<(), NoMemory> {
    match found {
        Ok(part) => write_part(out, part),
        Err(refusal) => write_refusal(out, refusal),
    }
}

// Whether this line is what reading a part of a text gives, with the number of the token after it.
fn part_gives(
    alloc: Global,
    text: &str,
    at: u32,
    depth: u32,
    wanted: &str,
) -> Result<bool, NoMemory> {
    let mut out = Text::new(alloc);
    write_part_outcome(&mut out, &part_of(alloc, text.as_bytes(), at, depth))?;
    Ok(out.as_slice() == wanted.as_bytes())
}

#[test]
fn reads_types(rt: HostRuntime) -> Result<(), Fail> {
    let rows = [
        ("'a", "'0"),
        ("int", "[; 0]"),
        ("+", "[; 0]"),
        ("Int.int", "[; 0]"),
        ("A.B.++", "[; 0]"),
        ("A.**", "[; 0]"),
        ("int int", "[; 0 1]"),
        ("int list S.t", "[; 0 1 2]"),
        ("'a list list", "['0; 1 2]"),
        ("(int)", "[; 1]"),
        ("(int) list", "[[; 1]; 3]"),
        ("((int list)) list", "[[; 2 3]; 6]"),
        ("('a, 'b) map", "['1, '3; 5]"),
        ("('a, 'b, 'c) S.t list", "['1, '3, '5; 7 8]"),
        ("(int * 'a, 'b -> 'c) t", "[([; 1] * '3), ('5 -> '7); 9]"),
        ("(('a, 'b) t, {}) u", "[['2, '4; 6], {}; 11]"),
        ("{}", "{}"),
        ("{} list", "[{}; 2]"),
        ("{a : int}", "{1: [; 3]}"),
        ("{1 : int, 2 : bool}", "{1: [; 3], 5: [; 7]}"),
        (
            "{* : 'a -> 'b, + : 'c * 'd}",
            "{1: ('3 -> '5), 7: ('9 * '11)}",
        ),
        (
            "{a : {b : 'a}, c : 'b} t u",
            "[{1: {4: '6}, 9: '11}; 13 14]",
        ),
        ("'a -> 'b -> 'c", "('0 -> '2 -> '4)"),
        ("('a -> 'b) -> 'c", "(('1 -> '3) -> '6)"),
        (
            "int * word list * 'a -> unit",
            "(([; 0] * [; 2 3] * '5) -> [; 7])",
        ),
        ("(int * int) * int", "(([; 1] * [; 3]) * [; 6])"),
        ("'a * ('b, 'c) t -> {}", "(('0 * ['3, '5; 7]) -> {})"),
    ];
    for (text, want) in rows {
        assert!(rt; gives(rt.alloc(), text.as_bytes(), want)?, "of {text}");
    }
    Ok(())
}

fn stops(alloc: Global, text: &[u8], at: u32) -> bool {
    match parsed(alloc, text) {
        Err(ParseRefusal::Syntax(place)) => place == at,
        _ => false,
    }
}

const STOPS: [(&str, u32); 50] = [
    ("", 0),
    (")", 0),
    ("*", 0),
    ("A.*", 0),
    ("1", 0),
    ("= int", 0),
    ("int ->", 2),
    ("int * -> int", 2),
    ("int -> -> int", 2),
    ("int *", 2),
    ("int * *", 2),
    ("int A.*", 1),
    ("int 'a", 1),
    ("int (int)", 1),
    ("int {}", 1),
    ("int , int", 1),
    ("int )", 1),
    ("int }", 1),
    ("int : int", 1),
    ("int = int", 1),
    ("int 1", 1),
    ("(", 1),
    ("( )", 1),
    ("(int", 2),
    ("(int ->) list", 3),
    ("(int }", 2),
    ("(int : int)", 2),
    ("(int,)", 3),
    ("(, int)", 1),
    ("(int, int", 4),
    ("(int, int)", 5),
    ("(int, int) -> int", 5),
    ("(int, int) * int", 5),
    ("(int, int) A.*", 5),
    ("((int, int))", 6),
    ("{", 1),
    ("{ ,", 1),
    ("{ int", 2),
    ("{ A.b : int }", 1),
    ("{ 'a : int }", 1),
    ("{ a , b }", 2),
    ("{ a : }", 3),
    ("{ a : int", 4),
    ("{ a : int )", 4),
    ("{ a : int : int }", 4),
    ("{ a : int , }", 5),
    ("{ a : int , b", 6),
    ("{ a : int b : int }", 5),
    ("{ a : int } }", 5),
    ("{} : int", 2),
];

#[test]
fn stops_at_the_first_wrong_token(rt: HostRuntime) -> Result<(), Fail> {
    for (text, want) in STOPS {
        assert!(rt; stops(rt.alloc(), text.as_bytes(), want), "of {text}");
    }
    Ok(())
}

fn push_often(text: &mut Text, bytes: &[u8], count: u32) -> Result<(), NoMemory> {
    for _ in 0..count {
        text.extend(bytes)?;
    }
    Ok(())
}

// So many times what opens, then what stands inside, then as often what closes.
fn repeated(alloc: Global, parts: (&str, &str, &str), depth: u32) -> Result<Text, NoMemory> {
    let (open, inner, close) = parts;
    let mut text = Text::new(alloc);
    push_often(&mut text, open.as_bytes(), depth)?;
    text.extend(inner.as_bytes())?;
    push_often(&mut text, close.as_bytes(), depth)?;
    Ok(text)
}

fn repeated_gives(
    alloc: Global,
    parts: (&str, &str, &str),
    depth: u32,
    wanted: &str,
) -> Result<bool, NoMemory> {
    let text = repeated(alloc, parts, depth)?;
    gives(alloc, text.as_slice(), wanted)
}

#[test]
fn counts_what_is_open(rt: HostRuntime) -> Result<(), Fail> {
    let rows = [
        ("(", "'a", ")", 200, "'200"),
        ("(", "'a", ")", 201, "too deep at 200"),
        ("(", "", "", 201, "too deep at 200"),
        ("(", "", "", 200, "stops at 200"),
        ("(", "{}", ")", 199, "{}"),
        ("(", "{}", ")", 200, "too deep at 200"),
        ("({a:", "", "", 100, "stops at 400"),
        ("({a:", "", "", 101, "too deep at 400"),
        ("{a:", "{a:'a}", "}", 200, "too deep at 600"),
        ("('a, ", "", "", 201, "too deep at 600"),
        ("('a) * ", "'a", "", 3, "('1 * '5 * '9 * '12)"),
    ];
    for (open, inner, close, depth, want) in rows {
        let gives = repeated_gives(rt.alloc(), (open, inner, close), depth, want)?;
        assert!(rt; gives, "{depth} times {open}");
    }
    Ok(())
}

// A row of so many pairs of braces, inside as many parentheses as are told.
fn braces_inside(alloc: Global, count: u32, depth: u32) -> Result<Text, NoMemory> {
    let mut text = Text::new(alloc);
    push_often(&mut text, b"(", depth)?;
    push_often(&mut text, b"{} * ", count)?;
    text.extend(b"{}")?;
    push_often(&mut text, b")", depth)?;
    Ok(text)
}

fn is_read(alloc: Global, count: u32, depth: u32) -> Result<bool, NoMemory> {
    let text = braces_inside(alloc, count, depth)?;
    Ok(parsed(alloc, text.as_slice()).is_ok())
}

// What is closed makes room.
#[test]
fn counts_only_what_stays_open(rt: HostRuntime) -> Result<(), Fail> {
    for (depth, read) in [(0, true), (199, true), (200, false)] {
        assert!(rt; is_read(rt.alloc(), 300, depth)? == read, "{depth} deep");
    }
    Ok(())
}

#[test]
fn reads_parts(rt: HostRuntime) -> Result<(), Fail> {
    let rows = [
        ("val x : int list val", 3, 0, "[; 3 4] up to 5"),
        ("val x : int -> 'a end", 3, 0, "([; 3] -> '5) up to 6"),
        ("val x : int", 3, 200, "[; 3] up to 4"),
        ("x : ('a, 'b) t , u", 2, 199, "['3, '5; 7] up to 8"),
        ("x : 'a , u", 2, 0, "'2 up to 3"),
        ("x : 'a ) u", 2, 7, "'2 up to 3"),
        ("x : {a : 'a} } u", 2, 7, "{3: '5} up to 7"),
        ("x : int", 3, 0, "stops at 3"),
        ("x : val", 2, 0, "stops at 2"),
        ("x : int -> val", 2, 0, "stops at 4"),
        ("x : (int val", 2, 0, "stops at 4"),
        ("x : ('a, 'b) val", 2, 0, "stops at 7"),
        ("x : ('a)", 2, 199, "'3 up to 5"),
        ("x : ('a)", 2, 200, "too deep at 2"),
        ("x : 'a -> {}", 2, 200, "too deep at 4"),
        ("x : 'a -> (('a))", 2, 199, "too deep at 5"),
    ];
    for (text, at, depth, want) in rows {
        assert!(rt; part_gives(rt.alloc(), text, at, depth, want)?, "of {text}");
    }
    Ok(())
}
