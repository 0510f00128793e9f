// Texts with the trees of their tokens, or the token at which they stop being a file or nest too deep.
use crate::{
    Bind, ConDesc, DataDesc, ParseRefusal, SigBase, SigExp, SourceFile, Spec, TopDec, TyExp,
    TypeAt, TypeDesc, ValDesc, WherePart, parse_file,
};
use sig_base::{NoMemory, Text};
use sml_lexer::lex;
use std::alloc::Global;
use std::test::Fail;

fn write_digit(out: &mut Text, n: u32) -> Result<(), NoMemory> {
    out.push(b'0' + (n % 10) as u8)
}

// A number below 1000.
fn write_number(out: &mut Text, n: u32) -> Result<(), NoMemory> {
    if n >= 100 {
        write_digit(out, n / 100)?;
    }
    if n >= 10 {
        write_digit(out, n / 10)?;
    }
    write_digit(out, n)
}

fn write_after_space(out: &mut Text, n: u32) -> Result<(), NoMemory> {
    out.push(b' ')?;
    write_number(out, n)
}

fn write_numbers(out: &mut Text, numbers: &[u32]) -> Result<(), NoMemory> {
    for number in numbers {
        write_after_space(out, *number)?;
    }
    Ok(())
}

fn write_params(out: &mut Text, params: &[u32]) -> Result<(), NoMemory> {
    out.extend(b" (")?;
    write_numbers(out, params)?;
    out.push(b')')
}

fn write_count(out: &mut Text, count: usize, what: &[u8]) -> Result<(), NoMemory> {
    write_number(out, (count % 1000) as u32)?;
    out.extend(what)
}

// The first token of a type, and what kind of tree it has.
fn write_type(out: &mut Text, ty: &TypeAt) -> Result<(), NoMemory> {
    write_number(out, ty.first)?;
    out.push(b':')?;
    match &ty.ty {
        TyExp::Var(place) => {
            out.push(b'\'')?;
            write_number(out, *place)
        }
        TyExp::Fields(fields) => write_count(out, fields.len(), b" fields"),
        TyExp::Tuple(parts) => write_count(out, parts.len(), b" parts"),
        TyExp::Arrows(sides) => write_count(out, sides.len(), b" sides"),
        TyExp::Apply(_, constructors) => write_numbers(out, constructors.as_slice()),
    }
}

fn write_meaning(out: &mut Text, ty: &TypeAt) -> Result<(), NoMemory> {
    out.extend(b" = ")?;
    write_type(out, ty)
}

fn write_maybe(out: &mut Text, ty: &Option<TypeAt>) -> Result<(), NoMemory> {
    match ty {
        None => Ok(()),
        Some(ty) => write_meaning(out, ty),
    }
}

fn write_values(out: &mut Text, values: &[ValDesc]) -> Result<(), NoMemory> {
    for value in values {
        write_after_space(out, value.id)?;
        write_meaning(out, &value.ty)?;
        out.push(b',')?;
    }
    Ok(())
}

fn write_types(out: &mut Text, types: &[TypeDesc]) -> Result<(), NoMemory> {
    for ty in types {
        write_params(out, ty.params.as_slice())?;
        write_after_space(out, ty.id)?;
        write_maybe(out, &ty.rhs)?;
        out.push(b',')?;
    }
    Ok(())
}

fn write_cons(out: &mut Text, cons: &[ConDesc]) -> Result<(), NoMemory> {
    for con in cons {
        write_after_space(out, con.id)?;
        write_maybe(out, &con.arg)?;
    }
    Ok(())
}

fn write_datatypes(out: &mut Text, datatypes: &[DataDesc]) -> Result<(), NoMemory> {
    for data in datatypes {
        write_params(out, data.params.as_slice())?;
        write_after_space(out, data.id)?;
        out.push(b':')?;
        write_cons(out, data.cons.as_slice())?;
        out.push(b',')?;
    }
    Ok(())
}

fn write_parts(out: &mut Text, parts: &[WherePart]) -> Result<(), NoMemory> {
    for part in parts {
        out.extend(b" at")?;
        write_after_space(out, part.at)?;
        write_params(out, part.params.as_slice())?;
        write_after_space(out, part.tycon)?;
        write_meaning(out, &part.ty)?;
    }
    Ok(())
}

#[cycle(write)]
fn write_base(out: &mut Text, base: &SigBase) -> Result<(), NoMemory> {
    match base {
        SigBase::Name(id) => {
            out.extend(b"name")?;
            write_after_space(out, *id)
        }
        SigBase::Body(specs) => {
            out.push(b'[')?;
            write_specs(out, specs.as_slice())?;
            out.push(b']')
        }
    }
}

#[cycle(write)]
fn write_sig(out: &mut Text, sig: &SigExp) -> Result<(), NoMemory> {
    write_number(out, sig.first)?;
    out.push(b':')?;
    write_base(out, &sig.base)?;
    write_parts(out, sig.parts.as_slice())
}

#[cycle(write)]
fn write_binds(out: &mut Text, binds: &[Bind]) -> Result<(), NoMemory> {
    for bind in binds {
        write_after_space(out, bind.id)?;
        out.extend(b" = ")?;
        write_sig(out, &bind.rhs)?;
        out.push(b',')?;
    }
    Ok(())
}

#[cycle(write)]
fn write_sigs(out: &mut Text, sigs: &[SigExp]) -> Result<(), NoMemory> {
    for sig in sigs {
        out.push(b' ')?;
        write_sig(out, sig)?;
        out.push(b',')?;
    }
    Ok(())
}

#[cycle(write)]
fn write_specs(out: &mut Text, specs: &[Spec]) -> Result<(), NoMemory> {
    for spec in specs {
        out.extend(word(spec).as_bytes())?;
        write_spec(out, spec)?;
        out.push(b';')?;
    }
    Ok(())
}

fn word(spec: &Spec) -> &str {
    match spec {
        Spec::Val(_) => "val",
        Spec::Abbrev(_) => "type",
        Spec::Eqtype(_) => "eqtype",
        Spec::Datatype(_) => "datatype",
        Spec::Replica(_, _) => "replica",
        Spec::Exception(_) => "exception",
        Spec::Structure(_) => "structure",
        Spec::Include(_) => "include",
        Spec::SharingType(_) => "sharing type",
        Spec::Sharing(_) => "sharing",
    }
}

#[cycle(write)]
fn write_spec(out: &mut Text, spec: &Spec) -> Result<(), NoMemory> {
    match spec {
        Spec::Val(values) => write_values(out, values.as_slice()),
        Spec::Abbrev(types) | Spec::Eqtype(types) => write_types(out, types.as_slice()),
        Spec::Datatype(all) => write_datatypes(out, all.as_slice()),
        Spec::Replica(id, old) => write_numbers(out, &[*id, *old]),
        Spec::Exception(cons) => write_cons(out, cons.as_slice()),
        Spec::Structure(binds) => write_binds(out, binds.as_slice()),
        Spec::Include(sigs) => write_sigs(out, sigs.as_slice()),
        Spec::SharingType(names) | Spec::Sharing(names) => write_numbers(out, names.as_slice()),
    }
}

fn write_dec(out: &mut Text, dec: &TopDec) -> Result<(), NoMemory> {
    match dec {
        TopDec::Signature(binds) => {
            out.extend(b"signature")?;
            write_binds(out, binds.as_slice())
        }
        TopDec::Structure(binds) => {
            out.extend(b"structure")?;
            write_binds(out, binds.as_slice())
        }
    }
}

fn write_file(out: &mut Text, file: &SourceFile) -> Result<(), NoMemory> {
    for dec in file.decs.as_slice() {
        write_dec(out, dec)?;
        out.push(b';')?;
    }
    Ok(())
}

fn parsed(alloc: Global, text: &[u8]) -> Result<SourceFile, ParseRefusal> {
    if text.len() > 4_194_304 {
        return Err(ParseRefusal::NoMemory);
    }
    match lex(alloc, text) {
        Ok(tokens) => parse_file(alloc, text, tokens.as_slice()),
        Err(_) => Err(ParseRefusal::NoMemory),
    }
}

fn write_found(out: &mut Text, found: &Result<SourceFile, ParseRefusal>) -> Result<(), NoMemory> {
    match found {
        Ok(file) => write_file(out, file),
        Err(_) => out.extend(b"refused"),
    }
}

// Whether this line is the tree of the text.
fn gives(alloc: Global, text: &[u8], wanted: &[u8]) -> Result<bool, NoMemory> {
    let mut out = Text::new(alloc);
    write_found(&mut out, &parsed(alloc, text))?;
    Ok(out.as_slice() == wanted)
}

// Whether the text stops being a file at this token.
fn stops(alloc: Global, text: &[u8], at: u32) -> bool {
    match parsed(alloc, text) {
        Err(ParseRefusal::Syntax(place)) => place == at,
        _ => false,
    }
}

#[test]
fn reads_declarations(rt: HostRuntime) -> Result<(), Fail> {
    let rows = [
        ("", ""),
        (" ; ; ", ""),
        ("signature S = T", "signature 1 = 3:name 3,;"),
        (
            "signature S = sig end and T = S; structure A : S and B :> sig ; end",
            "signature 1 = 3:[], 6 = 8:name 8,;structure 11 = 13:name 13, 15 = 17:[],;",
        ),
        (
            "signature S = T where type t = int and type 'a B.u = 'a where type ('a, 'b) v = c",
            "signature 1 = 3:name 3 at 4 () 6 = 8: 8 at 9 ( 11) 12 = 14:'14 at 15 ( 18 20) 22 = 24: 24,;",
        ),
        (
            "structure A : S where type t = int and B : T where type u = 'a and type v = {}",
            "structure 1 = 3:name 3 at 4 () 6 = 8: 8, 10 = 12:name 12 at 13 () 15 = 17:'17 at 18 () 20 = 22:0 fields,;",
        ),
        (
            "signature S = T where type t = int and u = int",
            "signature 1 = 3:name 3 at 4 () 6 = 8: 8, 10 = 12:name 12,;",
        ),
    ];
    for (text, want) in rows {
        assert!(rt;
            gives(rt.alloc(), text.as_bytes(), want.as_bytes())?,
            "of {text}"
        );
    }
    Ok(())
}

#[test]
fn stops_in_declarations(rt: HostRuntime) -> Result<(), Fail> {
    let rows = [
        ("signature S = T signature", 5),
        ("signature S : T", 2),
        ("structure A = S", 2),
        ("signature s.S = T", 1),
        ("signature + = T", 1),
        ("signature S = T and type", 5),
        ("val x : int", 0),
        ("end", 0),
        ("signature S = sig", 4),
        ("signature S = sig end end", 5),
        ("signature S = T where t = int", 5),
        ("signature S = T where type t = ", 8),
        ("structure A : S where type t = int and u = int", 11),
        ("signature S = T where type * = int", 6),
    ];
    for (text, place) in rows {
        assert!(rt; stops(rt.alloc(), text.as_bytes(), place), "of {text}");
    }
    Ok(())
}

fn between(alloc: Global, before: &str, inside: &str, after: &str) -> Result<Text, NoMemory> {
    let mut text = Text::new(alloc);
    text.extend(before.as_bytes())?;
    text.extend(inside.as_bytes())?;
    text.extend(after.as_bytes())?;
    Ok(text)
}

// A body of these specifications, where `sig` is token 3.
fn body(alloc: Global, specs: &str) -> Result<Text, NoMemory> {
    between(alloc, "signature S = sig ", specs, " end")
}

// Whether the body of these specifications has this tree.
fn body_gives(alloc: Global, specs: &str, tree: &str) -> Result<bool, NoMemory> {
    let text = body(alloc, specs)?;
    let wanted = between(alloc, "signature 1 = 3:[", tree, "],;")?;
    gives(alloc, text.as_slice(), wanted.as_slice())
}

#[test]
fn reads_specifications(rt: HostRuntime) -> Result<(), Fail> {
    let rows = [
        ("val x : int", "val 5 = 7: 7,;"),
        (
            "val x : 'a and + : 'b -> 'a; val * : (int) and = : {}",
            "val 5 = 7:'7, 9 = 11:2 sides,;val 16 = 18: 19, 22 = 24:0 fields,;",
        ),
        (
            "type t and 'a u = 'a and ('a, 'b) ++",
            "type () 5, ( 7) 8 = 10:'10, ( 13 15) 17,;",
        ),
        ("eqtype t and 'a u", "eqtype () 5, ( 7) 8,;"),
        (
            "datatype 'a t = A | B of 'a and u = * of int",
            "datatype ( 5) 6: 8 10 = 12:'12, () 14: 16 = 18: 18,;",
        ),
        ("datatype t = datatype A.u", "replica 5 8;"),
        ("exception E and F of int", "exception 5 7 = 9: 9;"),
        (
            "structure A : sig end and B : S where type t = int and C : T",
            "structure 5 = 7:[], 10 = 12:name 12 at 13 () 15 = 17: 17, 19 = 21:name 21,;",
        ),
        ("include S", "include 5:name 5,;"),
        ("include A B C", "include 5:name 5, 6:name 6, 7:name 7,;"),
        (
            "include sig val x : int end where type t = int and type u = int include B",
            "include 5:[val 7 = 9: 9,;] at 11 () 13 = 15: 15 at 16 () 18 = 20: 20,;include 22:name 22,;",
        ),
        ("sharing type t = A.u = v", "sharing type 6 8 10;"),
        ("sharing A = B.C sharing D = E", "sharing 5 7;sharing 9 11;"),
        ("; ; type t ;", "type () 7,;"),
    ];
    for (text, want) in rows {
        assert!(rt; body_gives(rt.alloc(), text, want)?, "of {text}");
    }
    Ok(())
}

fn body_stops(alloc: Global, specs: &str, at: u32) -> Result<bool, NoMemory> {
    let text = body(alloc, specs)?;
    Ok(stops(alloc, text.as_slice(), at))
}

#[test]
fn stops_in_specifications(rt: HostRuntime) -> Result<(), Fail> {
    let rows = [
        ("val x", 6),
        ("val x int", 6),
        ("val A.x : int", 5),
        ("val x : int and", 9),
        ("val x : int | y", 8),
        ("val x : int = y", 8),
        ("type * = int", 5),
        ("type A.t", 5),
        ("type t = int and type u", 9),
        ("type () t", 6),
        ("type ('a t", 7),
        ("eqtype t = int", 6),
        ("datatype t", 6),
        ("datatype t = A.B", 7),
        ("datatype t = |", 7),
        ("datatype 'a t = datatype u", 8),
        ("datatype t = A and u = datatype v", 11),
        ("datatype t = datatype *", 8),
        ("datatype t = datatype u and v = A", 9),
        ("exception E of", 7),
        ("exception E | F", 6),
        ("structure A :> S", 6),
        ("structure A : S and", 9),
        ("structure A : S and type t = int", 9),
        ("include", 5),
        ("include A B where type t = int", 7),
        ("include A and type t = int", 6),
        ("include A where type t = int and B", 12),
        ("include A.B", 5),
        ("sharing type t", 7),
        ("sharing type t = *", 8),
        ("sharing A = +", 7),
        ("sharing A = B = type", 9),
        ("signature T = S", 4),
    ];
    for (text, place) in rows {
        assert!(rt; body_stops(rt.alloc(), text, place)?, "of {text}");
    }
    Ok(())
}

fn push_often(text: &mut Text, bytes: &[u8], count: u32) -> Result<(), NoMemory> {
    for _ in 0..count {
        text.extend(bytes)?;
    }
    Ok(())
}

// `signature S =`, so many `sig structure A :`, then a body of which these are the specifications.
fn nested(alloc: Global, depth: u32, specs: &str) -> Result<Text, NoMemory> {
    let mut text = Text::from_slice(alloc, b"signature S = ")?;
    push_often(&mut text, b"sig structure A : ", depth)?;
    text.extend(b"sig ")?;
    text.extend(specs.as_bytes())?;
    push_often(&mut text, b" end", depth)?;
    text.extend(b" end")?;
    Ok(text)
}

// The token that is too deep, if there is one.
fn too_deep(alloc: Global, depth: u32, specs: &str) -> Result<Option<u32>, ParseRefusal> {
    let text = nested(alloc, depth, specs)?;
    match parsed(alloc, text.as_slice()) {
        Ok(_) => Ok(None),
        Err(ParseRefusal::TooDeep(place)) => Ok(Some(place)),
        Err(refusal) => Err(refusal),
    }
}

#[test]
fn counts_what_is_open(rt: HostRuntime) -> Result<(), Fail> {
    let rows = [
        (199, "", None),
        (200, "", Some(803)),
        (198, "type ('a, 'b) t", None),
        (199, "type ('a, 'b) t", Some(801)),
        (197, "val x : ({a : int})", None),
        (198, "val x : ({a : int})", Some(800)),
        (199, "val x : {}", Some(803)),
        (198, "val x : int type t = (int) type ('a) u", None),
    ];
    for (depth, specs, deep) in rows {
        assert!(rt;
            too_deep(rt.alloc(), depth, specs)? == deep,
            "{depth} around {specs}"
        );
    }
    Ok(())
}
