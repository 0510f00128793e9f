// Types as Standard ML writes them.
ghost use Rattle.std.specs.Prelude.{◌≡◌, ◌++◌, ◌∷◌, [], codes, map, slice_get, true, if◌then◌else◌, OnOk, IfOk};
ghost use Rattle.type_core.specs.Printing.{arguments_text, encloses_arrow, encloses_tuple, field_text_at, path_of, round_text, scheme_text, separated, text_at, tuple_text, type_text, variable_text};
ghost use Rattle.type_core.specs.declared.printing.Place.TheVariants.{Free};

use crate::names::TypeName;
use crate::numerals::push_decimal;
use crate::ty::{Field, NameId, Scheme, Ty, VarId};
use sig_base::{List, NoMemory, Text};
use std::alloc::Global;

/// Where a type stands, which decides whether it is put in parentheses.
#[derive(Clone, Copy, Debug, PartialEq, Eq)]
pub enum Place {
    /// Where any type may stand.
    Free,
    /// On the left of an arrow.
    Domain,
    /// As a component of a tuple, or as the one argument of a name.
    Component,
}

/// The type as Standard ML writes it, with as few parentheses as its grammar asks for (the Definition,
/// section 2.8). A name that isn't among `names` is written as nothing. Fields are written as they stand
/// in the tree, which in a type is the order of their labels.
pub fn print_type(alloc: Global, names: &List<TypeName>, t: &Ty) -> Result<Text, NoMemory>
    ensures value { IfOk result (λ text. text ≡ type_text names.now t.now) }
{
    let mut out = Text::new(alloc);
    print_at(alloc, names.as_slice(), Place::Free, t, &mut out)?;
    Ok(out)
}

/// The scheme as Standard ML writes it: its body, for all values of its variables.
pub fn print_scheme(alloc: Global, names: &List<TypeName>, s: &Scheme) -> Result<Text, NoMemory>
    ensures value { IfOk result (λ text. text ≡ scheme_text names.now s.now) }
{
    print_type(alloc, names, &s.body)
}

fn is_arrow_enclosed(place: Place) -> bool
    ensures value { result ≡ encloses_arrow place }
{
    match place {
        Place::Free => false,
        _ => true,
    }
}

fn is_tuple_enclosed(place: Place) -> bool
    ensures value { result ≡ encloses_tuple place }
{
    match place {
        Place::Component => true,
        _ => false,
    }
}

fn open_if(is_enclosed: bool, out: &mut Text) -> Result<(), NoMemory>
    ensures pushed { OnOk result (out.new ≡ out.old ++ (if is_enclosed then codes "(" else [])) }
{
    if is_enclosed { out.push(b'(') } else { Ok(()) }
}

fn close_if(is_enclosed: bool, out: &mut Text) -> Result<(), NoMemory>
    ensures pushed { OnOk result (out.new ≡ out.old ++ (if is_enclosed then codes ")" else [])) }
{
    if is_enclosed { out.push(b')') } else { Ok(()) }
}

fn print_marks(has_mark: bool, out: &mut Text) -> Result<(), NoMemory>
    ensures pushed { OnOk result (out.new ≡ out.old ++ (if has_mark then codes "''" else codes "'")) }
{
    if has_mark {
        out.extend(b"''")
    } else {
        out.push(b'\'')
    }
}

fn print_round(alloc: Global, n: u32, out: &mut Text) -> Result<(), NoMemory>
    ensures pushed { OnOk result (out.new ≡ out.old ++ round_text n) }
{
    if n < 26 {
        Ok(())
    } else {
        push_decimal(alloc, out, u64::from(n / 26))
    }
}

fn print_variable(alloc: Global, v: VarId, out: &mut Text) -> Result<(), NoMemory>
    ensures pushed { OnOk result (out.new ≡ out.old ++ variable_text v) }
{
    print_marks(v.eq, out)?;
    out.push(b'a' + (v.n % 26) as u8)?;
    print_round(alloc, v.n, out)
}

fn print_path(names: &[TypeName], name: NameId, out: &mut Text) -> Result<(), NoMemory>
    ensures pushed { OnOk result (out.new ≡ out.old ++ path_of (slice_get names.now name.0)) }
{
    match names.get(name.0 as usize) {
        Some(name) => out.extend(name.path.as_slice()),
        None => Ok(()),
    }
}

fn print_between(is_first: bool, between: &[u8], out: &mut Text) -> Result<(), NoMemory>
    ensures pushed { OnOk result (out.new ≡ out.old ++ (if is_first then [] else between.now)) }
{
    if is_first {
        Ok(())
    } else {
        out.extend(between)
    }
}

#[cycle(print)]
fn print_at(
    alloc: Global,
    names: &[TypeName],
    place: Place,
    t: &Ty,
    out: &mut Text,
) -> Result<(), NoMemory>
    ensures pushed { OnOk result (out.new ≡ out.old ++ text_at names.now t.now place) }
{
    match t {
        Ty::Var(v) => print_variable(alloc, *v, out),
        Ty::Con(name, arguments) => {
            print_arguments(alloc, names, arguments.as_slice(), out)?;
            print_path(names, *name, out)
        }
        Ty::Rec(fields) => {
            out.push(b'{')?;
            print_fields(alloc, names, fields.as_slice(), out)?;
            out.push(b'}')
        }
        Ty::Tup(components) => print_tuple(alloc, names, place, components.as_slice(), out),
        Ty::Arrow(from, to) => {
            let is_enclosed = is_arrow_enclosed(place);
            open_if(is_enclosed, out)?;
            print_at(alloc, names, Place::Domain, from.get(), out)?;
            out.extend(b" -> ")?;
            print_at(alloc, names, Place::Free, to.get(), out)?;
            close_if(is_enclosed, out)
        }
    }
}

/// What stands before a name.
#[cycle(print)]
fn print_arguments(
    alloc: Global,
    names: &[TypeName],
    arguments: &[Ty],
    out: &mut Text,
) -> Result<(), NoMemory>
    ensures pushed { OnOk result (out.new ≡ out.old ++ arguments_text (map (text_at names.now) arguments.now)) }
{
    match arguments {
        [] => Ok(()),
        [argument] => {
            print_at(alloc, names, Place::Component, argument, out)?;
            out.push(b' ')
        }
        arguments => {
            out.push(b'(')?;
            print_all(alloc, names, Place::Free, b", ", arguments, out)?;
            out.extend(b") ")
        }
    }
}

#[cycle(print)]
fn print_tuple(
    alloc: Global,
    names: &[TypeName],
    place: Place,
    components: &[Ty],
    out: &mut Text,
) -> Result<(), NoMemory>
    ensures pushed { OnOk result (out.new ≡ out.old ++ tuple_text (map (text_at names.now) components.now) place) }
{
    if components.is_empty() {
        return out.extend(b"unit");
    }
    let is_enclosed = is_tuple_enclosed(place);
    open_if(is_enclosed, out)?;
    print_all(alloc, names, Place::Component, b" * ", components, out)?;
    close_if(is_enclosed, out)
}

/// The types, with a text between each two.
#[cycle(print)]
fn print_all(
    alloc: Global,
    names: &[TypeName],
    place: Place,
    between: &[u8],
    parts: &[Ty],
    out: &mut Text,
) -> Result<(), NoMemory>
    ensures pushed { OnOk result (out.new ≡ out.old ++ separated between.now place (map (text_at names.now) parts.now)) }
{
    let mut is_first = true;
    for part in parts {
        print_between(is_first, between, out)?;
        is_first = false;
        print_at(alloc, names, place, part, out)?;
    }
    Ok(())
}

#[cycle(print)]
fn print_fields(
    alloc: Global,
    names: &[TypeName],
    fields: &[Field],
    out: &mut Text,
) -> Result<(), NoMemory>
    ensures pushed { OnOk result (out.new ≡ out.old ++ separated (codes ", ") Free (map (field_text_at names.now) fields.now)) }
{
    let mut is_first = true;
    for field in fields {
        print_between(is_first, b", ", out)?;
        is_first = false;
        out.extend(field.label.as_slice())?;
        out.extend(b" : ")?;
        print_at(alloc, names, Place::Free, &field.ty, out)?;
    }
    Ok(())
}
