// Terms as Standard ML writes them.
ghost use Rattle.std.specs.Prelude.{◌≡◌, ◌+◌, ◌++◌, codes, map, if◌then◌else◌, [], IfOk, OnOk};
ghost use Rattle.type_core.specs.Printing.{type_text};
ghost use Rattle.conv_print.specs.Printing.{binder_text, term_text, text_at, tuple_text, variable_text};

use crate::place::{Place, encloses_abstraction, encloses_application};
use conv_terms::Term;
use sig_base::{List, NoMemory, Text};
use std::alloc::Global;
use type_core::{Ty, TypeName, print_type, push_decimal};

/// The closed term as an expression of Standard ML (the Definition, section 2.8), with as few parentheses as its
/// grammar asks for: `fn (x1 : TYPE) => TERM`, `F A`, `(T, T)`, `()` and `#i A`. The variable of an abstraction is `x`
/// and how many abstractions enclose its body. Memory is also wanting where 2^32 abstractions stand within one another.
pub fn print_term(alloc: Global, names: &List<TypeName>, t: &Term) -> Result<Text, NoMemory>
    ensures value { IfOk result (λ text. text ≡ term_text names.now 0 t.now) }
{
    print_open(alloc, names, 0, t)
}

/// The term as it stands under so many abstractions, whose variables are `x1`, `x2` and so on.
pub fn print_open(
    alloc: Global,
    names: &List<TypeName>,
    depth: u32,
    t: &Term,
) -> Result<Text, NoMemory>
    ensures value { IfOk result (λ text. text ≡ term_text names.now depth t.now) }
{
    let mut out = Text::new(alloc);
    print_at(alloc, names, depth, Place::Free, t, &mut out)?;
    Ok(out)
}

fn open_if(is_enclosed: bool, out: &mut Text) -> Result<(), NoMemory>
    ensures pushed { OnOk result (out.new ≡ out.old ++ (if is_enclosed then codes "(" else [])) }
{
    if is_enclosed { out.push(b'(') } else { Ok(()) }
}

fn close_if(is_enclosed: bool, out: &mut Text) -> Result<(), NoMemory>
    ensures pushed { OnOk result (out.new ≡ out.old ++ (if is_enclosed then codes ")" else [])) }
{
    if is_enclosed { out.push(b')') } else { Ok(()) }
}

/// One abstraction more around a term.
fn deeper(depth: u32) -> Result<u32, NoMemory>
    ensures value { IfOk result (λ more. more ≡ depth + 1) }
{
    depth.checked_add(1).ok_or(NoMemory)
}

fn print_variable(alloc: Global, n: u32, out: &mut Text) -> Result<(), NoMemory>
    ensures pushed { OnOk result (out.new ≡ out.old ++ variable_text n) }
{
    out.push(b'x')?;
    push_decimal(alloc, out, u64::from(n) + 1)
}

fn print_binder(
    alloc: Global,
    names: &List<TypeName>,
    depth: u32,
    a: &Ty,
    out: &mut Text,
) -> Result<(), NoMemory>
    ensures pushed { OnOk result (out.new ≡ out.old ++ binder_text depth (type_text names.now a.now)) }
{
    out.extend(b"fn (")?;
    print_variable(alloc, depth, out)?;
    out.extend(b" : ")?;
    let text = print_type(alloc, names, a)?;
    out.extend(text.as_slice())?;
    out.extend(b") => ")
}

#[cycle(print)]
fn print_at(
    alloc: Global,
    names: &List<TypeName>,
    depth: u32,
    place: Place,
    t: &Term,
    out: &mut Text,
) -> Result<(), NoMemory>
    ensures pushed { OnOk result (out.new ≡ out.old ++ text_at names.now t.now depth place) }
{
    match t {
        Term::Var(n) => print_variable(alloc, *n, out),
        Term::Lam(a, body) => {
            let is_enclosed = encloses_abstraction(place);
            open_if(is_enclosed, out)?;
            print_binder(alloc, names, depth, a.get(), out)?;
            print_at(alloc, names, deeper(depth)?, Place::Free, body.get(), out)?;
            close_if(is_enclosed, out)
        }
        Term::App(function, argument) => {
            let is_enclosed = encloses_application(place);
            open_if(is_enclosed, out)?;
            print_at(alloc, names, depth, Place::Function, function.get(), out)?;
            out.push(b' ')?;
            print_at(alloc, names, depth, Place::Argument, argument.get(), out)?;
            close_if(is_enclosed, out)
        }
        Term::Tup(components) => print_tuple(alloc, names, depth, components.as_slice(), out),
        Term::Proj(i, _, e) => {
            let is_enclosed = encloses_application(place);
            open_if(is_enclosed, out)?;
            out.push(b'#')?;
            push_decimal(alloc, out, u64::from(*i))?;
            out.push(b' ')?;
            print_at(alloc, names, depth, Place::Argument, e.get(), out)?;
            close_if(is_enclosed, out)
        }
    }
}

fn print_between(is_first: bool, out: &mut Text) -> Result<(), NoMemory>
    ensures pushed { OnOk result (out.new ≡ out.old ++ (if is_first then [] else codes ", ")) }
{
    if is_first { Ok(()) } else { out.extend(b", ") }
}

#[cycle(print)]
fn print_tuple(
    alloc: Global,
    names: &List<TypeName>,
    depth: u32,
    components: &[Term],
    out: &mut Text,
) -> Result<(), NoMemory>
    ensures pushed { OnOk result (out.new ≡ out.old ++ tuple_text (map (text_at names.now) components.now) depth) }
{
    out.push(b'(')?;
    let mut is_first = true;
    for component in components {
        print_between(is_first, out)?;
        is_first = false;
        print_at(alloc, names, depth, Place::Free, component, out)?;
    }
    out.push(b')')
}
