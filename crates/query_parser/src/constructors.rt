// What the type constructors of a query stand for.
ghost use Rattle.std.specs.Prelude.{◌≡◌, ◌<◌, ◌&&◌, ◌==◌, not, length, IfOk, IfSome};
ghost use Rattle.std.specs.Option.{option_copied};
ghost use Rattle.elab_types.specs.Finding.{none_of};
ghost use Rattle.query_parser.specs.Constructors as spec;
ghost use Rattle.query_parser.specs.Constructors.{external_of as the_external, number_of as the_number, tycon_of as the_tycon};
ghost use Rattle.query_parser.specs.Views.{Gives, place_of};
ghost use Rattle.type_core.specs.InitialNames.{initial_names};

use crate::place::Place;
use crate::refusal::{QueryWhy, Stop};
use elab_types::{as_number, is_qualified};
use sig_base::{List, NoMemory, Row};
use std::alloc::Global;
use type_core::{NameId, Ty, Tycon, TypeName, apply_fn};

// The number of the first name of this path.
fn number_of(names: &[TypeName], path: &[u8]) -> Option<usize>
    ensures value { result ≡ the_number path.now names.now }
    ensures within { IfSome result (λ n. n < length names.now) }
{
    for n in 0..names.len() {
        if path == names[n].path.as_slice() {
            return Some(n);
        }
    }
    None
}

fn is_external(name: &TypeName, path: &[u8]) -> bool
    ensures value { result ≡ spec.is_external path.now name.now }
{
    name.external && path == name.path.as_slice()
}

// The number of the external name of this path and arity.
fn external_of(names: &[TypeName], path: &[u8], arity: usize) -> Option<usize>
    ensures value { result ≡ the_external path.now arity names.now }
{
    for n in 0..names.len() {
        if is_external(&names[n], path) && names[n].arity as usize == arity {
            return Some(n);
        }
    }
    None
}

// Whether no external name has this path.
fn is_unknown(names: &[TypeName], path: &[u8]) -> bool
    ensures value { result ≡ none_of (spec.is_external path.now) names.now }
{
    for name in names {
        if is_external(name, path) {
            return false;
        }
    }
    true
}

// The type constructor, where it has this path.
fn with_path<'a>(tycon: &'a Tycon, path: &[u8]) -> Option<&'a Tycon>
    ensures value { option_copied result ≡ spec.with_path path.now tycon.now }
{
    if path == tycon.path.as_slice() {
        Some(tycon)
    } else {
        None
    }
}

// The type constructor of this path.
fn tycon_of<'a>(tycons: &'a [Tycon], path: &[u8]) -> Option<&'a Tycon>
    ensures value { option_copied result ≡ the_tycon path.now tycons.now }
{
    for tycon in tycons {
        if let Some(found) = with_path(tycon, path) {
            return Some(found);
        }
    }
    None
}

// The name of this number, applied to arguments.
fn of_name(alloc: Global, n: usize, arguments: List<Ty>) -> Result<Ty, NoMemory>
    ensures value { IfOk result (λ t. t ≡ spec.of_name n arguments) }
{
    let n = as_number(n)?;
    let arguments = Row::new(alloc, arguments)?;
    Ok(Ty::Con(NameId(n), arguments))
}

// An initial name, applied.
fn initial_applied(
    alloc: Global,
    initial: &[TypeName],
    token: u32,
    id: &[u8],
    arguments: List<Ty>,
) -> Result<Ty, Stop>
    requires initial { initial.now ≡ initial_names }
    ensures outcome { Gives (spec.initial_applied token (the_number id.now initial_names) arguments) result }
{
    match number_of(initial, id) {
        None => Err(Stop::Failed(QueryWhy::Unbound, token)),
        Some(n) => {
            if initial[n].arity as usize != arguments.len() {
                return Err(Stop::Failed(QueryWhy::WrongArity, token));
            }
            let t = of_name(alloc, n, arguments)?;
            Ok(t)
        }
    }
}

// An unqualified constructor, applied: `unit` or an initial name.
fn unqualified_applied(
    alloc: Global,
    initial: &[TypeName],
    token: u32,
    id: &[u8],
    arguments: List<Ty>,
) -> Result<Ty, Stop>
    requires initial { initial.now ≡ initial_names }
    ensures outcome { Gives (spec.unqualified_applied token id.now arguments) result }
{
    if id != b"unit".as_slice() {
        return initial_applied(alloc, initial, token, id, arguments);
    }
    if arguments.is_empty() {
        Ok(Ty::Tup(Row::empty()))
    } else {
        Err(Stop::Failed(QueryWhy::WrongArity, token))
    }
}

// An external name of this path, applied.
fn external_applied(
    alloc: Global,
    names: &[TypeName],
    token: u32,
    path: &[u8],
    arguments: List<Ty>,
) -> Result<Ty, Stop>
    ensures outcome { Gives (spec.external_applied token path.now names.now arguments) result }
{
    match external_of(names, path, arguments.len()) {
        Some(n) => {
            let t = of_name(alloc, n, arguments)?;
            Ok(t)
        }
        None => {
            if is_unknown(names, path) {
                Err(Stop::Failed(QueryWhy::Unbound, token))
            } else {
                Err(Stop::Failed(QueryWhy::WrongArity, token))
            }
        }
    }
}

// A qualified constructor, applied: a type constructor of the library, or else an external name.
fn qualified_applied(
    alloc: Global,
    place: &Place<'_>,
    token: u32,
    path: &[u8],
    arguments: List<Ty>,
) -> Result<Ty, Stop>
    ensures outcome { Gives (spec.qualified_applied token path.now place.now.library.now.names (the_tycon path.now place.now.library.now.tycons) arguments) result }
{
    match tycon_of(place.library.tycons.as_slice(), path) {
        None => external_applied(
            alloc,
            place.library.names.as_slice(),
            token,
            path,
            arguments,
        ),
        Some(tycon) => {
            if arguments.len() != tycon.fun.arity as usize {
                return Err(Stop::Failed(QueryWhy::WrongArity, token));
            }
            let t = apply_fn(alloc, &tycon.fun, &arguments)?;
            Ok(t)
        }
    }
}

/// The constructor of this path, at a token, applied to arguments.
pub fn constructor_applied(
    alloc: Global,
    place: &Place<'_>,
    token: u32,
    path: &[u8],
    arguments: List<Ty>,
) -> Result<Ty, Stop>
    ensures outcome { Gives (spec.constructor_applied (place_of place.now).library token path.now arguments) result }
{
    if is_qualified(path) {
        qualified_applied(alloc, place, token, path, arguments)
    } else {
        unqualified_applied(alloc, place.initial, token, path, arguments)
    }
}
