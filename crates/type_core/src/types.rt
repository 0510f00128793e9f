// What is a type.
ghost use Rattle.std.specs.Prelude.{◌≡◌, ◌↔◌, IsTrue, map, slice_get};
ghost use Rattle.type_core.specs.Lists.{all_true};
ghost use Rattle.type_core.specs.Types.{IsTypeOver, is_over, is_type, takes};

use crate::labels::are_record_labels;
use crate::names::TypeName;
use crate::ty::{Field, NameId, Ty};
use sig_base::List;

/// Whether the tree is a type over these names: each tuple and record in it is one that a type may have,
/// and each name is one of these, with as many arguments as its arity (the Definition, section 4.2).
#[tactic(auto, using(crate::proofs::TypeTests::type_over, std::proofs::lemmas::Grind::common_steps))]
pub fn is_type_over(names: &List<TypeName>, t: &Ty) -> bool
    ensures value { IsTrue result ↔ IsTypeOver names.now t.now }
{
    is_type(t) && is_over(t, names.as_slice())
}

/// Whether the tree is a type, whatever its names are: no tuple in it has one component, and each record is one
/// that a type may have.
#[cycle(types)]
#[tactic(auto, using(crate::proofs::TypeTests::type_tests, std::proofs::lemmas::Grind::common_steps))]
pub fn is_type(t: &Ty) -> bool
    ensures value { result ≡ is_type t.now }
{
    match t {
        Ty::Var(_) => true,
        Ty::Con(_, arguments) => are_types(arguments.as_slice()),
        Ty::Rec(fields) => are_record_labels(fields.as_slice())
            && field_types_are(fields.as_slice()),
        Ty::Tup(components) => components.len() != 1 && are_types(components.as_slice()),
        Ty::Arrow(from, to) => is_type(from.get()) && is_type(to.get()),
    }
}

#[cycle(types)]
fn are_types(parts: &[Ty]) -> bool
    ensures value { result ≡ all_true (map is_type parts.now) }
{
    for part in parts {
        if !is_type(part) {
            return false;
        }
    }
    true
}

#[cycle(types)]
fn field_types_are(fields: &[Field]) -> bool
    ensures value { result ≡ all_true (map (λ field. is_type field.ty) fields.now) }
{
    for field in fields {
        if !is_type(&field.ty) {
            return false;
        }
    }
    true
}

fn takes_as_many(names: &[TypeName], name: NameId, count: usize) -> bool
    ensures value { result ≡ takes (slice_get names.now name.0) count }
{
    match names.get(name.0 as usize) {
        Some(name) => name.arity as usize == count,
        None => false,
    }
}

#[cycle(over)]
#[tactic(auto, using(crate::proofs::TypeTests::over_tests, std::proofs::lemmas::Grind::common_steps))]
fn is_over(t: &Ty, names: &[TypeName]) -> bool
    ensures value { result ≡ is_over names.now t.now }
{
    match t {
        Ty::Var(_) => true,
        Ty::Con(name, arguments) => {
            takes_as_many(names, *name, arguments.len()) && all_over(arguments.as_slice(), names)
        }
        Ty::Rec(fields) => fields_over(fields.as_slice(), names),
        Ty::Tup(components) => all_over(components.as_slice(), names),
        Ty::Arrow(from, to) => is_over(from.get(), names) && is_over(to.get(), names),
    }
}

#[cycle(over)]
fn all_over(parts: &[Ty], names: &[TypeName]) -> bool
    ensures value { result ≡ all_true (map (is_over names.now) parts.now) }
{
    for part in parts {
        if !is_over(part, names) {
            return false;
        }
    }
    true
}

#[cycle(over)]
fn fields_over(fields: &[Field], names: &[TypeName]) -> bool
    ensures value { result ≡ all_true (map (λ field. is_over names.now field.ty) fields.now) }
{
    for field in fields {
        if !is_over(&field.ty, names) {
            return false;
        }
    }
    true
}
