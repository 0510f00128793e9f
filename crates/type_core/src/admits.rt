// Which types admit equality.
ghost use Rattle.std.specs.Prelude.{◌≡◌, ◌↔◌, IsTrue, map, slice_get};
ghost use Rattle.type_core.specs.AdmitsEquality.{AdmitsEquality, admits_equality, attribute_of, field_admits_equality};
ghost use Rattle.type_core.specs.Lists.{all_true};

use crate::names::{Equality, TypeName};
use crate::ty::{Field, NameId, Ty};
use sig_base::List;

/// Whether the type admits equality (the Definition, section 4.4). A variable does where it has the mark,
/// and an application of a name that isn't among `names` doesn't.
pub fn admits_equality(names: &List<TypeName>, t: &Ty) -> bool
    ensures value { IsTrue result ↔ AdmitsEquality names.now t.now }
{
    admits(t, names.as_slice())
}

/// The attribute of a name; `Never` where there is no such name.
fn attribute(names: &[TypeName], name: NameId) -> Equality
    ensures value { result ≡ attribute_of (slice_get names.now name.0) }
{
    match names.get(name.0 as usize) {
        Some(name) => name.equality,
        None => Equality::Never,
    }
}

#[cycle(admits)]
fn admits(t: &Ty, names: &[TypeName]) -> bool
    ensures value { result ≡ admits_equality names.now t.now }
{
    match t {
        Ty::Var(v) => v.eq,
        Ty::Con(name, arguments) => match attribute(names, *name) {
            Equality::Never => false,
            Equality::IfArgs => all_admit(arguments.as_slice(), names),
            Equality::Always => true,
        },
        Ty::Rec(fields) => fields_admit(fields.as_slice(), names),
        Ty::Tup(components) => all_admit(components.as_slice(), names),
        Ty::Arrow(_, _) => false,
    }
}

#[cycle(admits)]
fn all_admit(parts: &[Ty], names: &[TypeName]) -> bool
    ensures value { result ≡ all_true (map (admits_equality names.now) parts.now) }
{
    for part in parts {
        if !admits(part, names) {
            return false;
        }
    }
    true
}

#[cycle(admits)]
fn fields_admit(fields: &[Field], names: &[TypeName]) -> bool
    ensures value { result ≡ all_true (map (field_admits_equality names.now) fields.now) }
{
    for field in fields {
        if !admits(&field.ty, names) {
            return false;
        }
    }
    true
}
