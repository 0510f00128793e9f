// Equality of types and of schemes.
ghost use Rattle.std.specs.Prelude.{◌≡◌, ◌↔◌, IsTrue};
ghost use Rattle.type_core.specs.Renaming.{AreEqualUpToNames};
ghost use Rattle.type_core.specs.Schemes.{IsScheme};

use crate::ty::{Field, Scheme, Ty};

/// Whether the two are one type.
#[cycle(same)]
pub fn same(a: &Ty, b: &Ty) -> bool
    ensures value { IsTrue result ↔ (a.now ≡ b.now) }
{
    match (a, b) {
        (Ty::Var(v), Ty::Var(w)) => v == w,
        (Ty::Con(name, parts), Ty::Con(other, others)) => name.0 == other.0
            && same_all(parts.as_slice(), others.as_slice()),
        (Ty::Rec(fields), Ty::Rec(others)) => same_fields(fields.as_slice(), others.as_slice()),
        (Ty::Tup(parts), Ty::Tup(others)) => same_all(parts.as_slice(), others.as_slice()),
        (Ty::Arrow(from, to), Ty::Arrow(other_from, other_to)) => {
            same(from.get(), other_from.get()) && same(to.get(), other_to.get())
        }
        _ => false,
    }
}

#[cycle(same)]
fn same_all(parts: &[Ty], others: &[Ty]) -> bool
    ensures value { IsTrue result ↔ (parts.now ≡ others.now) }
{
    if parts.len() != others.len() {
        return false;
    }
    for i in 0..parts.len() {
        if !same(&parts[i], &others[i]) {
            return false;
        }
    }
    true
}

#[cycle(same)]
fn same_fields(fields: &[Field], others: &[Field]) -> bool
    ensures value { IsTrue result ↔ (fields.now ≡ others.now) }
{
    if fields.len() != others.len() {
        return false;
    }
    for i in 0..fields.len() {
        if !same_bytes(fields[i].label.as_slice(), others[i].label.as_slice())
            || !same(&fields[i].ty, &others[i].ty)
        {
            return false;
        }
    }
    true
}

fn same_bytes(a: &[u8], b: &[u8]) -> bool
    ensures value { IsTrue result ↔ (a.now ≡ b.now) }
{
    a == b
}

/// Whether some renaming of variables, one to one and keeping marks, makes one scheme the other.
///
/// The variables of a scheme are numbered by first occurrence, so this is whether the bodies are one type.
pub fn equal_schemes(a: &Scheme, b: &Scheme) -> bool
    requires first { IsScheme a.now }
    requires second { IsScheme b.now }
    ensures value { IsTrue result ↔ AreEqualUpToNames a.now b.now }
{
    same(&a.body, &b.body)
}
