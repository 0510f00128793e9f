// Numbers of coordinates that a pairing keeps.
ghost use Rattle.std.specs.Prelude.{◌≡◌, ◌%◌, map};
ghost use Rattle.coord_match.specs.search.Fingerprints as spec;

use type_core::{Coordinate, Field, Ty};

fn mix(a: u32, b: u32) -> u32
    ensures value { result ≡ spec.mixed a b }
{
    let both = a as u64 * 2654435761 + b as u64;
    ((both / 65536 + both) % 4294967296) as u32
}

fn mark_number(eq: bool) -> u32
    ensures value { result ≡ spec.mark_number eq }
{
    if eq { 1 } else { 0 }
}

/// A number of the type, the same for all that differ in the numbers of variables alone.
#[cycle(type_fingerprint)]
fn type_fingerprint(t: &Ty) -> u32
    ensures value { result ≡ spec.type_fingerprint t.now }
{
    match t {
        Ty::Var(v) => mix(1, mark_number(v.eq)),
        Ty::Con(name, parts) => all_mixed(mix(2, name.0), parts.as_slice()),
        Ty::Rec(fields) => fields_mixed(3, fields.as_slice()),
        Ty::Tup(parts) => all_mixed(4, parts.as_slice()),
        Ty::Arrow(from, to) => mix(
            mix(5, type_fingerprint(from.get())),
            type_fingerprint(to.get()),
        ),
    }
}

#[cycle(type_fingerprint)]
fn all_mixed(start: u32, parts: &[Ty]) -> u32
    ensures value { result ≡ spec.all_mixed start (map spec.type_fingerprint parts.now) }
{
    let mut number = start;
    for part in parts {
        number = mix(number, type_fingerprint(part));
    }
    number
}

#[cycle(type_fingerprint)]
fn fields_mixed(start: u32, fields: &[Field]) -> u32
    ensures value { result ≡ spec.all_mixed start (map spec.field_fingerprint fields.now) }
{
    let mut number = start;
    for field in fields {
        number = mix(number, type_fingerprint(&field.ty));
    }
    number
}

/// A number of the coordinate, the same for all that differ in the numbers of variables and the order of arguments
/// alone.
#[cycle(fingerprint)]
#[tactic(auto, using(crate::proofs::KeptFingerprints::fingerprint_opened, std::proofs::lemmas::Grind::common_steps))]
pub fn fingerprint(c: &Coordinate) -> u32
    ensures value { result ≡ spec.fingerprint_of c.now }
{
    mix(
        type_fingerprint(&c.head),
        fingerprint_sum(c.arguments.as_slice()),
    )
}

/// The last 32 bits of the sum of the numbers of the coordinates.
#[cycle(fingerprint)]
pub fn fingerprint_sum(cs: &[Coordinate]) -> u32
    ensures value { result ≡ spec.fingerprint_sum cs.now % 4294967296 }
{
    let mut sum = 0;
    for c in cs {
        sum = ((sum as u64 + fingerprint(c) as u64) % 4294967296) as u32;
    }
    sum
}
