// Weights of types.
ghost use Rattle.std.specs.Prelude.{◌≡◌, ◌+◌, length, map, min};
ghost use Rattle.type_core.specs.Lists.{sum_of};
ghost use Rattle.type_core.specs.Weight.{label_bytes, type_weight};

use crate::measures::size;
use crate::ty::{Field, Ty};

/// How many bytes the labels of the type have, or `u64::MAX` where that is less.
#[cycle(labels)]
#[tactic(auto, using(crate::proofs::LabelBytes::bytes_by_form, std::proofs::lemmas::Grind::common_steps))]
fn label_bytes(t: &Ty) -> u64
    ensures value { result ≡ min (label_bytes t.now) u64.MAX }
{
    match t {
        Ty::Var(_) => 0,
        Ty::Con(_, arguments) => total_bytes(arguments.as_slice()),
        Ty::Rec(fields) => field_bytes(fields.as_slice()),
        Ty::Tup(components) => total_bytes(components.as_slice()),
        Ty::Arrow(from, to) => label_bytes(from.get()).saturating_add(label_bytes(to.get())),
    }
}

#[cycle(labels)]
fn total_bytes(parts: &[Ty]) -> u64
    ensures value { result ≡ min (sum_of (map label_bytes parts.now)) u64.MAX }
{
    let mut total: u64 = 0;
    for part in parts {
        total = total.saturating_add(label_bytes(part));
    }
    total
}

#[cycle(labels)]
fn field_bytes(fields: &[Field]) -> u64
    ensures value { result ≡ min (sum_of (map (λ field. length field.label + label_bytes field.ty) fields.now)) u64.MAX }
{
    let mut total: u64 = 0;
    for field in fields {
        let label = field.label.len() as u64;
        total = total
            .saturating_add(label)
            .saturating_add(label_bytes(&field.ty));
    }
    total
}

/// The weight of a type, or `u64::MAX` where that is less.
pub fn type_weight(t: &Ty) -> u64
    ensures value { result ≡ min (type_weight t.now) u64.MAX }
{
    size(t).saturating_add(label_bytes(t))
}
