// Types and schemes of a library.
ghost use Rattle.std.specs.Prelude.{◌≡◌, ◌≤◌, ◌↔◌, IfOk, IsTrue};
ghost use Rattle.std.specs.List.{All};
ghost use Rattle.type_core.specs.NormalSize.{normal_size_of};
ghost use Rattle.type_core.specs.Schemes.{IsScheme};
ghost use Rattle.type_core.specs.Types.{IsTypeOver};
ghost use Rattle.type_core.specs.ValidLibrary.{IsLabel, IsTypeOf, IsWithinLimits};
ghost use Rattle.type_core.specs.Weight.{labels_of};

use sig_base::{NoMemory, is_identifier, is_numeral};
use std::alloc::Global;
use type_core::{Field, Library, Scheme, Ty, close, height, is_type_over, normal_size, same, size};

const MAX_LABEL_BYTES: usize = 255;

const MAX_NODES: u64 = 2_000;

const MAX_HEIGHT: u64 = 200;

const MAX_NORMAL_NODES: u64 = 8_000;

fn is_label(text: &[u8]) -> bool
    ensures exact { IsTrue result ↔ IsLabel text.now }
{
    text.len() <= MAX_LABEL_BYTES && (is_identifier(text) || is_numeral(text))
}

/// Whether each label in the type is one that may be written.
#[cycle(labels)]
fn has_labels(t: &Ty) -> bool
    ensures exact { IsTrue result ↔ All IsLabel (labels_of t.now) }
{
    match t {
        Ty::Var(_) => true,
        Ty::Con(_, arguments) => have_labels(arguments.as_slice()),
        Ty::Rec(fields) => fields_have_labels(fields.as_slice()),
        Ty::Tup(components) => have_labels(components.as_slice()),
        Ty::Arrow(from, to) => has_labels(from.get()) && has_labels(to.get()),
    }
}

#[cycle(labels)]
fn have_labels(parts: &[Ty]) -> bool
    ensures exact { IsTrue result ↔ All (λ part. All IsLabel (labels_of part)) parts.now }
{
    for part in parts {
        if !has_labels(part) {
            return false;
        }
    }
    true
}

#[cycle(labels)]
fn fields_have_labels(fields: &[Field]) -> bool
    ensures exact { IsTrue result ↔ All (λ field. IsLabel field.label × All IsLabel (labels_of field.ty)) fields.now }
{
    for field in fields {
        if !is_label(field.label.as_slice()) || !has_labels(&field.ty) {
            return false;
        }
    }
    true
}

/// Whether the type is one over the names of the library, with labels as they may be written.
pub(crate) fn is_type_of(lib: &Library, t: &Ty) -> bool
    ensures exact { IsTrue result ↔ IsTypeOf lib.now t.now }
{
    is_type_over(&lib.names, t) && has_labels(t)
}

/// Whether the type has at most 2,000 nodes, and at most 200 on a way down.
pub(crate) fn is_within_limits(t: &Ty) -> bool
    ensures exact { IsTrue result ↔ IsWithinLimits t.now }
{
    size(t) <= MAX_NODES && height(t) <= MAX_HEIGHT
}

/// Whether the normal form of the type has at most 8,000 nodes.
pub(crate) fn has_short_normal_form(t: &Ty) -> bool
    ensures exact { IsTrue result ↔ (normal_size_of t.now ≤ 8000) }
{
    normal_size(t) <= MAX_NORMAL_NODES
}

fn is_same_scheme(a: &Scheme, b: &Scheme) -> bool
    ensures exact { IsTrue result ↔ (a.now ≡ b.now) }
{
    a.vars == b.vars && same(&a.body, &b.body)
}

/// Whether the variables have the numbers from 0 in the order in which they first occur: whether closing the type
/// again changes nothing.
pub(crate) fn is_closed(alloc: Global, scheme: &Scheme) -> Result<bool, NoMemory>
    requires limits { IsWithinLimits scheme.now.body }
    ensures exact { IfOk result (λ closed. IsTrue closed ↔ IsScheme scheme.now) }
{
    let closed = close(alloc, &scheme.body)?;
    Ok(is_same_scheme(&closed, scheme))
}
