// The texts of types, written at the end of a text.
ghost use Rattle.std.specs.Prelude.{◌≡◌, ◌++◌, ◌∷◌, OnOk, map};
ghost use Rattle.lib_index.specs.IndexText.{bytes_text, field_text, number_text, type_text};
ghost use Rattle.type_core.specs.Lists.{concatenated};

use crate::pushing::{push_bytes, push_number};
use sig_base::{NoMemory, Text};
use type_core::{Field, Ty};

// Writes the byte of a form, and a number.
fn push_form(out: &mut Text, form: u8, n: u64) -> Result<(), NoMemory>
    ensures pushed { OnOk result (out.new ≡ out.old ++ form ∷ number_text n) }
{
    out.push(form)?;
    push_number(out, n)
}

/// Writes the text of a type.
#[cycle(types)]
pub fn push_type(out: &mut Text, t: &Ty) -> Result<(), NoMemory>
    ensures pushed { OnOk result (out.new ≡ out.old ++ type_text t.now) }
{
    match t {
        Ty::Var(v) => push_form(out, 0, u64::from(v.n)),
        Ty::Con(name, arguments) => {
            push_form(out, 1, u64::from(name.0))?;
            push_types(out, arguments.as_slice())
        }
        Ty::Tup(components) => {
            push_form(out, 2, components.len() as u64)?;
            push_types(out, components.as_slice())
        }
        Ty::Arrow(from, to) => {
            out.push(3)?;
            push_type(out, from.get())?;
            push_type(out, to.get())
        }
        Ty::Rec(fields) => {
            push_form(out, 4, fields.len() as u64)?;
            push_fields(out, fields.as_slice())
        }
    }
}

#[cycle(types)]
fn push_types(out: &mut Text, parts: &[Ty]) -> Result<(), NoMemory>
    ensures pushed { OnOk result (out.new ≡ out.old ++ concatenated (map type_text parts.now)) }
{
    for part in parts {
        push_type(out, part)?;
    }
    Ok(())
}

#[cycle(types)]
fn push_fields(out: &mut Text, fields: &[Field]) -> Result<(), NoMemory>
    ensures pushed { OnOk result (out.new ≡ out.old ++ concatenated (map field_text fields.now)) }
{
    for field in fields {
        push_bytes(out, field.label.as_slice())?;
        push_type(out, &field.ty)?;
    }
    Ok(())
}
