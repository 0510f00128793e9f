// The generator.
ghost use Rattle.std.specs.Prelude.{◌≡◌, ◌++◌, ◌≤◌, IfOk, OnOk};
ghost use Rattle.lib_gen.specs.Generator.{atom as the_atom, function, generated, value_line, value_type};

use sig_base::{NoMemory, Text};
use std::alloc::Global;
use type_core::push_decimal;

/// The text of a signature of `n` values.
pub fn generate(alloc: Global, n: u32) -> Result<Text, NoMemory>
    requires some { 1 ≤ n }
    requires few { n ≤ 20000 }
    ensures value { IfOk result (λ text. text ≡ generated n) }
{
    let mut text = Text::new(alloc);
    text.extend(b"signature G = sig\n")?;
    for i in 0..n {
        push_value(alloc, i, &mut text)?;
    }
    text.extend(b"end\n")?;
    Ok(text)
}

/// Adds the line of the value of this number.
fn push_value(alloc: Global, i: u32, out: &mut Text) -> Result<(), NoMemory>
    ensures pushed { OnOk result (out.new ≡ out.old ++ value_line i) }
{
    out.extend(b"  val v")?;
    push_decimal(alloc, out, u64::from(i))?;
    out.extend(b" : ")?;
    push_type(i, out)?;
    out.push(b'\n')
}

/// Adds the type of the value of this number.
fn push_type(i: u32, out: &mut Text) -> Result<(), NoMemory>
    ensures pushed { OnOk result (out.new ≡ out.old ++ value_type i) }
{
    push_function(
        i / 125 % 4,
        atom(i % 5),
        atom(i / 5 % 5),
        atom(i / 25 % 5),
        out,
    )
}

fn atom(n: u32) -> &'static [u8]
    ensures value { result.now ≡ the_atom n }
{
    match n {
        0 => b"int",
        1 => b"string",
        2 => b"bool",
        3 => b"char",
        _ => b"word",
    }
}

fn push_function(form: u32, x: &[u8], y: &[u8], z: &[u8], out: &mut Text) -> Result<(), NoMemory>
    ensures pushed { OnOk result (out.new ≡ out.old ++ function form x.now y.now z.now) }
{
    match form {
        0 => {
            push_both(out, x, b" -> 'a -> ")?;
            push_both(out, y, b" -> ")?;
        }
        1 => {
            push_both(out, b"'a * ", x)?;
            push_both(out, b" * ", y)?;
            out.extend(b" -> ")?;
        }
        2 => {
            push_both(out, y, b" * 'a -> ")?;
            push_both(out, x, b" -> ")?;
        }
        _ => {
            push_both(out, y, b" * ")?;
            push_both(out, x, b" -> 'a -> ")?;
        }
    }
    out.extend(z)
}

fn push_both(out: &mut Text, first: &[u8], second: &[u8]) -> Result<(), NoMemory>
    ensures pushed { OnOk result (out.new ≡ out.old ++ first.now ++ second.now) }
{
    out.extend(first)?;
    out.extend(second)
}
