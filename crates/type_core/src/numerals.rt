// Numbers in decimal.
ghost use Rattle.std.specs.Prelude.{◌≡◌, ◌++◌, decimal, string_bytes, IfOk, OnOk, OnErr};

use sig_base::{NoMemory, Text};
use std::alloc::{AllocError, Global};

fn decimal_text(alloc: Global, n: u64) -> Result<String, AllocError>
    ensures value { IfOk result (λ text. string_bytes text ≡ decimal n) }
{
    format!(in alloc; "{n}")
}

/// Adds a number in decimal. Where memory is wanting the text stays as it was.
pub fn push_decimal(alloc: Global, out: &mut Text, n: u64) -> Result<(), NoMemory>
    ensures pushed { OnOk result (out.new ≡ out.old ++ decimal n) }
    ensures kept { OnErr result (out.new ≡ out.old) }
{
    let text = decimal_text(alloc, n)?;
    out.extend(text.as_bytes())
}
