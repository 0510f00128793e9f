// The smallest parts of an index text, written at the end of a text.
ghost use Rattle.std.specs.Prelude.{◌≡◌, ◌++◌, ◌∷◌, [], OnOk};
ghost use Rattle.lib_index.specs.IndexText.{bytes_text, flag, number_text};

use sig_base::{NoMemory, Text};

/// Writes the four bytes of a number.
pub fn push_number(out: &mut Text, n: u64) -> Result<(), NoMemory>
    ensures pushed { OnOk result (out.new ≡ out.old ++ number_text n) }
{
    let bytes = n.to_be_bytes();
    out.extend(&bytes[4..])
}

/// Writes how many bytes there are, and these.
pub fn push_bytes(out: &mut Text, bytes: &[u8]) -> Result<(), NoMemory>
    ensures pushed { OnOk result (out.new ≡ out.old ++ bytes_text bytes.now) }
{
    push_number(out, bytes.len() as u64)?;
    out.extend(bytes)
}

/// Writes 1 for true and 0 for false.
pub fn push_flag(out: &mut Text, is: bool) -> Result<(), NoMemory>
    ensures pushed { OnOk result (out.new ≡ out.old ++ flag is ∷ []) }
{
    if is { out.push(1) } else { out.push(0) }
}
