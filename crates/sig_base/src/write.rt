// Writing a text whole.
ghost use Rattle.std.specs.Prelude.{OnOk, OnErr};
ghost use Rattle.std.specs.Io.KnownBytes.{Appends};
ghost use Rattle.sig_base.specs.Faults.{HasCause};
ghost use Rattle.sig_base.specs.Writing.{AppendsPart};

use crate::{Failed, Sink};

/// Writes all of the bytes. After a failure some of them, at their front, were written, and not all.
pub fn write_all<S: Sink>(sink: &mut S, bytes: &[u8]) -> Result<(), Failed>
    ensures all { OnOk result (Appends (S.written sink.old) (S.written sink.new) bytes.now) }
    ensures part { OnErr result (AppendsPart (S.written sink.old) (S.written sink.new) bytes.now) }
    ensures cause { HasCause (S.faults sink.old) (S.faults sink.new) result }
{
    let mut written = 0;
    while written < bytes.len() {
        written += sink.put(&bytes[written..])?;
    }
    Ok(())
}
