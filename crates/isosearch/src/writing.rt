// The writing of answers.
ghost use Rattle.std.specs.Prelude.{◌≡◌, ◌⊎◌, OnOk, OnErr, if◌then◌else◌};
ghost use Rattle.std.specs.Io.KnownBytes.{Appends};
ghost use Rattle.sig_base.specs.Faults.{HasCauseAt, NoneFell, Rose};
ghost use Rattle.sig_base.specs.FileWrites.{Changes};
ghost use Rattle.sig_base.specs.Writing.{AppendsPart};
ghost use Rattle.isosearch.specs.Ending.{Writes, WritesPart};
ghost use Rattle.isosearch.specs.Lines.{Says, no_memory_line, not_written_line, output_name};
ghost use Rattle.isosearch.specs.Outcome.{written};
ghost use Rattle.isosearch.specs.Outside.{stream};

use crate::lines;
use sig_base::{Files, Sink, Trouble, write_all};

/// Writes a report, and answers the status.
pub fn print<O: Sink, E: Sink>(text: &[u8], found_none: bool, out: &mut O, err: &mut E) -> u8
    ensures statuses { (result ≡ (if found_none then 1 else 0)) ⊎ (result ≡ 6) }
    ensures whole { (result ≡ 6 → ⊥) → Appends (O.written out.old) (O.written out.new) text.now × (E.written err.new ≡ E.written err.old) }
    ensures part { result ≡ 6 → AppendsPart (O.written out.old) (O.written out.new) text.now }
    ensures fault { result ≡ 6 → Rose (O.faults out.old) (O.faults out.new) }
    ensures line { result ≡ 6 → Says (stream E.Sink err.old) (stream E.Sink err.new) (not_written_line output_name) }
{
    match write_all(out, text) {
        Ok(()) => { if found_none { 1 } else { 0 } }
        Err(_) => {
            lines::not_written(err, "output");
            6
        }
    }
}

// Leaves the file at this path with these bytes.
fn replace<F: Files>(files: &mut F, path: &str, bytes: &[u8]) -> Result<(), Trouble>
    ensures whole { OnOk result (Changes (F.files files.old) (F.files files.new) (Writes (written path.now bytes.now).write)) }
    ensures part { OnErr result (Changes (F.files files.old) (F.files files.new) (WritesPart (written path.now bytes.now).write)) }
    ensures cause { HasCauseAt path.now (F.write_faults files.old) (F.write_faults files.new) result }
    ensures no_read { F.read_faults files.new ≡ F.read_faults files.old }
{
    files.create(path)?;
    files.append(path, bytes)
}

/// Leaves the file at this path with these bytes, and answers the status.
pub fn write_file<F: Files, E: Sink>(files: &mut F, path: &str, bytes: &[u8], err: &mut E) -> u8
    ensures statuses { (result ≡ 0) ⊎ ((result ≡ 6) ⊎ (result ≡ 7)) }
    ensures whole { result ≡ 0 → Changes (F.files files.old) (F.files files.new) (Writes (written path.now bytes.now).write) × (E.written err.new ≡ E.written err.old) }
    ensures part { (result ≡ 0 → ⊥) → Changes (F.files files.old) (F.files files.new) (WritesPart (written path.now bytes.now).write) }
    ensures fault { result ≡ 6 → Rose (F.write_faults files.old path.now) (F.write_faults files.new path.now) }
    ensures line { result ≡ 6 → Says (stream E.Sink err.old) (stream E.Sink err.new) (not_written_line path.now) }
    ensures memory { result ≡ 7 → Says (stream E.Sink err.old) (stream E.Sink err.new) no_memory_line }
    ensures counts { NoneFell (F.write_faults files.old) (F.write_faults files.new) }
    ensures no_read { F.read_faults files.new ≡ F.read_faults files.old }
{
    match replace(files, path, bytes) {
        Ok(()) => 0,
        Err(Trouble::Failed) => {
            lines::not_written(err, path);
            6
        }
        Err(Trouble::NoMemory) => {
            lines::no_memory(err);
            7
        }
    }
}
