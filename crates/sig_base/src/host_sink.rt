// A sink over a writer of the system.
ghost use Rattle.std.specs.Prelude.{◌≡◌, ◌<◌, ◌+◌, ◌-◌, ◌^◌, min, length, None, IfOk, OnOk, OnErr};
ghost use Rattle.std.specs.Io.{WritesAtMost};
ghost use Rattle.sig_base.specs.Faults.{HasCause};

use crate::{Failed, Sink};
use std::io::Write;
use std::marker::Model;

/// A sink over a writer. Contracts see it as its count of faults; what was written isn't told.
#[derive(Drop)]
pub struct HostSink<W> {
    inner: W,
    faults: u64,
}

impl<W> Model for HostSink<W> {
    ghost use Rattle.std.specs.Coded.{coded_ℕ};
    ghost use Rattle.std.specs.Prelude.{ℕ};

    ghost Value = { ℕ };

    ghost coded = { coded_ℕ };

    ghost view = { λ sink. sink.faults };
}

impl<W> HostSink<W> {
    /// A sink over this writer, with no faults so far.
    pub fn new(inner: W) -> HostSink<W>
        ensures zero { result ≡ 0 }
    {
        HostSink { inner, faults: 0 }
    }
}

impl<W: Write> Sink for HostSink<W> {
    ghost written = { λ _. None };

    ghost faults = { λ count. count };

    fn put(&mut self, piece: &[u8]) -> Result<usize, Failed>
        ensures bound { WritesAtMost result piece.now }
        ensures some { IfOk result (λ n. 0 < length piece.now → 0 < n) }
        ensures cause { HasCause self.old self.new result }
        ensures raised { OnErr result (self.new ≡ min (self.old + 1) (2 ^ 64 - 1)) }
        ensures quiet { OnOk result (self.new ≡ self.old) }
    {
        match self.inner.write(piece) {
            Ok(count) if count > 0 || piece.is_empty() => Ok(count),
            _ => {
                self.faults = self.faults.saturating_add(1);
                Err(Failed)
            }
        }
    }
}
