// A sink in memory.
ghost use Rattle.std.specs.Prelude.{◌≡◌, ◌<◌, ◌≤◌, ◌+◌, ◌-◌, ◌^◌, ◌↔◌, [], min, length, vec_len, vec_capacity, Some, IfOk, OnOk, OnErr, IsErr};
ghost use Rattle.std.specs.Io.{WritesAtMost};
ghost use Rattle.std.specs.Io.KnownBytes.{WriteAppends};
ghost use Rattle.sig_base.specs.Faults.{HasCause};
ghost use Rattle.sig_base.specs.Script.{CountsOn};

use crate::script::Script;
use crate::{Failed, List, NoMemory, Sink};
use std::alloc::Global;

/// A sink that keeps what is put, has so much room, takes so much in a call, and fails at the calls that it was told.
#[derive(Drop)]
pub struct MemSink {
    bytes: Vec<u8>,
    room: usize,
    chunk: usize,
    script: Script,
    faults: u64,
    ghost reserved: { room ≤ vec_capacity bytes },
    ghost within: { vec_len bytes ≤ room },
}

impl MemSink {
    ghost use Rattle.sig_base.specs.MemSink.{held_by, terms_of, call_of, count_of};

    /// An empty sink that takes `room` bytes in all and `chunk` in a call. Calls are numbered from 1, and those in `fails` fail.
    pub fn new(
        alloc: Global,
        room: usize,
        chunk: usize,
        fails: List<u64>,
    ) -> Result<MemSink, NoMemory>
        ensures empty { IfOk result (λ sink. held_by sink ≡ []) }
        ensures terms { IfOk result (λ sink. terms_of sink ≡ (room, chunk, fails)) }
        ensures first { IfOk result (λ sink. call_of sink ≡ Some 1) }
        ensures zero { IfOk result (λ sink. count_of sink ≡ 0) }
    {
        let bytes = Vec::with_capacity(alloc, room)?;
        Ok(MemSink {
            bytes,
            room,
            chunk,
            script: Script::new(fails),
            faults: 0,
        })
    }

    /// The bytes written so far.
    pub fn bytes(&self) -> &[u8]
        ensures value { result.now ≡ held_by self.now }
    {
        &self.bytes
    }
}

impl Sink for MemSink {
    ghost use Rattle.sig_base.specs.MemSink.{held_by, terms_of, call_of, count_of, place_for, FailsOn};

    ghost written = { λ sink. Some (held_by sink) };

    ghost faults = { λ sink. count_of sink };

    fn put(&mut self, piece: &[u8]) -> Result<usize, Failed>
        ensures bound { WritesAtMost result piece.now }
        ensures some { IfOk result (λ n. 0 < length piece.now → 0 < n) }
        ensures bytes { WriteAppends (Some (held_by self.old)) (Some (held_by self.new)) result piece.now }
        ensures cause { HasCause (count_of self.old) (count_of self.new) result }
        ensures taken { IfOk result (λ n. n ≡ place_for self.old piece.now) }
        ensures fails { IsErr result ↔ FailsOn self.old piece.now }
        ensures raised { OnErr result (count_of self.new ≡ min (count_of self.old + 1) (2 ^ 64 - 1)) }
        ensures quiet { OnOk result (count_of self.new ≡ count_of self.old) }
        ensures counted { CountsOn (call_of self.old) (call_of self.new) }
        ensures terms { terms_of self.new ≡ terms_of self.old }
    {
        let fails = self.script.fails_now();
        let left = self.room - self.bytes.len();
        let count = piece.len().min(self.chunk).min(left);
        if fails || (count == 0 && !piece.is_empty()) {
            self.faults = self.faults.saturating_add(1);
            return Err(Failed);
        }
        self.bytes.extend_from_slice(&piece[..count]).unwrap();
        Ok(count)
    }
}
