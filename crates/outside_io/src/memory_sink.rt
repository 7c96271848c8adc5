// A sink in memory, of a stated room, whose listed calls fail.
ghost use Rattle.std.specs.Prelude.{◌≡◌, ◌⊎◌, ◌<◌, ◌≤◌, ◌+◌, ◌-◌, ◌++◌, ◌↔◌, [], List, ℕ, Option, Some, Ok, min, length, take, IsErr, IfOk, OnOk, OnErr, Contains};
ghost use Rattle.outside_io.specs.Io.{raised, Rose};

use crate::calls::Calls;
use crate::{Failed, Sink};
use c_syntax_written::Numbers;
use std::alloc::{AllocError as NoMemory, Global};
use std::marker::Model;

/// A sink in memory. Its room is taken when it is made, so no write takes memory. Its writes are
/// counted from 1, and those whose numbers are listed fail.
#[derive(Drop)]
pub struct MemSink {
    bytes: Vec<u8>,
    room: usize,
    calls: Calls,
    failures: u64,
}

impl Model for MemSink {
    ghost use Rattle.std.specs.Prelude.{◌≤◌, vec_len, vec_capacity};
    ghost use Rattle.outside_io.specs.Memory.{HeldBytes};

    ghost Value = { HeldBytes };

    ghost view = { λ s. record {
      bytes = s.bytes.items;
      room = s.room;
      failing = s.calls.failing;
      calls = s.calls.made;
      faults = s.failures;
    } };

    ghost invariant = { λ s. (vec_len s.bytes ≤ s.room) × (s.room ≤ vec_capacity s.bytes) };
}

impl MemSink {
    /// A sink with nothing in it that can take `room` bytes.
    pub fn new(alloc: Global, room: usize, failing: Numbers) -> Result<MemSink, NoMemory>
        ensures bytes { IfOk result (λ sink. sink.bytes ≡ []) }
        ensures room { IfOk result (λ sink. sink.room ≡ room) }
        ensures failing { IfOk result (λ sink. sink.failing ≡ failing) }
        ensures calls { IfOk result (λ sink. sink.calls ≡ 0) }
        ensures faults { IfOk result (λ sink. sink.faults ≡ 0) }
    {
        Ok(MemSink {
            bytes: Vec::with_capacity(alloc, room)?,
            room,
            calls: Calls::new(failing),
            failures: 0,
        })
    }

    /// The bytes taken so far.
    pub fn bytes(&self) -> &[u8]
        ensures { result.now ≡ self.now.bytes }
    {
        self.bytes.as_slice()
    }
}

impl Sink for MemSink {
    ghost wrote = { λ sink. Some sink.bytes };

    ghost faults = { λ sink. sink.faults };

    // Fails exactly where the call is listed. Else it takes what still fits.
    fn write(&mut self, piece: &[u8]) -> Result<usize, Failed>
        ensures failed { IsErr result ↔ Contains self.old.failing (raised self.old.calls) }
        ensures calls { self.new.calls ≡ raised self.old.calls }
        ensures failing { self.new.failing ≡ self.old.failing }
        ensures room { self.new.room ≡ self.old.room }

        ensures count { IfOk result (λ k. k ≡ min (length piece.now) (self.old.room - length self.old.bytes)) }
        ensures taken { IfOk result (λ k. self.new.bytes ≡ self.old.bytes ++ take k piece.now) }
        ensures nothing { OnErr result (self.new.bytes ≡ self.old.bytes) }

        ensures later { self.old.faults ≤ self.new.faults }
        ensures raised { OnErr result (self.new.faults ≡ raised self.old.faults) }
        ensures full { IfOk result (λ k. k ≡ 0 → 0 < length piece.now → self.new.faults ≡ raised self.old.faults) }
        ensures steady { IfOk result (λ k. (0 < k) ⊎ (piece.now ≡ []) → self.new.faults ≡ self.old.faults) }
        ensures whole { self.old.failing ≡ [] → length self.old.bytes + length piece.now ≤ self.old.room
            → (result ≡ Ok (length piece.now)) × (self.new.faults ≡ self.old.faults) }
    {
        if self.calls.next_fails() {
            self.failures = self.failures.saturating_add(1);
            return Err(Failed);
        }
        let count = piece.len().min(self.room - self.bytes.len());
        if count == 0 && !piece.is_empty() {
            self.failures = self.failures.saturating_add(1);
        }
        match self.bytes.extend_from_slice(&piece[..count]) {
            Ok(()) => Ok(count),
            Err(_) => unreachable!(),
        }
    }
}
