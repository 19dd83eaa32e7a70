// A sink over memory, some of whose writes fail.
ghost use Rattle.std.specs.Prelude.{◌≡◌, ◌+◌, ◌-◌, ◌^◌, ◌<◌, ◌≤◌, ◌↔◌, ◌⊎◌, [], length, min, IfOk, IsErr, OnErr, Contains, Some, vec_len, vec_capacity};
ghost use Rattle.amr_io.specs.Fault.{CountsFault};
ghost use Rattle.amr_io.specs.Told.{Writes};
ghost use Rattle.amr_io.specs.Memory.{MemorySinkState};

use crate::memory_source::is_failing;
use crate::sink::Sink;
use crate::source::Failed;
use std::alloc::{AllocError, Global};
use std::marker::Model;

/// A sink over memory of a fixed size. It tells what it got, and its writes fail at given numbers and where no room is left.
#[derive(Drop)]
pub struct MemorySink {
    octets: Vec<u8>,
    room: usize,
    cut: usize,
    failing: Vec<u64>,
    calls: u128,
    faults: u64,
}

impl Model for MemorySink {
    ghost Value = { MemorySinkState };

    ghost view = { λ s. record {
      octets = s.octets.items;
      room = s.room;
      cut = s.cut;
      failing = s.failing.items;
      calls = s.calls;
      faults = s.faults;
    } };

    ghost invariant = { λ s. (vec_len s.octets ≤ s.room) × (s.room ≤ vec_capacity s.octets) × (0 < s.cut) };
}

impl MemorySink {
    /// A sink with room for `room` octets, of which a write takes at most `cut`, with no octet and no fault.
    ///
    /// The write calls are numbered from 0. A call whose number stands in `failing`, or that finds no room left, fails, and
    /// no other does. Want of memory is the only error.
    pub fn create(
        alloc: Global,
        room: usize,
        cut: usize,
        failing: &[u64],
    ) -> Result<MemorySink, AllocError>
        requires cut { 0 < cut }

        ensures fresh { IfOk result (λ s. s ≡ record {
          octets = [];
          room = room;
          cut = cut;
          failing = failing.now;
          calls = 0;
          faults = 0;
        }) }
    {
        let octets = Vec::with_capacity(alloc, room)?;
        let failing = Vec::from_slice(alloc, failing)?;
        Ok(MemorySink {
            octets,
            room,
            cut,
            failing,
            calls: 0,
            faults: 0,
        })
    }

    /// What the sink got.
    pub fn octets(&self) -> &[u8]
        ensures got { result.now ≡ self.now.octets }
    {
        self.octets.as_slice()
    }
}

impl Sink for MemorySink {
    ghost got = { λ s. Some s.octets };

    ghost beside = { λ _. Some [] };

    ghost faults = { λ s. s.faults };

    ghost same = { λ _ _. Unit {0} };

    /// Takes all of `bytes`, but at most `cut` and what is left of the room, or fails where this call's number stands in
    /// `failing` or no room is left.
    fn write(&mut self, bytes: &[u8]) -> Result<usize, Failed>
        requires some { 0 < length bytes.now }

        ensures octets { Writes (Some self.old.octets) (Some self.new.octets) result bytes.now }
        ensures count { IfOk result (λ n. n ≡ min (min (length bytes.now) self.old.cut)
            (self.old.room - length self.old.octets)) }

        ensures fails { IsErr result ↔ (Contains self.old.failing self.old.calls
            ⊎ (self.old.room ≤ length self.old.octets)) }
        ensures cause { CountsFault self.old.faults self.new.faults result }

        ensures calls { self.new.calls ≡ min (self.old.calls + 1) (2 ^ 128 - 1) }
        ensures kept { (self.new.room ≡ self.old.room) × (self.new.cut ≡ self.old.cut)
            × (self.new.failing ≡ self.old.failing) }
    {
        let call = self.calls;
        self.calls = call.saturating_add(1);
        let free = self.room - self.octets.len();
        if free == 0 || is_failing(&self.failing, call) {
            self.faults = self.faults.saturating_add(1);
            return Err(Failed);
        }
        let count = bytes.len().min(self.cut).min(free);
        // The room was reserved when the sink was made.
        let Ok(()) = self.octets.extend_from_slice(&bytes[..count]) else {
            unreachable!()
        };
        Ok(count)
    }

    ghost reflexive = { λ _. tt };

    ghost transitive = { λ _ _ _ _ _. tt };
}
