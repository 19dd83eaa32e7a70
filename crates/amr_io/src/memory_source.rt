// A source over octets in memory, some of whose reads fail.
ghost use Rattle.std.specs.Prelude.{◌≡◌, ◌+◌, ◌-◌, ◌^◌, ◌<◌, ◌≤◌, ◌↔◌, length, min, drop, IfOk, IsTrue, IsErr, OnErr, Contains, Some, vec_len};
ghost use Rattle.amr_io.specs.Fault.{CountsFault};
ghost use Rattle.amr_io.specs.Told.{Reads};
ghost use Rattle.amr_io.specs.Memory.{MemorySourceState};

use crate::source::{Failed, Source};
use std::alloc::{AllocError, Global};
use std::marker::Model;

/// A source over octets in memory. It tells them, and its reads fail at given numbers.
#[derive(Drop)]
pub struct MemorySource {
    octets: Vec<u8>,
    read: usize,
    cut: usize,
    failing: Vec<u64>,
    calls: u128,
    faults: u64,
}

impl Model for MemorySource {
    ghost Value = { MemorySourceState };

    ghost view = { λ s. record {
      octets = drop s.read s.octets.items;
      cut = s.cut;
      failing = s.failing.items;
      calls = s.calls;
      faults = s.faults;
    } };

    ghost invariant = { λ s. (s.read ≤ vec_len s.octets) × (0 < s.cut) };
}

/// Whether a call of this number is to fail.
pub(crate) fn is_failing(failing: &[u64], call: u128) -> bool
    ensures { IsTrue result ↔ Contains failing.now call }
{
    failing.iter().any(|number| u128::from(*number) == call)
}

impl MemorySource {
    /// A source of these octets, of which a read gives at most `cut`, with no fault.
    ///
    /// The read calls are numbered from 0. A call whose number stands in `failing` fails, and no other does.
    /// Want of memory is the only error.
    pub fn create(
        alloc: Global,
        octets: &[u8],
        cut: usize,
        failing: &[u64],
    ) -> Result<MemorySource, AllocError>
        requires cut { 0 < cut }

        ensures fresh { IfOk result (λ s. s ≡ record {
          octets = octets.now;
          cut = cut;
          failing = failing.now;
          calls = 0;
          faults = 0;
        }) }
    {
        let octets = Vec::from_slice(alloc, octets)?;
        let failing = Vec::from_slice(alloc, failing)?;
        Ok(MemorySource {
            octets,
            read: 0,
            cut,
            failing,
            calls: 0,
            faults: 0,
        })
    }
}

impl Source for MemorySource {
    ghost left = { λ s. Some s.octets };

    ghost faults = { λ s. s.faults };

    /// Gives as many octets as are left, at most `cut` and the length of `buf`, or fails where this call's number stands in
    /// `failing`.
    fn read(&mut self, buf: &mut [u8]) -> Result<usize, Failed>
        requires room { 0 < length buf.old }

        ensures octets { Reads (Some self.old.octets) (Some self.new.octets) result buf.new }
        ensures count { IfOk result
            (λ n. n ≡ min (min (length self.old.octets) self.old.cut) (length buf.old)) }

        ensures fails { IsErr result ↔ Contains self.old.failing self.old.calls }
        ensures cause { CountsFault self.old.faults self.new.faults result }

        ensures calls { self.new.calls ≡ min (self.old.calls + 1) (2 ^ 128 - 1) }
        ensures kept { (self.new.cut ≡ self.old.cut) × (self.new.failing ≡ self.old.failing) }
    {
        let call = self.calls;
        self.calls = call.saturating_add(1);
        if is_failing(&self.failing, call) {
            self.faults = self.faults.saturating_add(1);
            return Err(Failed);
        }
        let rest = &self.octets[self.read..];
        let count = rest.len().min(self.cut).min(buf.len());
        buf[..count].copy_from_slice(&rest[..count]);
        self.read += count;
        Ok(count)
    }
}
