// Octets that came from a source and are not used yet.
ghost use Rattle.std.specs.Prelude.{◌≡◌, ◌≢◌, ◌+◌, ◌-◌, ◌<◌, ◌≤◌, [], Ok, length, take, drop, IfOk, OnErr, slice_range};
ghost use Rattle.std.specs.Io.KnownBytes.{Keeps, Consumes};
ghost use Rattle.amr_io.specs.Fault.{HasCause};
ghost use Rattle.amr_io.specs.Told.{EndsAt};
ghost use Rattle.amr_io.specs.Inlet.{Fills, FillStep, ComesExactly};

use crate::gate::{Filled, Gate};
use crate::source::{Failed, Source};
use std::alloc::{AllocError, Global};
use std::marker::Model;

/// Octets that came from a source and are not used yet, at most `size` of them, and at most `limit` in all.
#[derive(Drop)]
pub struct Inlet {
    room: Vec<u8>,
    start: usize,
    end: usize,
    limit: u64,
    taken: u64,
    gate: Gate,
}

impl Model for Inlet {
    ghost use Rattle.std.specs.Prelude.{◌≤◌, vec_len, slice_range};
    ghost use Rattle.amr_io.specs.Inlet.{InletState};

    ghost Value = { InletState };

    ghost view = { λ s. record {
      held = slice_range s.room.items s.start s.end;
      size = vec_len s.room;
      limit = s.limit;
      taken = s.taken;
      gate = s.gate;
    } };

    ghost invariant = { λ s. (s.start ≤ s.end) × (s.end ≤ vec_len s.room) × (s.taken ≤ s.limit) };
}

/// Moves `room[start..end]` to the front.
fn move_to_front(room: &mut [u8], start: usize, end: usize)
    requires order { start ≤ end }
    requires within { end ≤ length room.old }

    ensures moved { take (end - start) room.new ≡ slice_range room.old start end }
{
    room.copy_within(start..end, 0);
}

/// One read of at most `most` octets to `room[at..]`, which leaves what stands before `at`.
fn read_behind<S: Source>(
    source: &mut S,
    room: &mut [u8],
    at: usize,
    most: usize,
) -> Result<usize, Failed>
    requires some { 0 < most }
    requires within { at + most ≤ length room.old }

    ensures front { take at room.new ≡ take at room.old }
    ensures count { IfOk result (λ n. n ≤ most) }
    ensures octets { IfOk result (λ n. Consumes (S.left source.old) (S.left source.new)
        (slice_range room.new at (at + n))) }
    ensures end { IfOk result (λ n. EndsAt (S.left source.old) n) }
    ensures failed { OnErr result (Keeps (S.left source.old) (S.left source.new)) }
    ensures cause { HasCause (S.faults source.old) (S.faults source.new) result }
{
    source.read(&mut room[at..at + most])
}

impl Inlet {
    /// An inlet that holds none, with room for `size` octets and leave to take `limit` in all.
    ///
    /// Want of memory is the only error.
    pub fn create(alloc: Global, size: usize, limit: u64) -> Result<Inlet, AllocError>
        requires size { 0 < size }
        requires limit { 0 < limit }

        ensures fresh { IfOk result (λ s. s
            ≡ record { held = []; size = size; limit = limit; taken = 0; gate = Gate.Open }) }
    {
        let room = vec![in alloc; 0u8; size]?;
        Ok(Inlet {
            room,
            start: 0,
            end: 0,
            limit,
            taken: 0,
            gate: Gate::Open,
        })
    }

    /// Makes one read for more octets, of at most the free room and at most what the limit still allows.
    ///
    /// `More` says how many were appended to those held. `End` comes exactly where the read gave none. Where the limit is
    /// reached, one octet is read instead, and `OverLimit` comes where there is one. After `End` and `OverLimit` each further
    /// call gives the same answer without a read. `Failed` comes only where the source's faults rose: what is held and taken
    /// stays, and the inlet is spent.
    #[tactic(auto, using(crate::proofs::Filling::fills_end, crate::proofs::Filling::fills_over))]
    pub fn fill<S: Source>(&mut self, source: &mut S) -> Result<Filled, Failed>
        requires usable { self.old.gate ≢ Gate.Spent }
        requires room { length self.old.held < self.old.size }

        ensures open { self.old.gate ≡ Gate.Open
            → Fills (S.left source.old) (S.left source.new) self.old self.new result }
        ensures ended { self.old.gate ≡ Gate.End
            → (result ≡ Ok Filled.End) × (self.new ≡ self.old) × (source.new ≡ source.old) }
        ensures over { self.old.gate ≡ Gate.OverLimit
            → (result ≡ Ok Filled.OverLimit) × (self.new ≡ self.old) × (source.new ≡ source.old) }
        ensures cause { HasCause (S.faults source.old) (S.faults source.new) result }

        // Where a source that tells its octets serves the read, the answer is determined.
        ensures end_exactly { self.old.gate ≡ Gate.Open
            → ComesExactly (S.left source.old) result Filled.End (λ octets. octets ≡ []) }
        ensures over_exactly { self.old.gate ≡ Gate.Open
            → ComesExactly (S.left source.old) result Filled.OverLimit
            (λ octets. (self.old.taken ≡ self.old.limit) × (octets ≢ [])) }
    {
        match self.gate {
            Gate::End => Ok(Filled::End),
            Gate::OverLimit => Ok(Filled::OverLimit),
            Gate::Open | Gate::Spent => {
                if self.taken < self.limit {
                    self.fill_room(source)
                } else {
                    self.look_past_limit(source)
                }
            }
        }
    }

    /// Reads below the limit.
    fn fill_room<S: Source>(&mut self, source: &mut S) -> Result<Filled, Failed>
        requires room { length self.old.held < self.old.size }
        requires below { self.old.taken < self.old.limit }

        ensures step { FillStep S.Source source.old source.new self.old self.new result }
    {
        move_to_front(&mut self.room, self.start, self.end);
        self.end -= self.start;
        self.start = 0;
        let free = self.room.len() - self.end;
        let most = (self.limit - self.taken).min(free as u64) as usize;
        match read_behind(source, &mut self.room, self.end, most) {
            Ok(0) => {
                self.gate = Gate::End;
                Ok(Filled::End)
            }
            Ok(count) => {
                self.end += count;
                self.taken += count as u64;
                Ok(Filled::More { count })
            }
            Err(failed) => {
                self.gate = Gate::Spent;
                Err(failed)
            }
        }
    }

    /// Reads one octet at the limit, to see whether there is one.
    fn look_past_limit<S: Source>(&mut self, source: &mut S) -> Result<Filled, Failed>
        requires at_limit { self.old.limit ≤ self.old.taken }

        ensures step { FillStep S.Source source.old source.new self.old self.new result }
    {
        let mut octet = [0u8; 1];
        match source.read(&mut octet) {
            Ok(count) if count > 0 => {
                self.gate = Gate::OverLimit;
                Ok(Filled::OverLimit)
            }
            Ok(_) => {
                self.gate = Gate::End;
                Ok(Filled::End)
            }
            Err(failed) => {
                self.gate = Gate::Spent;
                Err(failed)
            }
        }
    }

    /// The octets held, at most `size`.
    pub fn held(&self) -> &[u8]
        ensures octets { result.now ≡ self.now.held }
        ensures within { length result.now ≤ self.now.size }
    {
        &self.room[self.start..self.end]
    }

    /// Drops the first `count` octets held.
    pub fn take(&mut self, count: usize)
        requires held { count ≤ length self.old.held }

        ensures dropped { self.new ≡ record self.old { held = drop count self.old.held } }
    {
        self.start += count;
    }

    /// How many octets were appended so far, at most the limit.
    pub fn taken(&self) -> u64
        ensures count { result ≡ self.now.taken }
        ensures within { result ≤ self.now.limit }
    {
        self.taken
    }
}
