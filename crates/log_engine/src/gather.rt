// Octets that wait to be written.
ghost use Rattle.std.specs.Prelude.{◌≡◌, ℕ, ◌+◌, ◌-◌, ◌≤◌, ◌<◌, ◌++◌, ◌∷◌, [], List, length, drop, take, IfOk, OnOk, slice_range};
ghost use Rattle.std.specs.Io.KnownBytes.{Keeps, append_known};
ghost use Rattle.amr_io.specs.Steps.{SinkStep};
ghost use Rattle.log_engine.specs.Tray.{Tray, Grows};

use amr_io::{Failed, Sink};
use std::alloc::{AllocError, Global};
use std::marker::Model;

/// Octets that wait to be written, in room that is reserved at the start.
#[derive(Drop)]
pub struct Gather {
    tray: Vec<u8>,
    sent: usize,
    used: usize,
}

impl Model for Gather {
    ghost use Rattle.std.specs.Prelude.{◌≤◌, slice_range, vec_len};
    ghost use Rattle.log_engine.specs.Tray.{Tray};

    ghost Value = { Tray };

    ghost view = { λ s. record {
      waiting = slice_range s.tray.items s.sent s.used;
      used = s.used;
      room = vec_len s.tray;
    } };

    ghost invariant = { λ s. (s.sent ≤ s.used) × (s.used ≤ vec_len s.tray) };
}

/// Puts octets at `at`, and leaves what stands before.
#[inline(always)]
fn put_at(tray: &mut [u8], at: usize, octets: &[u8])
    requires { at + length octets.now ≤ length tray.old }

    ensures size { length tray.new ≡ length tray.old }
    ensures put { (from : ℕ) → from ≤ at → slice_range tray.new from (at + length octets.now)
        ≡ slice_range tray.old from at ++ octets.now }
    ensures front { (from count : ℕ) → from ≤ at → count ≤ length octets.now
        → slice_range tray.new from (at + count)
        ≡ slice_range tray.old from at ++ take count octets.now }
{
    tray[at..at + octets.len()].copy_from_slice(octets);
}

/// Puts a head and octets at `at`, and leaves what stands before.
#[inline(always)]
fn put_headed(tray: &mut [u8], at: usize, head: u8, octets: &[u8])
    requires { at + 1 + length octets.now ≤ length tray.old }

    ensures size { length tray.new ≡ length tray.old }
    ensures front { (from count : ℕ) → from ≤ at → count ≤ length octets.now
        → slice_range tray.new from (at + 1 + count)
        ≡ slice_range tray.old from at ++ head ∷ take count octets.now }
{
    tray[at] = head;
    put_at(tray, at + 1, octets);
}

impl Gather {
    /// Room for `room` octets, of which none waits.
    ///
    /// Want of memory is the only error.
    pub fn create(alloc: Global, room: usize) -> Result<Gather, AllocError>
        ensures fresh { IfOk result (λ s. s ≡ record { waiting = []; used = 0; room = room }) }
    {
        let tray = vec![in alloc; 0u8; room]?;
        Ok(Gather {
            tray,
            sent: 0,
            used: 0,
        })
    }

    /// How many octets have room.
    pub fn free(&self) -> usize
        ensures { result + self.now.used ≡ self.now.room }
    {
        self.tray.len() - self.used
    }

    /// How many octets there is room for in all.
    pub fn room(&self) -> usize
        ensures { result ≡ self.now.room }
    {
        self.tray.len()
    }

    /// The octets that wait.
    pub fn waiting(&self) -> &[u8]
        ensures { result.now ≡ self.now.waiting }
    {
        &self.tray[self.sent..self.used]
    }

    /// Takes octets to those that wait.
    pub fn push(&mut self, octets: &[u8])
        requires { self.old.used + length octets.now ≤ self.old.room }
        ensures { self.new ≡ record self.old {
          waiting = self.old.waiting ++ octets.now;
          used = self.old.used + length octets.now;
        } }
    {
        put_at(&mut self.tray, self.used, octets);
        self.used += octets.len();
    }

    /// Takes the first `count` of some octets to those that wait, where there is room for them all:
    /// they are copied as a whole, whatever `count` is.
    #[inline(always)]
    pub fn push_front<const N: usize>(&mut self, octets: &[u8; N], count: usize)
        requires count { count ≤ N }
        requires room { self.old.used + N ≤ self.old.room }
        ensures { self.new ≡ record self.old {
          waiting = self.old.waiting ++ take count octets.now;
          used = self.old.used + count;
        } }
    {
        put_at(&mut self.tray, self.used, octets);
        self.used += count;
    }

    /// Takes `head` and the first `count` octets of `body` to those that wait, where there is room for
    /// all of `body`: it is copied as a whole, whatever `count` is.
    #[inline(always)]
    pub fn push_headed(&mut self, head: u8, body: &[u8], count: usize)
        requires count { count ≤ length body.now }
        requires room { self.old.used + 1 + length body.now ≤ self.old.room }
        ensures { self.new ≡ record self.old {
          waiting = self.old.waiting ++ head ∷ take count body.now;
          used = self.old.used + (1 + count);
        } }
    {
        put_headed(&mut self.tray, self.used, head, body);
        self.used += 1 + count;
    }

    /// Drops the first octets that wait.
    pub fn pass(&mut self, count: usize)
        requires { count ≤ length self.old.waiting }
        ensures { self.new ≡ record self.old { waiting = drop count self.old.waiting } }
    {
        self.sent += count;
    }

    /// Uses the room anew.
    pub fn clear(&mut self)
        requires { self.old.waiting ≡ [] }
        ensures { self.new ≡ record self.old { waiting = []; used = 0 } }
    {
        self.sent = 0;
        self.used = 0;
    }

    /// Writes the octets that wait to `output`, and keeps what it got in all, that which waits included.
    ///
    /// `Failed` comes only where the output's faults rose.
    pub fn flush<O: Sink>(&mut self, output: &mut O) -> Result<(), Failed>
        ensures kept { Keeps (append_known (O.got output.old) self.old.waiting)
            (append_known (O.got output.new) self.new.waiting) }
        ensures empty { OnOk result ((self.new.waiting ≡ []) × (self.new.used ≡ 0)) }
        ensures room { self.new.room ≡ self.old.room }
        ensures grows { Grows (O.got output.old) (O.got output.new) }
        ensures step { SinkStep O.Sink output.old output.new result }
    {
        'sending: while !self.waiting().is_empty() {
            let count = output.write(self.waiting())?;
            self.pass(count);
        }
        self.clear();
        Ok(())
    }
}
