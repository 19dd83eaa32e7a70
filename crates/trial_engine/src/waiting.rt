// The packet that is held.
ghost use Rattle.std.specs.Prelude.{◌≡◌, ◌↔◌, ◌≤◌, ◌<◌, ◌^◌, IfOk, IsSome, IsTrue, None, Some, length, option_to_list, take};
ghost use Rattle.trial_engine.specs.Tapes.{Delivers};

use crate::tape::Tape;
use std::alloc::{AllocError, Global};
use std::marker::Model;

/// The most octets of a packet, which a record of a log may have (RFC 4571, 2).
const MOST_OCTETS: usize = 65_535;

/// Room for one packet, and the packet that is held there, if there is one.
#[derive(Drop)]
pub(crate) struct Waiting {
    room: Vec<u8>,
    size: Option<usize>,
}

impl Model for Waiting {
    ghost use Rattle.std.specs.Prelude.{List, Option, ℕ};
    ghost use Rattle.trial_engine.specs.Waiting.{IsWaiting, held_in};

    ghost Value = { Option (List ℕ) };

    ghost view = { held_in };

    ghost invariant = { IsWaiting };
}

/// Copies octets to the front of a room.
fn put_front(room: &mut [u8], octets: &[u8])
    requires { length octets.now ≤ length room.old }
    ensures { take (length octets.now) room.new ≡ octets.now }
{
    room[..octets.len()].copy_from_slice(octets);
}

impl Waiting {
    /// Room in which no packet is held.
    ///
    /// Want of memory is the only error.
    pub fn create(alloc: Global) -> Result<Waiting, AllocError>
        ensures none { IfOk result (λ w. w ≡ None) }
    {
        let room = vec![in alloc; 0u8; MOST_OCTETS]?;
        Ok(Waiting { room, size: None })
    }

    /// Whether a packet is held.
    pub fn is_held(&self) -> bool
        ensures { IsTrue result ↔ IsSome self.now }
    {
        self.size.is_some()
    }

    /// Holds a packet.
    pub fn hold(&mut self, packet: &[u8])
        requires { length packet.now ≤ 65535 }
        ensures { self.new ≡ Some packet.now }
    {
        put_front(&mut self.room, packet);
        self.size = Some(packet.len());
    }

    /// Delivers the packet that is held, where there is one.
    pub fn release(&mut self, tape: &mut Tape)
        requires few { tape.old.listener.tally.packets < 2 ^ 40 }

        ensures none { self.new ≡ None }
        ensures delivers { Delivers tape.old tape.new (option_to_list self.old) }
    {
        let Some(size) = self.size else {
            return;
        };
        tape.deliver(&self.room[..size]);
        self.size = None;
    }
}
