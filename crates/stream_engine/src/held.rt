// Frames that are held, sent where they stand: nothing is read, and nothing written to the outside.
ghost use Rattle.std.specs.Prelude.{◌≡◌, ◌+◌, ◌++◌, ◌≤◌, ◌^◌, ◌∷◌, ℕ, [], List, false, true};
ghost use Rattle.amr_frame.specs.Tables.{is_reserved};
ghost use Rattle.amr_sender.specs.Sender.{TakesBlock};
ghost use Rattle.amr_sender.specs.Single.{SendsSingly};
ghost use Rattle.amr_store.specs.Reading.{given, limit_of};
ghost use Rattle.spec_store.specs.StorageReading.{frame_in, is_unit, unit_type};
ghost use Rattle.stream_engine.specs.Held.{SendsHeld, SentHeld};
ghost use Rattle.stream_engine.specs.Reading.{IsReading};

use amr_io::Sink;
use amr_sender::Sender;
use amr_store::{MOST_UNIT, StoreReader};
use log_engine::{Gather, GatherSink};
use rtp_packet::log_head;

/// Octets that hold the longest packet of one frame.
const PACKET: usize = 76;

/// The most octets of its record (RFC 4571, 2): its length and the packet.
const RECORD: usize = 2 + PACKET;

/// Sends the frame that stands first in these octets, where each packet carries one frame: its
/// record waits behind what waited.
#[inline(always)]
fn send_unit(sender: &mut Sender, unit: &[u8; MOST_UNIT], gather: &mut Gather)
    requires single { SendsSingly sender.old.plan }
    requires takes { TakesBlock sender.old }
    requires known { is_reserved sender.old.plan.profile.codec (unit_type unit.now) ≡ false }
    requires room { gather.old.used + 78 ≤ gather.old.room }

    ensures sends { (own more : List ℕ) → unit.now ≡ own ++ more
        → is_unit sender.old.plan.profile.codec own ≡ true
        → SendsHeld sender.old sender.new (frame_in sender.old.plan.profile.codec own ∷ [])
        gather.old.waiting gather.new.waiting }
    ensures plan { sender.new.plan ≡ sender.old.plan }
    ensures unspent { sender.new.spent ≡ false }
    ensures blocks { sender.new.blocks ≡ sender.old.blocks + 1 }
{
    let mut packet = [0; PACKET];
    let size = sender.make_packet(unit, &mut packet);
    gather.push(&log_head(size as u16));
    gather.push_front(&packet, size);
}

/// Sends the frames that are held, where each packet carries one frame, and tells how many it sent.
/// It stops where fewer than 61 octets are held, at a reserved type, and where what waits has no
/// more room.
pub(crate) fn send_held<O: Sink>(
    sender: &mut Sender,
    reader: &mut StoreReader,
    sink: &mut GatherSink<'_, O>,
) -> u64
    requires unspent { sender.old.spent ≡ false }
    requires reading { IsReading sender.old.plan reader.old }
    requires limit { limit_of reader.old ≤ 2 ^ 40 }
    requires few { sender.old.blocks ≤ given reader.old }

    ensures { SentHeld O.Sink sender.old sender.new reader.old reader.new sink.old sink.new result }
{
    let mut count = 0;
    if !sender.sends_singly() {
        return count;
    }
    'held: loop {
        if sink.gather.free() < RECORD {
            return count;
        }
        let Some(unit) = reader.ahead() else {
            return count;
        };
        let size = unit.size;
        send_unit(sender, unit.octets, sink.gather);
        reader.pass_unit(size);
        count += 1;
    }
}
