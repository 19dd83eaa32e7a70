// A plain packet in place.
ghost use Rattle.std.specs.Prelude.{◌≡◌, ◌≤◌, ◌∷◌, IfSome, IsTrue, Some, [], length, take};
ghost use Rattle.amr_frame.specs.Cells.{IsCell, held};
ghost use Rattle.plain_packet.specs.Plain.{IsPlain, frame_in};

use crate::head::{is_plain, number_at_octet, type_at_octet};
use crate::load::load_frame;
use amr_frame::{Cell, Codec};

/// A plain packet at the front of octets: its fields and its frame are looked up where they stand.
///
/// What stands behind it is read too, so that the frame is loaded by whole blocks; none of it is
/// told.
#[derive(Clone, Copy, Debug)]
pub struct PlainPacket<'a> {
    codec: Codec,
    room: &'a [u8],
    len: usize,
    ghost long: { 76 ≤ length room.now },
    ghost plain: { IsPlain codec (take len room.now) },
}

impl<'a> PlainPacket<'a> {
    ghost use Rattle.plain_packet.specs.Viewed.{codec_of, heard_in, octets_of, type_of};

    /// The first `len` octets, where they are a plain packet of the codec, and at least 76 octets
    /// are held.
    #[inline(always)]
    pub fn at_front(codec: Codec, room: &'a [u8], len: usize) -> Option<PlainPacket<'a>>
        ensures octets { IfSome result (λ packet. octets_of packet ≡ take len room.now) }
        ensures codec { IfSome result (λ packet. codec_of packet ≡ codec) }
        ensures plain { IfSome result (λ packet. IsPlain codec (take len room.now)) }
    {
        if room.len() < 76 {
            return None;
        }
        if is_plain(codec, room, len) {
            return Some(PlainPacket { codec, room, len });
        }
        None
    }

    /// The payload type, from 0 to 127.
    #[inline(always)]
    pub fn payload_type(&self) -> u8
        ensures { result ≡ type_of self.now }
    {
        type_at_octet(self.room)
    }

    /// The sequence number.
    #[inline(always)]
    pub fn sequence(&self) -> u16
        ensures { result ≡ (heard_in self.now).sequence }
    {
        (number_at_octet(self.room, 0) % 65536) as u16
    }

    /// The timestamp, in ticks of the clock of the payload format.
    #[inline(always)]
    pub fn timestamp(&self) -> u32
        ensures { result ≡ (heard_in self.now).timestamp }
    {
        number_at_octet(self.room, 4)
    }

    /// The synchronization source (SSRC).
    #[inline(always)]
    pub fn ssrc(&self) -> u32
        ensures { result ≡ (heard_in self.now).ssrc }
    {
        number_at_octet(self.room, 8)
    }

    /// Its one frame.
    #[inline(always)]
    pub fn frame(&self) -> Cell
        ensures frame { held result ≡ Some (frame_in (codec_of self.now) (octets_of self.now)) }
        ensures present { IsTrue result.present }
        ensures valid { IsCell (codec_of self.now) result }
    {
        load_frame(self.codec, self.room, self.len)
    }
}
