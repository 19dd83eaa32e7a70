// What stands before the frame of a plain packet.
ghost use Rattle.std.specs.Prelude.{◌≡◌, ◌+◌, ◌*◌, ◌≤◌, IsTrue, length, take};
ghost use Rattle.amr_bits.specs.Bits.{number_at};
ghost use Rattle.plain_packet.specs.Plain.{IsPlain, quality_in, type_in};

use crate::shape::bits_by_type;
use amr_frame::Codec;

/// The type of the first entry.
#[inline(always)]
pub(crate) fn entry_type(room: &[u8]) -> u8
    requires { 76 ≤ length room.now }
    ensures exact { result ≡ type_in room.now }
    ensures most { result ≤ 15 }
{
    room[12] % 8 * 2 + room[13] / 128
}

/// The quality bit of the first entry.
#[inline(always)]
pub(crate) fn entry_quality(room: &[u8]) -> bool
    requires { 76 ≤ length room.now }
    ensures { result ≡ quality_in room.now }
{
    room[13] / 64 % 2 == 1
}

/// The payload type, in the second octet.
#[inline(always)]
pub(crate) fn type_at_octet(room: &[u8]) -> u8
    requires { 2 ≤ length room.now }
    ensures { result ≡ number_at room.now 9 7 }
{
    room[1] % 128
}

/// The 32 bits of the four octets from `at` on.
#[inline(always)]
pub(crate) fn number_at_octet(room: &[u8], at: usize) -> u32
    requires { at + 4 ≤ length room.now }
    ensures { result ≡ number_at room.now (8 * at) 32 }
{
    let high = 256 * room[at] as u32 + room[at + 1] as u32;
    let low = 256 * room[at + 2] as u32 + room[at + 3] as u32;
    65536 * high + low
}

/// Whether the first `len` octets are a plain packet.
#[inline(always)]
pub(crate) fn is_plain(codec: Codec, room: &[u8], len: usize) -> bool
    requires { 76 ≤ length room.now }
    ensures plain { IsTrue result → IsPlain codec (take len room.now) }
    ensures most { IsTrue result → len ≤ 74 }
{
    if room[0] != 128 || room[12] / 8 % 2 != 0 {
        return false;
    }
    let bits = bits_by_type(codec, entry_type(room));
    if bits == 0 {
        return false;
    }
    len == 12 + (bits + 17) / 8
}
