// The packet of one frame, made straight from the frame's octets as they stand in a storage file
// (RFC 4867, 5.3), in a bandwidth-efficient payload (RFC 4867, 4.3).
ghost use Rattle.std.specs.Prelude.{◌≡◌, ◌↔◌, ◌≤◌, ◌<◌, ◌+◌, ◌*◌, ◌^◌, ℕ, IsTrue, List, [], ◌∷◌, ◌&&◌, cond, length, not, slice_index};
ghost use Rattle.amr_bits.specs.Bits.{number_at};
ghost use Rattle.amr_frame.specs.Tables.{bits_in};
ghost use Rattle.amr_sender.specs.Packets.{BeginsWith, IsPlainHeader, block_limit, packet_with};
ghost use Rattle.amr_sender.specs.Single.{HasPayload, SendsSingly};
ghost use Rattle.rtp_packet.specs.Written.{fixed_octets, octets_16, octets_32, packet_of};
ghost use Rattle.spec_sending.specs.Plans.{IsPlan};
ghost use Rattle.spec_sending.specs.Sending.{has_speech};
ghost use Rattle.spec_store.specs.StorageReading.{frame_in, unit_type};

use crate::packet::{Head, fields_of};
use amr_frame::{Codec, Kind, kind_of};
use rtp_packet::RtpFields;
use spec_sending::SendPlan;

/// The most octets of a frame in a storage file: its head, and 477 bits of AMR-WB.
pub const MOST_UNIT: usize = 61;

/// Octets that hold the longest packet of one frame.
pub const SINGLE_ROOM: usize = 76;

/// Where a payload stands in a packet: behind a header without sources and extension.
const PAYLOAD: usize = 12;

/// How many octets are made at once: as many as one instruction works on.
const BLOCK: usize = 16;

/// The most bits of a frame of AMR.
const MOST_BITS_AMR: usize = 244;

/// The bits of a frame by its type (3GPP TS 26.101 and TS 26.201), 0 where there is none.
const BITS_AMR: [u16; 16] = [
    95, 103, 118, 134, 148, 159, 204, 244, 39, 0, 0, 0, 0, 0, 0, 0,
];

const BITS_AMR_WB: [u16; 16] = [
    132, 177, 253, 285, 317, 365, 397, 461, 477, 40, 0, 0, 0, 0, 0, 0,
];

/// Whether each packet of a plan carries one frame, in a bandwidth-efficient payload, and none is
/// left out.
#[inline(always)]
pub fn is_single(plan: &SendPlan) -> bool
    ensures { IsTrue result ↔ SendsSingly plan.now }
{
    plan.blocks == 1
        && plan.length == 1
        && plan.repeat == 0
        && !plan.skip_empty
        && plan.profile.channels == 1
        && !plan.profile.octet_aligned
}

/// The type of a frame by its first octet.
#[inline(always)]
fn type_of(unit: &[u8]) -> u8
    requires { length unit.now ≡ 61 }
    ensures kind { result ≡ unit_type unit.now }
    ensures most { result ≤ 15 }
{
    unit[0] / 8 % 16
}

/// Whether a frame is one of speech.
#[inline(always)]
pub fn unit_speaks(codec: Codec, unit: &[u8]) -> bool
    requires { length unit.now ≡ 61 }
    ensures { result ≡ has_speech codec (frame_in codec unit.now ∷ []) }
{
    kind_of(codec, type_of(unit)) == Kind::Speech
}

/// The number of bits of a frame of this type, by a table.
#[inline(always)]
fn bits_by_table(codec: Codec, ft: u8) -> usize
    requires { ft ≤ 15 }
    ensures exact { result ≡ bits_in codec ft }
    ensures most { result ≤ 477 }
{
    let bits = match codec {
        Codec::Amr => BITS_AMR[usize::from(ft)],
        Codec::AmrWb => BITS_AMR_WB[usize::from(ft)],
    };
    usize::from(bits)
}

/// Whether a frame of speech, or another one, begins a talkspurt.
#[inline(always)]
pub fn begins_talkspurt(speech: bool, spoken: bool) -> bool
    ensures { result ≡ (speech && not spoken) }
{
    speech && !spoken
}

/// Octets `at` to `at + 15` of the bits from bit 6 on. They are made as a whole before any of them
/// is written, so that the compiler need not ask whether what is written lies over what is read.
#[inline(always)]
fn block_at(unit: &[u8], at: usize) -> [u8; BLOCK]
    requires { at + 16 < length unit.now }
    ensures { (k : ℕ) → k < 16
        → slice_index result k ≡ number_at unit.now (8 * (at + k) + 6) 8 }
{
    let mut made = [0; BLOCK];
    for step in 0..BLOCK {
        let place = at + step;
        made[step] = unit[place] % 4 * 64 + unit[place + 1] / 4;
    }
    made
}

/// Writes these octets behind the first octet of a payload, and leaves those before them.
#[inline(always)]
fn put_block(unit: &[u8], at: usize, out: &mut [u8])
    requires unit { length unit.now ≡ 61 }
    requires room { length out.old ≡ 76 }
    requires block { at ≤ 44 }
    ensures copied { (k : ℕ) → at ≤ k → k < at + 16
        → slice_index out.new (13 + k) ≡ number_at unit.now (8 * k + 6) 8 }
    ensures before { (k : ℕ) → k < at
        → slice_index out.new (13 + k) ≡ slice_index out.old (13 + k) }
{
    let place = PAYLOAD + 1 + at;
    out[place..place + BLOCK].copy_from_slice(&block_at(unit, at));
}

/// Writes the octets of the bits from bit 6 on behind the first octet of a payload: as many as a
/// frame of AMR needs, or as any needs.
#[inline(always)]
fn put_bits(unit: &[u8], long: bool, out: &mut [u8])
    requires unit { length unit.now ≡ 61 }
    requires room { length out.old ≡ 76 }
    ensures { (k : ℕ) → k < cond long 60 32
        → slice_index out.new (13 + k) ≡ number_at unit.now (8 * k + 6) 8 }
{
    put_block(unit, 0, out);
    put_block(unit, 16, out);
    if long {
        put_block(unit, 32, out);
        put_block(unit, 44, out);
    }
}

/// Writes the payload of a frame of so many bits, and tells how many octets it has.
#[inline(always)]
fn put_payload(plan: &SendPlan, unit: &[u8], out: &mut [u8]) -> usize
    requires plan { IsPlan plan.now }
    requires single { SendsSingly plan.now }
    requires unit { length unit.now ≡ 61 }
    requires room { length out.old ≡ 76 }
    ensures payload { HasPayload plan.now unit.now out.new result }
    ensures some { 2 ≤ result }
    ensures most { result ≤ 61 }
{
    let bits = bits_by_table(plan.profile.codec, type_of(unit));
    put_bits(unit, bits > MOST_BITS_AMR, out);
    // Of the frame's first octet the last bit of the type and Q come before the bits.
    let first = unit[0];
    out[PAYLOAD] = plan.cmr * 16 + first / 16 % 8;
    out[PAYLOAD + 1] = first / 4 % 4 * 64 + unit[1] / 4;
    // The padding bits of the payload are 0.
    let last = (bits + 1) / 8;
    let fill = 7 - ((bits + 1) % 8) as u32;
    let place = PAYLOAD + 1 + last;
    out[place] = out[place] >> fill << fill;
    last + 2
}

/// 16 bits, the most significant octet first.
#[inline(always)]
fn two_octets(n: u16) -> [u8; 2]
    ensures { result ≡ octets_16 n }
{
    n.to_be_bytes()
}

/// 32 bits, the most significant octet first.
#[inline(always)]
fn four_octets(n: u32) -> [u8; 4]
    ensures { result ≡ octets_32 n }
{
    n.to_be_bytes()
}

/// The octets of a header without sources, extension and padding (RFC 3550, 5.1).
#[inline(always)]
fn header_of(fields: &RtpFields<'_>) -> [u8; PAYLOAD]
    requires { IsPlainHeader fields.now }
    ensures { (payload : List ℕ) → result ≡ fixed_octets (packet_of fields.now payload) }
{
    let marked = if fields.marker { 128 } else { 0 };
    let mut octets = [0; PAYLOAD];
    octets[0] = 128;
    octets[1] = marked + fields.payload_type;
    octets[2..4].copy_from_slice(&two_octets(fields.sequence));
    octets[4..8].copy_from_slice(&four_octets(fields.timestamp));
    octets[8..12].copy_from_slice(&four_octets(fields.ssrc));
    octets
}

/// Writes the packet of a frame to the front of `out`, and tells how many octets it has.
#[inline(always)]
pub fn write_single(plan: &SendPlan, head: Head, unit: &[u8], out: &mut [u8]) -> usize
    requires plan { IsPlan plan.now }
    requires single { SendsSingly plan.now }
    requires first { head.first < block_limit + 2048 }
    requires unit { length unit.now ≡ 61 }
    requires room { length out.old ≡ 76 }

    ensures octets { BeginsWith out.new result
        (packet_with plan.now head (frame_in plan.now.profile.codec unit.now ∷ [])) }
    ensures some { 1 ≤ result }
    ensures most { result ≤ 76 }
{
    let size = PAYLOAD + put_payload(plan, unit, out);
    out[..PAYLOAD].copy_from_slice(&header_of(&fields_of(plan, head)));
    size
}
