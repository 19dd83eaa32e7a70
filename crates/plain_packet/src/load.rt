// The frame of a plain packet, loaded from where it stands (RFC 4867, 4.3): behind the ten bits of
// the codec mode request and the one entry.
ghost use Rattle.std.specs.Prelude.{◌≡◌, ℕ, ◌+◌, ◌*◌, ◌-◌, ◌≤◌, ◌<◌, IsTrue, Some, cond, length, nat_lt, slice_index, take};
ghost use Rattle.amr_bits.specs.Bits.{bits_at, number_at};
ghost use Rattle.amr_bits.specs.Runs.{kept};
ghost use Rattle.amr_frame.specs.Cells.{IsCell, held};
ghost use Rattle.plain_packet.specs.Plain.{IsPlain, frame_in, octet_in};

use crate::head::{entry_quality, entry_type};
use crate::shape::bits_by_type;
use amr_bits::FixedBits;
use amr_frame::{Cell, Codec};

/// How many octets are made at once: as many as one instruction works on.
const BLOCK: usize = 16;

/// The most octets of a frame.
const MOST: usize = 60;

/// As many ones as a frame has octets, and then as many zeros: from place 60 - n on, n octets are
/// kept and the others are not.
const MASK: [u8; 120] = [
    255, 255, 255, 255, 255, 255, 255, 255, 255, 255, 255, 255, 255, 255, 255, 255, 255, 255, 255,
    255, 255, 255, 255, 255, 255, 255, 255, 255, 255, 255, 255, 255, 255, 255, 255, 255, 255, 255,
    255, 255, 255, 255, 255, 255, 255, 255, 255, 255, 255, 255, 255, 255, 255, 255, 255, 255, 255,
    255, 255, 255, 0, 0, 0, 0, 0, 0, 0, 0, 0, 0, 0, 0, 0, 0, 0, 0, 0, 0, 0, 0, 0, 0, 0, 0, 0, 0, 0,
    0, 0, 0, 0, 0, 0, 0, 0, 0, 0, 0, 0, 0, 0, 0, 0, 0, 0, 0, 0, 0, 0, 0, 0, 0, 0, 0, 0, 0, 0, 0, 0,
    0,
];

/// Octet `at` of the mask of `full` octets.
#[inline(always)]
fn mask_at(full: usize, at: usize) -> u8
    requires full { full ≤ 60 }
    requires at { at < 60 }
    ensures { result ≡ cond (nat_lt at full) 255 0 }
{
    MASK[MOST - full + at]
}

/// Octet `at` of the frame.
#[inline(always)]
fn octet_at(payload: &[u8], at: usize) -> u8
    requires { at + 2 < length payload.now }
    ensures { result ≡ octet_in payload.now at }
{
    payload[at + 1] % 64 * 4 + payload[at + 2] / 64
}

/// Sixteen octets of a frame from octet `at` on, of which those past the first `full` are 0. They
/// are made as a whole before any of them is written.
#[inline(always)]
fn block_at(payload: &[u8], full: usize, at: usize) -> [u8; BLOCK]
    requires payload { 64 ≤ length payload.now }
    requires full { full ≤ 60 }
    requires at { at ≤ 44 }
    ensures { (k : ℕ) → k < 16 → slice_index result k
        ≡ cond (nat_lt (at + k) full) (octet_in payload.now (at + k)) 0 }
{
    let mut made = [0; BLOCK];
    for step in 0..BLOCK {
        let place = at + step;
        made[step] = octet_at(payload, place).min(mask_at(full, place));
    }
    made
}

/// Writes these octets, and leaves the others.
#[inline(always)]
fn put_block(payload: &[u8], full: usize, at: usize, out: &mut [u8])
    requires payload { 64 ≤ length payload.now }
    requires full { full ≤ 60 }
    requires at { at ≤ 44 }
    requires out { length out.old ≡ 60 }
    ensures made { (k : ℕ) → at ≤ k → k < at + 16 → slice_index out.new k
        ≡ cond (nat_lt k full) (octet_in payload.now k) 0 }
    ensures before { (k : ℕ) → k < at → slice_index out.new k ≡ slice_index out.old k }
    ensures behind { (k : ℕ) → at + 16 ≤ k → slice_index out.new k ≡ slice_index out.old k }
{
    out[at..at + BLOCK].copy_from_slice(&block_at(payload, full, at));
}

/// Writes the first `full` octets of a frame, with zeros behind them.
#[inline(always)]
fn put_full(payload: &[u8], full: usize, out: &mut [u8])
    requires payload { 64 ≤ length payload.now }
    requires full { full ≤ 60 }
    requires out { length out.old ≡ 60 }
    requires zeros { (k : ℕ) → slice_index out.old k ≡ 0 }
    ensures { (k : ℕ) → k < 60 → slice_index out.new k
        ≡ cond (nat_lt k full) (octet_in payload.now k) 0 }
{
    put_block(payload, full, 0, out);
    put_block(payload, full, 16, out);
    if full > 32 {
        put_block(payload, full, 32, out);
        put_block(payload, full, 44, out);
    }
}

/// The `bits` bits of a frame.
#[inline(always)]
fn load_bits(payload: &[u8], bits: usize) -> FixedBits<60>
    requires payload { 64 ≤ length payload.now }
    requires some { 0 < bits }
    requires most { bits ≤ 477 }
    ensures bits { kept result ≡ bits_at payload.now 10 bits }
    ensures len { result.len ≡ bits }
{
    let last = (bits - 1) / 8;
    let fill = 7 - ((bits - 1) % 8) as u32;
    let mut octets = [0; MOST];
    put_full(payload, last, &mut octets);
    octets[last] = octet_at(payload, last) >> fill << fill;
    FixedBits { octets, len: bits }
}

/// The frame of the plain packet of the first `len` octets.
#[inline(always)]
pub(crate) fn load_frame(codec: Codec, room: &[u8], len: usize) -> Cell
    requires room { 76 ≤ length room.now }
    requires plain { IsPlain codec (take len room.now) }
    ensures frame { held result ≡ Some (frame_in codec (take len room.now)) }
    ensures present { IsTrue result.present }
    ensures valid { IsCell codec result }
{
    let ft = entry_type(room);
    Cell {
        ft,
        q: entry_quality(room),
        present: true,
        bits: load_bits(&room[12..], bits_by_type(codec, ft)),
    }
}
