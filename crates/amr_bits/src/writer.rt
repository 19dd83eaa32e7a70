ghost use Rattle.std.specs.Prelude.{◌≡◌, ℕ, ◌+◌, ◌-◌, ◌*◌, ◌/◌, ◌%◌, ◌^◌, ◌≤◌, ◌<◌, ◌++◌, false, length, drop, take, replicate};
ghost use Rattle.amr_bits.specs.Bits.{filled, nat, octets_for};
ghost use Rattle.amr_bits.specs.Runs.{run};
ghost use Rattle.amr_bits.specs.Written.{front};

use crate::copying::{are_octets, octets_needed};
use crate::slice::BitSlice;

/// The place in octets up to which bits are written. The octets are passed beside it at each call.
#[derive(Clone, Copy, Debug, PartialEq, Eq)]
pub struct BitWriter {
    pub written: usize,
}

impl BitWriter {
    /// Nothing is written yet.
    pub fn new() -> BitWriter
        ensures { result.written ≡ 0 }
    {
        BitWriter { written: 0 }
    }

    /// How many bits are written.
    pub fn written(&self) -> usize
        ensures { result ≡ self.now.written }
    {
        self.written
    }

    /// Writes the `width` bits of a number behind those written, the most significant first. The
    /// other bits of a begun octet become 0.
    pub fn put(&mut self, out: &mut [u8], value: u32, width: u32)
        requires width { width ≤ 32 }
        requires value { value < 2 ^ width }
        requires fits { self.old.written + width ≤ 8 * length out.old }
        requires counts { self.old.written + width < 2 ^ 64 }
        ensures written { self.new.written ≡ self.old.written + width }
        ensures bits { front out.new self.new.written
            ≡ front out.old self.old.written ++ nat width value }
        ensures filled { take (octets_for self.new.written) out.new
            ≡ filled (front out.new self.new.written) }
        ensures later { drop (octets_for self.new.written) out.new
            ≡ drop (octets_for self.new.written) out.old }
    {
        let octets = value.to_be_bytes();
        let bits = BitSlice {
            octets: &octets,
            start: 32 - width as usize,
            len: width as usize,
        };
        self.put_bits(out, bits);
    }

    /// Writes a run of bits behind those written. The other bits of a begun octet become 0.
    pub fn put_bits(&mut self, out: &mut [u8], bits: BitSlice<'_>)
        requires fits { self.old.written + bits.len ≤ 8 * length out.old }
        requires counts { self.old.written + bits.len < 2 ^ 64 }
        ensures written { self.new.written ≡ self.old.written + bits.entry.len }
        ensures bits { front out.new self.new.written
            ≡ front out.old self.old.written ++ run bits.entry }
        ensures filled { take (octets_for self.new.written) out.new
            ≡ filled (front out.new self.new.written) }
        ensures later { drop (octets_for self.new.written) out.new
            ≡ drop (octets_for self.new.written) out.old }
    {
        write_at(out, self.written, bits);
        self.written += bits.len;
    }

    /// Writes zero bits up to a whole octet.
    pub fn fill_octet(&mut self, out: &mut [u8])
        requires fits { self.old.written ≤ 8 * length out.old }
        requires counts { 8 * octets_for self.old.written < 2 ^ 64 }
        ensures written { self.new.written ≡ 8 * octets_for self.old.written }
        ensures bits { front out.new self.new.written ≡ front out.old self.old.written
            ++ replicate (self.new.written - self.old.written) false }
        ensures filled { take (octets_for self.new.written) out.new
            ≡ filled (front out.new self.new.written) }
        ensures later { drop (octets_for self.new.written) out.new
            ≡ drop (octets_for self.new.written) out.old }
    {
        let none = BitSlice {
            octets: &[],
            start: 0,
            len: 0,
        };
        write_at(out, self.written, none);
        self.written = 8 * octets_needed(self.written);
    }
}

/// Writes a run of bits at bit `written`, and zeros up to a whole octet.
fn write_at(out: &mut [u8], written: usize, bits: BitSlice<'_>)
    requires { written + bits.len ≤ 8 * length out.old }
    ensures { out.new ≡ filled (front out.old written ++ run bits.entry)
        ++ drop (octets_for (written + bits.entry.len)) out.old }
{
    are_octets(out);
    let at = written / 8;
    let begun = written % 8;
    if begun == 0 {
        write_octets(out, at, bits);
        return;
    }
    let room = 8 - begun;
    let count = bits.len.min(room);
    out[at] = joined(
        out[at],
        begun as u32,
        bits.number(0, count as u32) as u8,
        count as u32,
    );
    write_octets(out, at + 1, bits.part(count, bits.len - count));
}

/// Writes a run of bits at octet `at`, and zeros up to a whole octet.
fn write_octets(out: &mut [u8], at: usize, bits: BitSlice<'_>)
    requires at { at ≤ length out.old }
    requires fits { 8 * at + bits.len ≤ 8 * length out.old }
    ensures { out.new ≡ take at out.old ++ filled (run bits.entry)
        ++ drop (at + octets_for bits.entry.len) out.old }
{
    bits.copy_to(&mut out[at..at + octets_needed(bits.len)]);
}

/// The octet of which `begun` bits are kept, `width` bits follow, and the others are 0.
fn joined(octet: u8, begun: u32, value: u8, width: u32) -> u8
    requires fits { begun + width ≤ 8 }
    requires begun { 0 < begun }
    requires value { value < 2 ^ width }
    ensures { result ≡ octet / 2 ^ (8 - begun) * 2 ^ (8 - begun) + value * 2 ^ (8 - begun - width) }
{
    let room = 8 - begun;
    octet >> room << room | value << (room - width)
}
