ghost use Rattle.std.specs.Prelude.{◌≡◌, ℕ, ◌+◌, ◌*◌, ◌/◌, ◌%◌, ◌^◌, ◌-◌, ◌≤◌, ◌<◌, ◌↔◌, length, drop, false, IsNone, IfSome, slice_index_or};

use crate::copying::{copy_octets, few_from, number_from};

/// A run of bits in borrowed octets: `len` bits from bit `start` on, where bit 0 is the most
/// significant bit of the first octet.
#[derive(Clone, Copy, Debug)]
pub struct BitSlice<'a> {
    pub octets: &'a [u8],
    pub start: usize,
    pub len: usize,
    ghost within: { start + len ≤ 8 * length octets.now },
}

impl<'a> BitSlice<'a> {
    ghost use Rattle.amr_bits.specs.Bits.{bit_at, bits_of, filled, number, octets_for, part};
    ghost use Rattle.amr_bits.specs.Runs.{run};

    /// The `len` bits of the octets from bit `start` on; `None` where they are not all there.
    pub fn of(octets: &'a [u8], start: usize, len: usize) -> Option<BitSlice<'a>>
        ensures none { IsNone result ↔ (8 * length octets.now < start + len) }
        ensures fields { IfSome result
            (λ s. (s.octets.now ≡ octets.now) × (s.start ≡ start) × (s.len ≡ len)) }
        ensures bits { IfSome result (λ s. run s ≡ part start len (bits_of octets.now)) }
    {
        // The number of bits of a slice can pass usize.
        if start as u128 + len as u128 <= octets.len() as u128 * 8 {
            Some(BitSlice { octets, start, len })
        } else {
            None
        }
    }

    /// How many bits the run has.
    pub fn len(&self) -> usize
        ensures field { result ≡ self.now.len }
        ensures bits { length (run self.now) ≡ result }
    {
        self.len
    }

    /// Bit `at` of the run, counted from 0.
    pub fn bit(&self, at: usize) -> bool
        requires { at < self.now.len }
        ensures place { result ≡ bit_at self.now.octets.now (self.now.start + at) }
        ensures bits { slice_index_or (run self.now) at false ≡ result }
    {
        let place = self.start % 8 + at % 8;
        let octet = self.octets[self.start / 8 + at / 8 + place / 8];
        octet >> (7 - place % 8) as u32 & 1 == 1
    }

    /// The `len` bits of the run from its bit `from` on. It lends the same octets, from that on in
    /// which the part begins or the one before it.
    pub fn part(&self, from: usize, len: usize) -> BitSlice<'a>
        requires { from + len ≤ self.now.len }
        ensures bits { run result ≡ part from len (run self.now) }
        ensures len { result.len ≡ len }
        ensures start { result.start ≡ self.now.start % 8 + from % 8 }
        ensures lent { result.octets.now
            ≡ drop (self.now.start / 8 + from / 8) self.now.octets.now }
    {
        BitSlice {
            octets: &self.octets[self.start / 8 + from / 8..],
            start: self.start % 8 + from % 8,
            len,
        }
    }

    /// The number that `width` bits of the run from its bit `from` on spell, the first being the
    /// most significant.
    pub fn number(&self, from: usize, width: u32) -> u32
        requires width { width ≤ 32 }
        requires fits { from + width ≤ self.now.len }
        ensures bits { result ≡ number (part from width (run self.now)) }
        ensures below { result < 2 ^ width }
    {
        let place = self.start % 8 + from % 8;
        number_from(
            &self.octets[self.start / 8 + from / 8 + place / 8..],
            place % 8,
            width as usize,
        )
    }

    /// Copies the run to the front of `out`, which has just the octets needed; the bits of the last
    /// octet behind the run become 0.
    pub fn copy_to(&self, out: &mut [u8])
        requires { length out.old ≡ octets_for self.now.len }
        ensures { out.new ≡ filled (run self.now) }
    {
        let octets = &self.octets[self.start / 8..];
        let start = self.start % 8;
        let whole = self.len / 8;
        copy_octets(octets, start, &mut out[..whole]);
        let rest = self.len % 8;
        if rest > 0 {
            let last = few_from(&octets[whole..], start, rest) as u8;
            out[whole] = last << (8 - rest) as u32;
        }
    }
}
