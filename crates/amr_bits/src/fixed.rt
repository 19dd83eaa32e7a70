ghost use Rattle.std.specs.Prelude.{◌≡◌, ℕ, ◌+◌, ◌*◌, ◌/◌, ◌≤◌, ◌<◌, ◌↔◌, [], length, take, false, slice_index};
ghost use Rattle.amr_bits.specs.Bits.{bit_at};

use crate::copying::{are_octets, octets_needed};
use crate::slice::BitSlice;

/// Up to `8 * N` bits, kept by value; the bits of the octets past `len` are 0.
#[derive(Clone, Copy, Debug, PartialEq, Eq)]
pub struct FixedBits<const N: usize> {
    pub octets: [u8; N],
    pub len: usize,
    ghost within: { len ≤ 8 * N },
    ghost clear: { (k : ℕ) → len ≤ k → bit_at octets k ≡ false },
}

impl<const N: usize> FixedBits<N> {
    ghost use Rattle.amr_bits.specs.Bits.{filled, octets_for};
    ghost use Rattle.amr_bits.specs.Runs.{run, kept};

    /// No bits.
    pub fn empty() -> FixedBits<N>
        ensures bits { kept result ≡ [] }
        ensures len { result.len ≡ 0 }
    {
        FixedBits {
            octets: [0; N],
            len: 0,
        }
    }

    /// The bits of a run, at most `8 * N`.
    #[inline(always)]
    pub fn load(bits: BitSlice<'_>) -> FixedBits<N>
        requires { bits.len ≤ 8 * N }
        ensures bits { kept result ≡ run bits.entry }
        ensures len { result.len ≡ bits.entry.len }
    {
        let mut octets = [0; N];
        bits.copy_to(&mut octets[..octets_needed(bits.len)]);
        FixedBits {
            octets,
            len: bits.len,
        }
    }

    /// How many bits are kept.
    pub fn len(&self) -> usize
        ensures field { result ≡ self.now.len }
        ensures bits { length (kept self.now) ≡ result }
        ensures within { result ≤ 8 * N }
    {
        self.len
    }

    /// Octet `at` of the bits, filled with zero bits.
    pub fn octet(&self, at: usize) -> u8
        requires { at < N }
        ensures field { result ≡ slice_index self.now.octets at }
        ensures bits { result ≡ slice_index (filled (kept self.now)) at }
    {
        are_octets(&self.octets);
        self.octets[at]
    }

    /// The octets of the bits, filled with zero bits, lent.
    pub fn as_octets(&self) -> &[u8]
        ensures bits { result.now ≡ filled (kept self.now) }
        ensures field { result.now ≡ take (octets_for self.now.len) self.now.octets }
        ensures count { length result.now ≡ octets_for self.now.len }
    {
        are_octets(&self.octets);
        &self.octets[..octets_needed(self.len)]
    }

    /// The bits, lent.
    pub fn as_bits(&self) -> BitSlice<'_>
        ensures bits { run result ≡ kept self.now }
        ensures octets { result.octets.now ≡ self.now.octets }
        ensures start { result.start ≡ 0 }
        ensures len { result.len ≡ self.now.len }
    {
        BitSlice {
            octets: &self.octets,
            start: 0,
            len: self.len,
        }
    }

    /// Two values are equal exactly where they keep the same bits. Says so, and does nothing.
    pub fn equal_by_bits(&self, other: &FixedBits<N>)
        ensures { (self.now ≡ other.now) ↔ (kept self.now ≡ kept other.now) }
    {
        // Reading the octets tells the proof that they are N, each below 256.
        octets_by_bits(&self.octets, &other.octets);
    }
}

/// Octets are equal where their bits are. Says so, and does nothing.
fn octets_by_bits(octets: &[u8], others: &[u8])
    ensures { length octets.now ≡ length others.now
        → ((k : ℕ) → bit_at octets.now k ≡ bit_at others.now k)
        → octets.now ≡ others.now }
{}
