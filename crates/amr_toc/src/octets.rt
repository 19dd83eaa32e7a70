ghost use Rattle.std.specs.Prelude.{◌≡◌, ◌<◌, slice_index};
ghost use Rattle.amr_bits.specs.Bits.{AreOctets, filled, octets_for};
ghost use Rattle.amr_bits.specs.Runs.{run};

use amr_bits::BitSlice;

/// Octet `octet` of a run of bits, the last being filled with zero bits.
pub(crate) fn octet_in(bits: BitSlice<'_>, octet: usize) -> u8
    requires { octet < octets_for bits.len }
    ensures { result ≡ slice_index (filled (run bits.entry)) octet }
{
    let mut out = [0; 1];
    let count = (bits.len() - 8 * octet).min(8);
    bits.part(8 * octet, count).copy_to(&mut out);
    out[0]
}

/// Each octet is below 256. Says so, and does nothing.
pub fn are_octets(octets: &[u8])
    ensures { AreOctets octets.now }
{}
