//! What stands before the table of an octet-aligned payload (RFC 4867, 4.4.1).
ghost use Rattle.std.specs.Prelude.{◌≡◌, ◌+◌, ◌≤◌, cond, is_some, length};
ghost use Rattle.amr_bits.specs.Bits.{number_at};

use amr_bits::BitSlice;
use amr_frame::Profile;

/// How many octets stand before the table: two where the format interleaves, else one.
pub fn header_octets(profile: &Profile) -> usize
    ensures octets { result ≡ cond (is_some profile.now.interleaving) 2 1 }
    ensures most { result ≤ 2 }
{
    if profile.interleaving.is_some() { 2 } else { 1 }
}

/// The number in the interleaving octet, the second one, from its bit `at` on: ILL from bit 0, ILP from
/// bit 4.
pub fn interleaving_number(octets: &[u8], at: usize) -> u8
    requires octets { 2 ≤ length octets.now }
    requires at { at ≤ 4 }
    ensures bits { result ≡ number_at octets.now (8 + at) 4 }
    ensures few { result ≤ 15 }
{
    let bits = BitSlice {
        octets,
        start: 8,
        len: 8,
    };
    bits.number(at, 4) as u8
}
