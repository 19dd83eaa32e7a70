//! Where a bandwidth-efficient payload differs from the canonical one of its value: in the pad bits of its last octet
//! alone (RFC 4867, 4.3).
ghost use Rattle.std.specs.Prelude.{◌≡◌, ◌+◌, ◌*◌, ◌≤◌, length, slice_index};
ghost use Rattle.amr_bits.specs.Bits.{bits_at, filled};
ghost use Rattle.amr_be.specs.Parts.{body_part};
ghost use Rattle.amr_payload.specs.Comparing.{IsPackedView};
ghost use Rattle.amr_toc.specs.Viewed.{octets_of, said};
ghost use Rattle.spec_payload.specs.Grammar.{text};
ghost use Rattle.spec_payload.specs.Strict.{first_difference};

use amr_bits::BitSlice;
use amr_frame::{Profile, bits_of};
use amr_toc::{PayloadView, are_octets};

/// The last octet of a payload, where its pad bits aren't 0.
pub(crate) fn pad_difference(profile: &Profile, view: &PayloadView<'_>) -> Option<usize>
    requires { IsPackedView profile.now view.now }
    ensures { result ≡ first_difference (octets_of view.now) (text profile.now (said view.now)) }
{
    let octets = view.octets();
    are_octets(octets);
    let bits = 4 + 6 * view.frames() + body_bits(profile, view);
    let last = (bits - 1) / 8;
    if octets[last] == last_octet(octets, last, bits - 8 * last) {
        None
    } else {
        Some(last)
    }
}

/// The bits of octets that begin at octet `at`, so many, and zeros behind them.
fn last_octet(octets: &[u8], at: usize, count: usize) -> u8
    requires some { 1 ≤ count }
    requires most { count ≤ 8 }
    requires fits { 8 * at + count ≤ 8 * length octets.now }
    requires place { at ≤ 100000 }
    ensures { result ≡ slice_index (filled (bits_at octets.now (8 * at) count)) 0 }
{
    let lent = BitSlice {
        octets,
        start: 8 * at,
        len: count,
    };
    let mut out = [0; 1];
    lent.copy_to(&mut out);
    out[0]
}

/// How many bits the frames have.
fn body_bits(profile: &Profile, view: &PayloadView<'_>) -> usize
    requires { IsPackedView profile.now view.now }
    ensures bits { result ≡ length (body_part (said view.now).frames) }
    ensures most { result ≤ 477 * length (said view.now).frames }
{
    let mut bits = 0;
    for at in 0..view.frames() {
        bits += bits_of(profile.codec, view.entry(at).ft);
    }
    bits
}
