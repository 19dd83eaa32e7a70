//! How much of a payload its table of contents asks for, in bits and octets.
ghost use Rattle.std.specs.Prelude.{◌≡◌, ◌*◌, ◌≤◌, filter, length, nat_lt, take};
ghost use Rattle.amr_frame.specs.Tables.{bits_in};
ghost use Rattle.amr_toc.specs.Fitting.{misfit};
ghost use Rattle.amr_toc.specs.Lists.{listed, types_of};
ghost use Rattle.amr_toc.specs.Places.{bits_ahead, octets_ahead, sizes_in};
ghost use Rattle.spec_payload.specs.Reading.{checks_count};

use crate::entry::Toc;
use amr_frame::{Profile, bits_of, octets_of};
use spec_payload::PayloadRefusal;

/// The number of bits of the frames before frame `at`.
#[inline(always)]
pub fn bits_before(profile: &Profile, toc: &Toc<'_>, at: usize) -> usize
    requires { at ≤ length (listed toc.now) }
    ensures bits { result ≡ bits_ahead profile.now (types_of (listed toc.now)) at }
    ensures most { result ≤ 477 * at }
{
    let mut bits = 0;
    for k in 0..at {
        bits += bits_of(profile.codec, toc.entry(k).ft);
    }
    bits
}

/// The number of octets that hold the frames before frame `at`, each filled up to a whole octet.
pub fn octets_before(profile: &Profile, toc: &Toc<'_>, at: usize) -> usize
    requires { at ≤ length (listed toc.now) }
    ensures octets { result ≡ octets_ahead profile.now (types_of (listed toc.now)) at }
    ensures most { result ≤ 60 * at }
{
    let mut octets = 0;
    for k in 0..at {
        octets += octets_of(profile.codec, toc.entry(k).ft);
    }
    octets
}

/// How many of the frames before frame `at` have bits.
pub(crate) fn filled_before(profile: &Profile, toc: &Toc<'_>, at: usize) -> usize
    requires { at ≤ length (listed toc.now) }
    ensures count { result
        ≡ length (filter (λ ft. nat_lt 0 (bits_in profile.now.codec ft))
        (take at (types_of (listed toc.now)))) }
    ensures most { result ≤ at }
{
    let mut frames = 0;
    for k in 0..at {
        if bits_of(profile.codec, toc.entry(k).ft) > 0 {
            frames += 1;
        }
    }
    frames
}

/// How many CRCs stand behind the table.
pub fn checks_of(profile: &Profile, toc: &Toc<'_>) -> usize
    ensures count { result ≡ checks_count profile.now (types_of (listed toc.now)) }
    ensures most { result ≤ 384 }
{
    if !profile.crc {
        return 0;
    }
    filled_before(profile, toc, toc.len())
}

/// The number of octets of each frame, in the order of the table; zeros behind them.
pub(crate) fn octet_counts(profile: &Profile, toc: &Toc<'_>) -> [u8; 384]
    ensures { take (length (listed toc.now)) result
        ≡ sizes_in profile.now (types_of (listed toc.now)) }
{
    let mut counts = [0; 384];
    for at in 0..toc.len() {
        counts[at] = octets_of(profile.codec, toc.entry(at).ft) as u8;
    }
    counts
}

/// Why so many octets don't fit a table that needs so many, where they are too few or too many.
pub fn misfit_of(need: usize, have: usize) -> Option<PayloadRefusal>
    ensures { result ≡ misfit need have }
{
    if have < need {
        return Some(PayloadRefusal::BodyShort { need, have });
    }
    if need < have {
        return Some(PayloadRefusal::BodyLong { need, have });
    }
    None
}
