ghost use Rattle.std.specs.Prelude.{◌≡◌, ◌≢◌, ◌≤◌, ◌<◌, ◌*◌, ◌+◌, ◌⊎◌, ℕ, length, IfErr, IfNone, IfOk, None, Some};
ghost use Rattle.amr_bits.specs.Runs.{run};
ghost use Rattle.amr_frame.specs.Profiles.{IsValid};
ghost use Rattle.amr_toc.specs.Lists.{listed};
ghost use Rattle.amr_toc.specs.Table.{fault_of, last_of, table_of, table_refusal};
ghost use Rattle.amr_toc.specs.Widths.{HoldTable, IsPlaced, IsWide};

use crate::entry::Toc;
use amr_bits::BitSlice;
use amr_frame::{Kind, Profile, kind_of};
use spec_payload::PayloadRefusal;

/// Reads a table of contents from the front of the bits, entries of 6 bits (RFC 4867, 4.3.2) or 8 bits
/// (4.4.2). The bits behind the table aren't looked at. Refuses a table that isn't ended (P4), that has
/// a reserved type (P5), too many entries (P6), or entries that aren't whole blocks (P7): the first that
/// holds, by the first entry at which one of P4 to P6 does.
#[inline(always)]
pub fn read_toc<'a>(
    profile: &Profile,
    bits: BitSlice<'a>,
    width: u32,
) -> Result<Toc<'a>, PayloadRefusal>
    requires valid { IsValid profile.now }
    requires width { (width ≡ 6) ⊎ (width ≡ 8) }

    ensures table { IfOk result (λ toc. listed toc ≡ table_of profile.now width (run bits.entry)) }
    ensures accepted { IfOk result
        (λ toc. table_refusal profile.now width (run bits.entry) ≡ None) }

    ensures refused { IfErr result
        (λ why. table_refusal profile.now width (run bits.entry) ≡ Some why) }
{
    entries_within(profile);
    let width = width as usize;
    let entries = match count_entries(profile, bits, width) {
        Ok(entries) => entries,
        Err(why) => return Err(why),
    };
    if entries % profile.channels as usize != 0 {
        return Err(PayloadRefusal::ChannelRest { entries });
    }
    Ok(Toc::over(bits, width, entries))
}

/// How many entries there are up to the first that has F = 0.
#[inline(always)]
fn count_entries(
    profile: &Profile,
    bits: BitSlice<'_>,
    width: usize,
) -> Result<usize, PayloadRefusal>
    requires most { profile.now.max_blocks * profile.now.channels ≤ 384 }
    requires wide { IsWide width }

    ensures count { IfOk result (λ n. n ≡ last_of profile.now width (run bits.entry) + 1) }
    ensures table { IfOk result (λ n. HoldTable bits.entry.len width n) }
    ensures accepted { IfOk result (λ n. fault_of profile.now width (run bits.entry)
        (last_of profile.now width (run bits.entry)) ≡ None) }

    ensures refused { IfErr result (λ why. fault_of profile.now width (run bits.entry)
        (last_of profile.now width (run bits.entry)) ≡ Some why) }
{
    let most = profile.max_blocks as usize * profile.channels as usize;
    for at in 0..most + 1 {
        if let Some(why) = fault_at(profile, bits, width, at) {
            return Err(why);
        }
        if !bits.bit(at * width) {
            return Ok(at + 1);
        }
    }
    unreachable!()
}

/// What is wrong at entry `at`.
fn fault_at(
    profile: &Profile,
    bits: BitSlice<'_>,
    width: usize,
    at: usize,
) -> Option<PayloadRefusal>
    requires { IsPlaced width at }
    ensures fault { result ≡ fault_of profile.now width (run bits.entry) at }
    ensures whole { IfNone result ((at + 1) * width ≤ bits.entry.len) }
    ensures few { IfNone result (at ≢ profile.now.max_blocks * profile.now.channels) }
{
    if bits.len() < (at + 1) * width {
        return Some(PayloadRefusal::TocUnended { entries: at });
    }
    let ft = bits.number(at * width + 1, 4) as u8;
    if kind_of(profile.codec, ft) == Kind::Reserved {
        return Some(PayloadRefusal::ReservedType { entry: at, ft });
    }
    if at == profile.max_blocks as usize * profile.channels as usize {
        return Some(PayloadRefusal::TooManyBlocks);
    }
    None
}

/// A valid format has at least one channel, and at most 384 entries in a table. Says so, and does nothing.
pub fn entries_within(profile: &Profile)
    requires { IsValid profile.now }
    ensures channels { 0 < profile.now.channels }
    ensures most { profile.now.max_blocks * profile.now.channels ≤ 384 }
{}
