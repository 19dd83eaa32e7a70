ghost use Rattle.std.specs.Prelude.{◌≡◌, ◌+◌, ◌*◌, ◌/◌, ◌≤◌, ◌<◌, ◌⊎◌, IfNone, cond, is_some, length, true};
ghost use Rattle.amr_bits.specs.Bits.{bits_at};
ghost use Rattle.amr_bits.specs.Runs.{run};
ghost use Rattle.amr_oa.specs.Steps.{group_refusal, header_refusal};
ghost use Rattle.amr_toc.specs.Lists.{listed, types_of};
ghost use Rattle.amr_toc.specs.Payloads.{IsAligned};
ghost use Rattle.amr_toc.specs.Told.{Accepts, Reads};
ghost use Rattle.spec_payload.specs.Reading.{need};

use amr_bits::BitSlice;
use amr_frame::Profile;
use amr_toc::{
    PayloadRefusal, PayloadView, Toc, checks_of, entries_within, header_octets,
    interleaving_number, misfit_of, octets_before, read_toc,
};

/// Reads an octet-aligned payload in place. Refuses octets by the first of P1 to P10 that holds of them.
pub fn read_oa<'a>(profile: &Profile, octets: &'a [u8]) -> Result<PayloadView<'a>, PayloadRefusal>
    requires format { IsAligned profile.now }
    ensures { Reads profile.now octets.now result }
{
    PayloadView::told(profile, octets, accept(profile, octets))
}

/// Reads the table of a payload that isn't refused.
fn accept<'a>(profile: &Profile, octets: &'a [u8]) -> Result<Toc<'a>, PayloadRefusal>
    requires format { IsAligned profile.now }
    ensures { Accepts profile.now octets.now result }
{
    if let Some(why) = header_fault(profile, octets) {
        return Err(why);
    }
    let bits = behind_header(profile, octets);
    entries_within(profile);
    let toc = match read_toc(profile, bits, 8) {
        Ok(toc) => toc,
        Err(why) => return Err(why),
    };
    if let Some(why) = group_fault(profile, octets, &toc) {
        return Err(why);
    }
    if let Some(why) = misfit_of(need_of(profile, &toc), octets.len()) {
        return Err(why);
    }
    Ok(toc)
}

/// What is wrong before the table: P1 to P3.
fn header_fault(profile: &Profile, octets: &[u8]) -> Option<PayloadRefusal>
    ensures refused { result ≡ header_refusal profile.now octets.now }
    ensures whole { IfNone result
        (cond (is_some profile.now.interleaving) 2 1 ≤ length octets.now) }
{
    if octets.is_empty() {
        return Some(PayloadRefusal::Empty);
    }
    if profile.interleaving.is_none() {
        return None;
    }
    if octets.len() < 2 {
        return Some(PayloadRefusal::HeaderShort);
    }
    let ill = interleaving_number(octets, 0);
    let ilp = interleaving_number(octets, 4);
    if ill < ilp {
        return Some(PayloadRefusal::IndexAboveLength { ill, ilp });
    }
    None
}

/// Whether the payload's interleaving group is too large: P8.
fn group_fault(profile: &Profile, octets: &[u8], toc: &Toc<'_>) -> Option<PayloadRefusal>
    requires channels { 0 < profile.now.channels }
    requires header { cond (is_some profile.now.interleaving) 2 1 ≤ length octets.now }
    ensures { result ≡ group_refusal profile.now octets.now
        (length (listed toc.now) / profile.now.channels) }
{
    let Some(most) = profile.interleaving else {
        return None;
    };
    let blocks = toc.len() / profile.channels as usize;
    let length = interleaving_number(octets, 0) as usize + 1;
    if blocks * length > most.min(1024) as usize {
        return Some(PayloadRefusal::GroupTooLarge { blocks, length });
    }
    None
}

/// The bits behind the header: all, or at least those of the greatest table. A slice may have more bits than
/// a usize counts.
fn behind_header<'a>(profile: &Profile, octets: &'a [u8]) -> BitSlice<'a>
    requires { cond (is_some profile.now.interleaving) 2 1 ≤ length octets.now }
    ensures bits { run result
        ≡ bits_at octets.now (8 * cond (is_some profile.now.interleaving) 2 1) result.len }
    ensures fits { 8 * cond (is_some profile.now.interleaving) 2 1 + result.len
        ≤ 8 * length octets.now }
    ensures enough { (8 * cond (is_some profile.now.interleaving) 2 1 + result.len
        ≡ 8 * length octets.now) ⊎ (3080 ≤ result.len) }
{
    let start = 8 * header_octets(profile);
    BitSlice {
        octets,
        start,
        len: 8 * octets.len().min(4096) - start,
    }
}

/// How many octets a payload with this table has.
fn need_of(profile: &Profile, toc: &Toc<'_>) -> usize
    requires { profile.now.octet_aligned ≡ true }
    ensures { result ≡ need profile.now (types_of (listed toc.now)) }
{
    let entries = toc.len();
    header_octets(profile)
        + entries
        + checks_of(profile, toc)
        + octets_before(profile, toc, entries)
}
