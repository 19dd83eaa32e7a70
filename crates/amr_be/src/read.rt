ghost use Rattle.std.specs.Prelude.{◌≡◌, ◌+◌, ◌*◌, ◌≤◌, ◌<◌, ◌⊎◌, length};
ghost use Rattle.amr_bits.specs.Bits.{bits_at};
ghost use Rattle.amr_bits.specs.Runs.{run};
ghost use Rattle.amr_be.specs.Needs.{need_by};
ghost use Rattle.amr_toc.specs.Lists.{listed};
ghost use Rattle.amr_toc.specs.Payloads.{IsPacked};
ghost use Rattle.amr_toc.specs.Told.{Accepts, Reads};

use amr_bits::BitSlice;
use amr_frame::Profile;
use amr_toc::{PayloadRefusal, PayloadView, Toc, bits_before, entries_within, misfit_of, read_toc};

/// Reads a bandwidth-efficient payload in place. Refuses octets by the first of P1, P4 to P7, P9 and P10
/// that holds of them; the others are of interleaved payloads.
pub fn read_be<'a>(profile: &Profile, octets: &'a [u8]) -> Result<PayloadView<'a>, PayloadRefusal>
    requires format { IsPacked profile.now }
    ensures { Reads profile.now octets.now result }
{
    PayloadView::told(profile, octets, accept(profile, octets))
}

/// Reads the table of a payload that isn't refused.
fn accept<'a>(profile: &Profile, octets: &'a [u8]) -> Result<Toc<'a>, PayloadRefusal>
    requires format { IsPacked profile.now }
    ensures { Accepts profile.now octets.now result }
{
    if octets.is_empty() {
        return Err(PayloadRefusal::Empty);
    }
    let bits = behind_header(octets);
    entries_within(profile);
    let toc = match read_toc(profile, bits, 6) {
        Ok(toc) => toc,
        Err(why) => return Err(why),
    };
    if let Some(why) = misfit_of(need_of(profile, &toc), octets.len()) {
        return Err(why);
    }
    Ok(toc)
}

/// The bits behind the codec mode request: all, or at least those of the greatest table. A slice may have
/// more bits than a usize counts.
fn behind_header<'a>(octets: &'a [u8]) -> BitSlice<'a>
    requires { 0 < length octets.now }
    ensures bits { run result ≡ bits_at octets.now 4 result.len }
    ensures fits { 4 + result.len ≤ 8 * length octets.now }
    ensures enough { (4 + result.len ≡ 8 * length octets.now) ⊎ (3080 ≤ result.len) }
{
    BitSlice {
        octets,
        start: 4,
        len: 8 * octets.len().min(4096) - 4,
    }
}

/// How many octets a payload with this table has.
fn need_of(profile: &Profile, toc: &Toc<'_>) -> usize
    ensures { result ≡ need_by profile.now.codec (listed toc.now) }
{
    let entries = toc.len();
    (4 + 6 * entries + bits_before(profile, toc, entries)).div_ceil(8)
}
