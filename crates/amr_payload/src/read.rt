ghost use Rattle.std.specs.Prelude.{◌≡◌, ◌↔◌, IfErr, IfOk, Ok, true};
ghost use Rattle.amr_bits.specs.Bits.{AreOctets};
ghost use Rattle.amr_frame.specs.Profiles.{IsValid};
ghost use Rattle.amr_payload.specs.Taken.{IsInFormat, IsRefusedIn, IsTaken, Takes};
ghost use Rattle.amr_toc.specs.Told.{Reads, read_of};
ghost use Rattle.amr_toc.specs.Viewed.{format_of, octets_of, viewed};
ghost use Rattle.spec_payload.specs.Grammar.{text};
ghost use Rattle.spec_payload.specs.Values.{Value};

use crate::strict::strict_refusal;
use amr_be::read_be;
use amr_frame::Profile;
use amr_oa::read_oa;
use amr_toc::{PayloadRefusal, PayloadView, are_octets};

/// Reads a payload of the format in place: exactly where the grammar has the octets (RFC 4867, 4.3 and 4.4),
/// and in a strict format they are the canonical payload of their value, with its request and the modes of its
/// speech among the format's. The view shows their value, of which there is one. Refuses octets by the first of
/// P1 to P13 that holds of them; P2, P3 and P8 hold only of interleaved payloads, P11 to P13 only in a strict format.
pub fn read_payload<'a>(
    profile: &Profile,
    octets: &'a [u8],
) -> Result<PayloadView<'a>, PayloadRefusal>
    requires { IsValid profile.now }

    ensures value { IfOk result (λ view. IsTaken profile.now octets.now (viewed view)) }
    ensures format { IfOk result (λ view. format_of view ≡ profile.now) }
    ensures octets { IfOk result (λ view. octets_of view ≡ octets.now) }
    ensures grammar { (v : Value) → (read_of result ≡ Ok v) ↔ IsInFormat profile.now v octets.now }
    ensures canonical { profile.now.strict ≡ true
        → IfOk result (λ view. octets.now ≡ text profile.now (viewed view)) }

    ensures refused { IfErr result (λ why. IsRefusedIn profile.now octets.now why) }
{
    are_octets(octets);
    match read_by_grammar(profile, octets) {
        Ok(view) => take(profile, octets, view),
        Err(why) => Err(why),
    }
}

/// Reads a payload of the format by the rules that each format has, P1 to P10.
fn read_by_grammar<'a>(
    profile: &Profile,
    octets: &'a [u8],
) -> Result<PayloadView<'a>, PayloadRefusal>
    requires { IsValid profile.now }
    ensures { Reads profile.now octets.now result }
{
    if profile.octet_aligned {
        read_oa(profile, octets)
    } else {
        read_be(profile, octets)
    }
}

/// Tells of a payload that those rules don't refuse: in a strict format the first of P11 to P13 that holds of it.
fn take<'a>(
    profile: &Profile,
    octets: &[u8],
    view: PayloadView<'a>,
) -> Result<PayloadView<'a>, PayloadRefusal>
    requires valid { IsValid profile.now }
    requires small { AreOctets octets.now }
    requires read { Reads profile.now octets.now (Ok view) }
    ensures { Takes profile.now octets.now result }
{
    if !profile.strict {
        return Ok(view);
    }
    match strict_refusal(profile, &view) {
        Some(why) => Err(why),
        None => Ok(view),
    }
}
