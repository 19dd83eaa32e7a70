ghost use Rattle.std.specs.Prelude.{◌≡◌, true};
ghost use Rattle.amr_payload.specs.Taken.{HasModes, IsTaken};
ghost use Rattle.amr_toc.specs.Payloads.{Carries, CarriesInto, IsSize, meant};
ghost use Rattle.spec_payload.specs.Grammar.{text};

use amr_be::{size_be, write_be};
use amr_frame::Profile;
use amr_oa::{size_oa, write_oa};
use amr_toc::Payload;

/// How many octets a payload of the format has.
pub fn size_payload(profile: &Profile, payload: &Payload<'_>) -> usize
    requires { Carries profile.now payload.now }
    ensures { IsSize profile.now payload.now 23810 result }
{
    if profile.octet_aligned {
        size_oa(profile, payload)
    } else {
        size_be(profile, payload)
    }
}

/// Writes a payload of the format, with the free bits 0 (RFC 4867, 4.3 and 4.4). All of `out` is then the payload, and
/// the format takes it as what it means: in a strict format, where what it requests and carries are modes of it.
pub fn write_payload(profile: &Profile, payload: &Payload<'_>, out: &mut [u8])
    requires { CarriesInto profile.now payload.now out.old }
    ensures text { out.new ≡ text profile.now (meant payload.now) }
    ensures taken { (profile.now.strict ≡ true → HasModes profile.now (meant payload.now))
        → IsTaken profile.now out.new (meant payload.now) }
{
    if profile.octet_aligned {
        write_oa(profile, payload, out);
    } else {
        write_be(profile, payload, out);
    }
}
