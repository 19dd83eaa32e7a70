// Codec mode requests.
ghost use Rattle.std.specs.Prelude.{◌≡◌, ◌≤◌};
ghost use Rattle.spec_modes.specs.Requests.{request_in};

use amr_frame::{Codec, Kind, kind_of};
use spec_modes::Request;

/// What a codec mode request of 4 bits asks for (RFC 4867, 4.3.1): a speech mode of the codec, none where it is 15, and
/// it is ignored else.
pub fn request_of(codec: Codec, cmr: u8) -> Request
    requires { cmr ≤ 15 }
    ensures { result ≡ request_in codec cmr }
{
    match (kind_of(codec, cmr), cmr) {
        (Kind::Speech, _) => Request::Mode(cmr),
        (_, 15) => Request::None,
        _ => Request::Ignored,
    }
}
