// Media parameters that are printed and read again.
ghost use Rattle.std.specs.Prelude.{◌≡◌, Ok};
ghost use Rattle.media_params.specs.Fmtp.{parameters};
ghost use Rattle.spec_media.specs.Params.{AreParameters};
ghost use Rattle.spec_media.specs.Printing.{printed};

use crate::fmtp::{Fmtp, tell_short};
use crate::reading::read_fmtp;
use amr_frame::Codec;
use refusals::FmtpRefusal;

/// What is printed of parameters of a codec is read as those (RFC 4867, 8.1 to 8.3).
pub fn reads_what_was_printed(codec: Codec, fmtp: &Fmtp, text: &[u8]) -> Result<Fmtp, FmtpRefusal>
    requires valid { AreParameters codec (parameters fmtp.now) }
    requires printed { text.now ≡ printed (parameters fmtp.now) }
    ensures { result ≡ Ok fmtp.now }
{
    tell_short(fmtp.modes);
    match read_fmtp(codec, text) {
        Ok(read) => {
            tell_short(read.modes);
            Ok(read)
        }
        Err(why) => Err(why),
    }
}
