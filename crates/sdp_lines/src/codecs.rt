// The codec that a map names (RFC 4867, 8.1 and 8.2).
ghost use Rattle.std.specs.Prelude.{◌≡◌};
ghost use Rattle.spec_offer.specs.Offers.{codec_name, codec_of, is_of};
ghost use Rattle.sdp_lines.specs.Attributes.{map_said};

use crate::attributes::Map;
use amr_frame::{Codec, rate};

/// The name of a codec in a map.
pub fn codec_name(codec: Codec) -> &'static str
    ensures { result.now ≡ codec_name codec }
{
    match codec {
        Codec::Amr => "AMR",
        Codec::AmrWb => "AMR-WB",
    }
}

impl<'a> Map<'a> {
    /// The codec of a map, which has its name in capital or small letters and its clock rate.
    pub fn codec(&self) -> Option<Codec>
        ensures { result ≡ codec_of (map_said self.now) }
    {
        if self.is_of(Codec::Amr) {
            Some(Codec::Amr)
        } else if self.is_of(Codec::AmrWb) {
            Some(Codec::AmrWb)
        } else {
            None
        }
    }

    fn is_of(&self, codec: Codec) -> bool
        ensures { result ≡ is_of codec (map_said self.now) }
    {
        let name = codec_name(codec).as_bytes();
        self.name.eq_ignore_ascii_case(name) && self.rate == rate(codec)
    }
}
