// The header of a file that is read (RFC 4867, 5.1 and 5.2).
ghost use Rattle.std.specs.Prelude.{◌≡◌};
ghost use Rattle.amr_store.specs.Sights.{HeaderCuts, HeaderPart, HeaderShows, told_sight};

use crate::step::Sight;
use crate::writer::{magic, multichannel_magic};
use amr_frame::Codec;
use spec_store::StoreRefusal;

/// What the octets at the front of a file show of its header.
pub(crate) fn header_sight(codec: Codec, channels: u8, octets: &[u8]) -> Sight
    ensures { HeaderShows codec channels octets.now result }
{
    let several = multichannel_magic(codec);
    if octets.starts_with(several) {
        let len = several.len() + 4;
        if octets.len() < len {
            return Sight::Part { at: 0 };
        }
        return told(octets[len - 1] % 16, channels, len);
    }
    let one = magic(codec);
    if octets.starts_with(one) {
        return told(1, channels, one.len());
    }
    if one.starts_with(octets) || several.starts_with(octets) {
        Sight::Part { at: 0 }
    } else {
        Sight::Refused(StoreRefusal::Magic)
    }
}

/// What a whole header shows that tells `chan` channels where `channels` are asked.
fn told(chan: u8, channels: u8, len: usize) -> Sight
    ensures { result ≡ told_sight chan channels len }
{
    if chan == channels {
        Sight::Whole { len }
    } else {
        Sight::Refused(StoreRefusal::Channels { chan })
    }
}

/// Why a file is refused that ends here, in its header.
pub(crate) fn header_cut(codec: Codec, channels: u8, octets: &[u8]) -> StoreRefusal
    requires { HeaderPart codec channels octets.now }
    ensures { HeaderCuts codec channels octets.now result }
{
    let several = multichannel_magic(codec);
    if octets.starts_with(several) {
        StoreRefusal::Truncated {
            place: several.len() as u64,
        }
    } else {
        StoreRefusal::Magic
    }
}
