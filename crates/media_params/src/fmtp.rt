// Media parameters.
ghost use Rattle.std.specs.Prelude.{◌≡◌, ◌≤◌, ◌<◌, ◌^◌};
ghost use Rattle.amr_frame.specs.Profiles.{IsValid};
ghost use Rattle.media_params.specs.Fmtp.{AreShort};
ghost use Rattle.spec_media.specs.Params.{AreParameters};

use amr_frame::{Codec, Profile};
use amr_mode::ModeSet;

/// What the media parameters of one payload type say (RFC 4867, 8.1 and 8.2).
#[derive(Clone, Copy, Debug, PartialEq, Eq)]
pub struct Fmtp {
    /// Payloads are octet-aligned, or else bandwidth-efficient.
    pub octet_aligned: bool,
    /// The modes that may be sent; all of the codec where there is no set.
    pub modes: Option<ModeSet>,
    /// After how many frame-blocks the mode may change again, 1 or 2.
    pub period: u8,
    /// What the sender can do about that period, 1 or 2.
    pub capability: u8,
    /// The mode changes to a neighbour only.
    pub neighbor: bool,
    /// Each frame that has bits has a CRC.
    pub crc: bool,
    /// The octets of the frames stand in the robust order.
    pub sorting: bool,
    /// The most blocks in an interleaving group, from 1 on, where payloads are interleaved.
    pub interleaving: Option<u16>,
    /// The most milliseconds between a frame and a redundant copy of it, where they are limited.
    pub max_red: Option<u16>,
}

impl Fmtp {
    ghost use Rattle.media_params.specs.Fmtp.{format_of, parameters};

    /// The payload format of these parameters, which isn't strict and has their modes, or all of the codec.
    /// It is valid for 1 to 6 channels and payloads of at most 1 to 64 blocks.
    pub fn profile(&self, codec: Codec, channels: u8, max_blocks: u8) -> Profile
        ensures format { result ≡ format_of self.now codec channels max_blocks }
        ensures valid { AreParameters codec (parameters self.now) → 1 ≤ channels → channels ≤ 6
            → 1 ≤ max_blocks → max_blocks ≤ 64 → IsValid result }
    {
        tell_short(self.modes);
        let modes = match self.modes {
            Some(set) => set.bits,
            None => ModeSet::all(codec).bits,
        };
        Profile {
            octet_aligned: self.octet_aligned,
            crc: self.crc,
            sorting: self.sorting,
            interleaving: self.interleaving,
            max_blocks,
            modes,
            ..Profile::plain(codec, channels)
        }
    }
}

/// Tells the proofs how great the bits of a set can be, and does nothing.
pub(crate) fn tell_short(modes: Option<ModeSet>)
    ensures { AreShort modes }
{
    if let Some(set) = modes {
        tell_short_bits(set.bits);
    }
}

fn tell_short_bits(bits: u16)
    ensures { bits < 2 ^ 16 }
{}
