ghost use Rattle.std.specs.Prelude.{◌≡◌, ◌↔◌, IfErr, IsOk, None, Some, false};
ghost use Rattle.amr_frame.specs.Profiles.{IsValid, profile_fault};
ghost use Rattle.amr_frame.specs.Tables.{mode_bits};

use crate::codec::Codec;
use thiserror::Error;

/// A format of payloads (RFC 4867, 4.1). Made by `Profile::plain` and updates of its fields.
#[derive(Clone, Copy, Debug, PartialEq, Eq)]
pub struct Profile {
    pub codec: Codec,
    /// The frames of one block, from 1 to 6.
    pub channels: u8,
    /// Octet-aligned, or else bandwidth-efficient.
    pub octet_aligned: bool,
    /// Each frame that has bits has a CRC.
    pub crc: bool,
    /// The octets of the frames stand in the robust order.
    pub sorting: bool,
    /// The most blocks in an interleaving group, where payloads are interleaved.
    pub interleaving: Option<u16>,
    /// The most blocks in a payload, from 1 to 64.
    pub max_blocks: u8,
    /// Payloads that are read have to be canonical, with requests and speech of the modes alone.
    pub strict: bool,
    /// The speech modes that a strict format has: bit m stands for mode m of the codec.
    pub modes: u16,
}

/// Why a format of payloads isn't valid, in the order in which the rules are tested.
#[derive(Clone, Copy, Debug, PartialEq, Eq, Error)]
pub enum ProfileFault {
    /// B1: the number of channels isn't from 1 to 6.
    #[error("the number of channels isn't from 1 to 6")]
    Channels,
    /// B2: CRCs, sorting or interleaving are asked without octet alignment.
    #[error("CRCs, sorting and interleaving need octet alignment")]
    NeedsAlignment,
    /// B3: groups of no block are asked.
    #[error("an interleaving group has at least one block")]
    Interleaving,
    /// B4: the most blocks in a payload aren't from 1 to 64.
    #[error("the most blocks in a payload aren't from 1 to 64")]
    MaxBlocks,
    /// B13: the modes are none, or others than those of the codec are among them.
    #[error("the modes are none, or not all of the codec")]
    Modes,
}

impl Profile {
    /// The bandwidth-efficient format with up to 64 blocks in a payload, not strict, of all modes.
    pub fn plain(codec: Codec, channels: u8) -> Profile
        ensures { result ≡ record {
          codec = codec;
          channels = channels;
          octet_aligned = false;
          crc = false;
          sorting = false;
          interleaving = None;
          max_blocks = 64;
          strict = false;
          modes = mode_bits codec;
        } }
    {
        Profile {
            codec,
            channels,
            octet_aligned: false,
            crc: false,
            sorting: false,
            interleaving: None,
            max_blocks: 64,
            strict: false,
            modes: all_modes(codec),
        }
    }

    /// Tests the rules of a format, and names the first that it breaks.
    pub fn check(&self) -> Result<(), ProfileFault>
        ensures valid { IsOk result ↔ IsValid self.now }
        ensures fault { IfErr result (λ fault. profile_fault self.now ≡ Some fault) }
    {
        if self.channels == 0 || self.channels > 6 {
            return Err(ProfileFault::Channels);
        }
        if (self.crc || self.sorting || self.interleaving.is_some()) && !self.octet_aligned {
            return Err(ProfileFault::NeedsAlignment);
        }
        if let Some(0) = self.interleaving {
            return Err(ProfileFault::Interleaving);
        }
        if self.max_blocks == 0 || self.max_blocks > 64 {
            return Err(ProfileFault::MaxBlocks);
        }
        if self.modes == 0 || self.modes > all_modes(self.codec) {
            return Err(ProfileFault::Modes);
        }
        Ok(())
    }
}

/// The bits of all speech modes of a codec: modes 0 to 7, and 0 to 8.
fn all_modes(codec: Codec) -> u16
    ensures { result ≡ mode_bits codec }
{
    match codec {
        Codec::Amr => 0x00FF,
        Codec::AmrWb => 0x01FF,
    }
}
