ghost use Rattle.std.specs.Prelude.{◌≡◌, ◌↔◌, IfErr, IsOk, Some};
ghost use Rattle.spec_sending.specs.Plans.{IsPlan, is_request, plan_fault};

use crate::fault::SendFault;
use amr_frame::{Codec, Kind, Profile, kind_of};

/// What a sender goes by.
#[derive(Clone, Copy, Debug, PartialEq, Eq)]
pub struct SendPlan {
    /// The format of the payloads.
    pub profile: Profile,
    /// The new blocks of a packet.
    pub blocks: u8,
    /// The packets of an interleaving group; 1 where packets carry consecutive blocks.
    pub length: u8,
    /// How many blocks before the new ones a packet carries again.
    pub repeat: u8,
    /// Packets of NO_DATA alone are left out.
    pub skip_empty: bool,
    /// The codec mode request of each payload, 15 for none (RFC 4867, 4.3.1).
    pub cmr: u8,
    /// The RTP payload type.
    pub pt: u8,
    /// The source of the packets (RFC 3550, 5.1).
    pub ssrc: u32,
    /// The sequence number of the first packet.
    pub seq: u16,
    /// The timestamp of the first block, in ticks of the codec's clock.
    pub ts: u32,
}

/// Whether a codec mode request asks for no mode, or for a mode of the codec (RFC 4867, 4.3.1).
fn asks_for(codec: Codec, cmr: u8) -> bool
    ensures { result ≡ is_request codec cmr }
{
    if cmr > 15 {
        return false;
    }
    match kind_of(codec, cmr) {
        Kind::Speech => true,
        _ => cmr == 15,
    }
}

impl SendPlan {
    /// Tests the rules of a plan, and names the first that it breaks.
    pub fn check(&self) -> Result<(), SendFault>
        ensures valid { IsOk result ↔ IsPlan self.now }
        ensures fault { IfErr result (λ fault. plan_fault self.now ≡ Some fault) }
    {
        if let Err(fault) = self.profile.check() {
            return Err(SendFault::Profile(fault));
        }
        let carried = u16::from(self.blocks) + u16::from(self.repeat);
        if self.blocks == 0 || carried > u16::from(self.profile.max_blocks) {
            return Err(SendFault::Blocks);
        }
        if self.length == 0 || self.length > 16 {
            return Err(SendFault::Length);
        }
        if self.length > 1 && self.profile.interleaving.is_none() {
            return Err(SendFault::Length);
        }
        if let Some(blocks) = self.profile.interleaving {
            let most = blocks.min(1024);
            if u16::from(self.blocks) * u16::from(self.length) > most || carried > most {
                return Err(SendFault::Group);
            }
        }
        if self.repeat != 0 && self.length != 1 {
            return Err(SendFault::Repeat);
        }
        if !asks_for(self.profile.codec, self.cmr) {
            return Err(SendFault::Request);
        }
        if self.pt > 127 {
            return Err(SendFault::Number);
        }
        Ok(())
    }
}
