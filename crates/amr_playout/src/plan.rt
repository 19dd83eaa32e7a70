ghost use Rattle.std.specs.Prelude.{◌≡◌, ◌↔◌, IfErr, IsOk, Some};
ghost use Rattle.amr_playout.specs.Plans.{IsPlan, plan_fault};

use amr_frame::{Profile, ProfileFault};
use thiserror::Error;

/// What a receiver goes by.
#[derive(Clone, Copy, Debug, PartialEq, Eq)]
pub struct Plan {
    /// The format of the payloads.
    pub profile: Profile,
    /// How many frame times are kept before they go out, at most 4096.
    pub window: u16,
    /// How many frame times a packet may reach past the last one so far, from 1 to 45000.
    pub reach: u32,
}

/// Why a plan isn't valid, in the order in which the rules are tested.
#[derive(Clone, Copy, Debug, PartialEq, Eq, Error)]
pub enum PlanFault {
    /// The format isn't valid: B1 to B4.
    #[error("the format isn't valid")]
    Profile(ProfileFault),
    /// B5: the window isn't from the most blocks of a payload, and of an interleaving group, to 4096.
    #[error("the window doesn't hold a payload and a group, or is more than 4096")]
    Window,
    /// B6: the reach isn't from 1 to 45000.
    #[error("the reach isn't from 1 to 45000")]
    Reach,
}

impl Plan {
    /// Tests the rules of a plan, and names the first that it breaks.
    pub fn check(&self) -> Result<(), PlanFault>
        ensures valid { IsOk result ↔ IsPlan self.now }
        ensures fault { IfErr result (λ fault. plan_fault self.now ≡ Some fault) }
    {
        if let Err(fault) = self.profile.check() {
            return Err(PlanFault::Profile(fault));
        }
        let least = match self.profile.interleaving {
            Some(blocks) if blocks.min(1024) > u16::from(self.profile.max_blocks) => blocks.min(
                1024,
            ),
            _ => u16::from(self.profile.max_blocks),
        };
        if self.window < least || self.window > 4096 {
            return Err(PlanFault::Window);
        }
        if self.reach == 0 || self.reach > 45_000 {
            return Err(PlanFault::Reach);
        }
        Ok(())
    }
}
