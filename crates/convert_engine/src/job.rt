ghost use Rattle.std.specs.Prelude.{◌≡◌};
ghost use Rattle.convert_engine.specs.Jobs.{hearing_of};

use amr_playout::Plan;
use record_hearing::RecordJob;
use spec_sending::SendPlan;

/// What converting a log is asked to do.
#[derive(Clone, Copy, Debug, PartialEq, Eq)]
pub struct ConvertJob {
    /// The format of the payloads that are received, the window and the reach.
    pub plan: Plan,
    /// The RTP payload type of the packets that are taken; any where there is none.
    pub pt: Option<u8>,
    /// What the packets are sent by; its format has the codec and the channels of the one received.
    pub to: SendPlan,
    /// The most octets of the log that are taken, from 1 to 2^40.
    pub limit: u64,
}

impl ConvertJob {
    /// How its log is heard.
    pub(crate) fn hearing(&self) -> RecordJob
        ensures { result ≡ hearing_of self.now }
    {
        RecordJob {
            plan: self.plan,
            pt: self.pt,
            limit: self.limit,
        }
    }
}
