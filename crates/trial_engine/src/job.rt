use amr_playout::Plan;
use spec_sending::SendPlan;

/// What a trial is asked to do.
#[derive(Clone, Copy, Debug, PartialEq, Eq)]
pub struct TrialJob {
    /// What the packets that are delivered are recorded by, whatever their payload type.
    pub plan: Plan,
    /// What the blocks are sent by.
    pub send: SendPlan,
    /// How many blocks are made.
    pub count: u32,
    /// The number that the blocks are drawn from; the delivery is drawn from the one behind it.
    pub seed: u64,
}
