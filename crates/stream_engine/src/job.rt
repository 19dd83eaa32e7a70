use spec_sending::SendPlan;

/// What streaming a storage file is asked to do.
#[derive(Clone, Copy, Debug, PartialEq, Eq)]
pub struct StreamJob {
    /// What the packets are sent by; its format's codec and channels are those of the file.
    pub plan: SendPlan,
    /// The most octets of the file that are taken, from 1 to 2^40.
    pub limit: u64,
}
