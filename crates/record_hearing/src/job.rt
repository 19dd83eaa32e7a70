use amr_playout::Plan;

/// What recording a log is asked to do.
#[derive(Clone, Copy, Debug, PartialEq, Eq)]
pub struct RecordJob {
    /// The format of the payloads, the window and the reach.
    pub plan: Plan,
    /// The RTP payload type of the packets that are taken; any where there is none.
    pub pt: Option<u8>,
    /// The most octets of the log that are taken, from 1 to 2^40.
    pub limit: u64,
}
