use amr_sdp::Wanted;

/// What answering an offer is asked to do.
#[derive(Clone, Copy, Debug, PartialEq, Eq)]
pub struct AnswerJob {
    pub wanted: Wanted,
    /// The port of the answer's media line.
    pub port: u16,
    /// The most octets of the offer that are taken, from 1 to 65,536.
    pub limit: u64,
}
