use amr_frame::Profile;
use amr_mode::ModeSet;

/// What listing a log is asked to do.
#[derive(Clone, Copy, Debug, PartialEq, Eq)]
pub struct ListJob {
    /// The format of the payloads.
    pub profile: Profile,
    /// The modes of the mode desk, which moves to a neighbour only, and only at each so many-th
    /// payload, 1 or 2 (RFC 4867, 8.1); it starts at one of the modes.
    pub modes: ModeSet,
    pub neighbor: bool,
    pub period: u8,
    pub start: u8,
    /// The RTP payload type of the packets whose payloads are read; any where there is none.
    pub pt: Option<u8>,
    /// The bits of each frame are listed too.
    pub show_bits: bool,
    /// The most octets of the log that are taken, from 1 to 2^40.
    pub limit: u64,
}
