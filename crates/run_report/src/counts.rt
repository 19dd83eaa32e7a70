// What a run counts.
ghost use Rattle.std.specs.Prelude.{◌≡◌};
ghost use Rattle.run_report.specs.Lines.{no_counts};

use arrayvec::ArrayVec;
use refusals::RefusedType;

/// The counts of a run.
///
/// A record of a log that puts nothing into the session counts once, under the first of `null`, `rtp`, `other_type`,
/// `payload` and `place` whose test it meets.
#[derive(Clone, Debug, PartialEq, Eq, Drop)]
pub struct Counts {
    /// Whole records of the log.
    pub packets: u64,
    /// Records of length 0.
    pub null: u64,
    /// Packets refused for their RTP header (H1 to H5).
    pub rtp: u64,
    /// Packets of another payload type than the asked one.
    pub other_type: u64,
    /// Packets refused for their payload: P1 to P10, and P11 to P13 in a strict format.
    pub payload: u64,
    /// Packets refused for their place in the session (S1 to S3).
    pub place: u64,
    /// Blocks of accepted packets that were not in time.
    pub late: u64,
    /// Frames in time whose place and channel already had a copy.
    pub copies: u64,
    /// Blocks written, or read where a run reads them.
    pub blocks: u64,
    /// Packets sent.
    pub sent: u64,
    /// The offered payload types that don't suit, in their order, each once; none but where an offer is answered.
    pub refused: ArrayVec<RefusedType, 128>,
}

impl Counts {
    /// The counts of a run that has seen nothing.
    pub fn none() -> Counts
        ensures { result ≡ no_counts }
    {
        Counts {
            packets: 0,
            null: 0,
            rtp: 0,
            other_type: 0,
            payload: 0,
            place: 0,
            late: 0,
            copies: 0,
            blocks: 0,
            sent: 0,
            refused: ArrayVec::new(),
        }
    }
}
