// What comes of offering a packet.
ghost use Rattle.std.specs.Prelude.{◌≡◌, ◌+◌, ◌^◌, ◌<◌};
ghost use Rattle.amr_playout.specs.Counted.{counted_with};

/// What an accepted packet gave.
#[derive(Clone, Copy, Debug, PartialEq, Eq)]
pub struct Taken {
    /// Its blocks that weren't in time.
    pub late: u32,
    /// Its frames in time whose place and channel had a copy already.
    pub copies: u32,
    /// The blocks that were put out, those of the segment before included where the packet began one.
    pub released: u64,
    /// The number of its segment, from 0.
    pub segment: u64,
}

/// Why a packet is refused, in the order in which the rules are tested.
#[derive(Clone, Copy, Debug, PartialEq, Eq)]
pub enum Refusal {
    /// S1: another source (SSRC) than the session's.
    OtherSource { kept: u32, got: u32 },
    /// S2: the timestamp is no multiple of a frame time from the segment's first, but `delta` ticks from the horizon's.
    /// The packet begins no segment.
    OffGrid { delta: i64 },
    /// S3: the packet's last block stands further past the horizon than the reach, and the packet begins no segment.
    FarAhead { horizon: i64, last: i64 },
}

/// Why a packet wasn't taken.
#[derive(Clone, Copy, Debug, PartialEq, Eq)]
pub enum Offered {
    /// It is refused: S1 to S3. Nothing has changed, but that after S2 and S3 the next packet in sequence may begin a
    /// segment.
    Refused(Refusal),
    /// S4: it is accepted, but the sink failed. The receiver is spent.
    BlockFault,
}

/// What became of all packets so far.
#[derive(Clone, Copy, Debug, PartialEq, Eq)]
pub struct Kept {
    /// The blocks that weren't in time.
    pub late: u64,
    /// The frames in time whose place and channel had a copy already.
    pub copies: u64,
    /// The blocks put out.
    pub blocks: u64,
}

impl Kept {
    /// The counts with those of a packet more.
    pub fn with(self, taken: Taken) -> Kept
        requires late { self.late < 2 ^ 63 }
        requires copies { self.copies < 2 ^ 63 }
        requires blocks { self.blocks + taken.released < 2 ^ 64 }
        ensures { result ≡ counted_with self taken }
    {
        Kept {
            late: self.late + u64::from(taken.late),
            copies: self.copies + u64::from(taken.copies),
            blocks: self.blocks + taken.released,
        }
    }
}
