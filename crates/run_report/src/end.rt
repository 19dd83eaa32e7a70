// How a run ended.
ghost use Rattle.std.specs.Prelude.{◌≡◌};
ghost use Rattle.run_report.specs.Ends.{is_finished};

use refusals::{OfferRefusal, StoreRefusal};

/// How a run over an input ended.
#[derive(Clone, Copy, Debug, PartialEq, Eq)]
pub enum RunEnd {
    /// The input was read to its end, and all was written.
    Done,
    /// The log ended inside a record of which `have` octets came, at least 1, its length included.
    LogCut { have: usize },
    /// The storage file was refused; the blocks before the unit at fault were worked off.
    File(StoreRefusal),
    /// The offer was refused.
    Sdp(OfferRefusal),
    /// A read failed.
    ReadFault,
    /// A write failed.
    WriteFault,
    /// There was no memory for the run; nothing was written.
    OutOfMemory,
    /// The input has more octets than the limit; those within it were worked off.
    LimitReached,
    /// No offered payload type suits.
    NoAnswer,
}

impl RunEnd {
    /// Whether the input was worked off: no read and no write failed, and memory was found.
    pub fn is_finished(self) -> bool
        ensures { result ≡ is_finished self }
    {
        match self {
            RunEnd::ReadFault => false,
            RunEnd::WriteFault => false,
            RunEnd::OutOfMemory => false,
            RunEnd::Done => true,
            RunEnd::LogCut { .. } => true,
            RunEnd::File(_) => true,
            RunEnd::Sdp(_) => true,
            RunEnd::LimitReached => true,
            RunEnd::NoAnswer => true,
        }
    }
}
