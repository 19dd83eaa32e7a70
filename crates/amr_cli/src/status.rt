ghost use Rattle.std.specs.Prelude.{◌≡◌};
ghost use Rattle.amr_cli.specs.Statuses.{but_notes, number_for, status_for};

use run_report::RunEnd;

/// How the program ends.
#[derive(Clone, Copy, Debug, PartialEq, Eq)]
pub enum Status {
    /// The input was read to its end and all was written.
    Done,
    /// The words give no job; nothing was read or put out.
    Usage,
    /// The log ended inside a record, the storage file or the offer was refused; what stood before that was worked off.
    InputRefused,
    /// A read failed.
    ReadFault,
    /// A write failed: one to the output, or one to the notes where all else was done.
    WriteFault,
    /// There was no memory; nothing was read or put out.
    OutOfMemory,
    /// The input has more octets than the limit; those within it were worked off.
    LimitReached,
    /// No offered payload type suits; nothing was put out.
    NoAnswer,
}

/// The status of a run that ended so.
pub fn status_of(end: RunEnd) -> Status
    ensures { result ≡ status_for end }
{
    match end {
        RunEnd::Done => Status::Done,
        RunEnd::LogCut { .. } => Status::InputRefused,
        RunEnd::File(_) => Status::InputRefused,
        RunEnd::Sdp(_) => Status::InputRefused,
        RunEnd::ReadFault => Status::ReadFault,
        RunEnd::WriteFault => Status::WriteFault,
        RunEnd::OutOfMemory => Status::OutOfMemory,
        RunEnd::LimitReached => Status::LimitReached,
        RunEnd::NoAnswer => Status::NoAnswer,
    }
}

/// The status of a run that ended so and whose notes failed.
pub fn blamed(end: RunEnd) -> Status
    ensures { result ≡ but_notes (status_for end) }
{
    match end {
        RunEnd::Done => Status::WriteFault,
        other => status_of(other),
    }
}

/// The number that the program ends with.
pub fn number_of(status: Status) -> u8
    ensures { result ≡ number_for status }
{
    match status {
        Status::Done => 0,
        Status::Usage => 1,
        Status::InputRefused => 2,
        Status::ReadFault => 3,
        Status::WriteFault => 4,
        Status::OutOfMemory => 5,
        Status::LimitReached => 6,
        Status::NoAnswer => 7,
    }
}
