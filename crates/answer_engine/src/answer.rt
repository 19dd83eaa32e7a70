// Answering an offer.
ghost use Rattle.std.specs.Prelude.{◌≡◌};
ghost use Rattle.answer_engine.specs.Jobs.{IsServed, answering_meaning};
ghost use Rattle.spec_run.specs.Meanings.{Works, work_of};

use crate::job::AnswerJob;
use crate::read::{Whole, read_whole};
use crate::reply::{Unanswered, answer_octets, ended};
use amr_io::{Inlet, Sink, Source};
use run_report::{RunEnd, RunReport};
use std::alloc::Global;

/// Room for one octet more than an offer may have.
const ROOM: usize = 65537;

/// Answers the offer that a session description makes (RFC 3264, 6).
///
/// The input is read whole before anything is put out. `Done` comes where the answer was written,
/// `LimitReached` where the input has more octets than the limit, `Sdp` where the offer is refused,
/// `NoAnswer` where no offered payload type suits: nothing is put out then. `ReadFault` comes only
/// where the input's faults rose, and nothing was put out; `WriteFault` only where the output's did,
/// and a front of the answer was. `OutOfMemory` comes only for want of memory, which the room for
/// the input takes before the first read, and the offer once it was read; nothing was put out. The
/// counts tell the payload types that don't suit.
pub fn answer_offer<I: Source, O: Sink>(
    alloc: Global,
    job: &AnswerJob,
    input: &mut I,
    output: &mut O,
) -> RunReport
    requires served { IsServed job.now }

    ensures works { Works (answering_meaning job.now)
        (work_of I.Source O.Sink input.old input.new output.old output.new result) }
    ensures memory { result.end ≡ RunEnd.OutOfMemory → output.new ≡ output.old }
    ensures beside { O.beside output.new ≡ O.beside output.old }
    ensures same { O.same output.old output.new }
{
    let Ok(mut inlet) = Inlet::create(alloc, ROOM, job.limit) else {
        return ended(RunEnd::OutOfMemory);
    };
    match read_whole(&mut inlet, input) {
        Ok(Whole::All) => match answer_octets(alloc, job, inlet.held(), output) {
            Ok(report) => report,
            Err(Unanswered::NoMemory) => ended(RunEnd::OutOfMemory),
            Err(Unanswered::NotWritten) => ended(RunEnd::WriteFault),
        },
        Ok(Whole::OverLimit) => ended(RunEnd::LimitReached),
        Err(_) => ended(RunEnd::ReadFault),
    }
}
