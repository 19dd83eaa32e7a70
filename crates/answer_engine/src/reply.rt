// The reply to an offer.
ghost use Rattle.std.specs.Prelude.{◌≡◌, ◌≤◌, Ok, length};
ghost use Rattle.amr_sdp.specs.Answers.{IsWanted};
ghost use Rattle.amr_sdp.specs.Offers.{offer_said};
ghost use Rattle.answer_engine.specs.Jobs.{answering_of};
ghost use Rattle.answer_engine.specs.Replies.{Replies};
ghost use Rattle.run_report.specs.Lines.{no_counts};
ghost use Rattle.spec_offer.specs.Offers.{offer_of};

use crate::job::AnswerJob;
use amr_io::Sink;
use amr_sdp::{Offer, OfferError, choose_answer, read_offer, write_answer};
use arrayvec::ArrayVec;
use refusals::RefusedType;
use run_report::{Counts, RunEnd, RunReport};
use std::alloc::Global;

/// Why an offer that came whole isn't answered.
#[derive(Clone, Copy, Debug, PartialEq, Eq)]
pub(crate) enum Unanswered {
    /// There is no memory for the offer.
    NoMemory,
    /// A write failed.
    NotWritten,
}

/// Answers the offer that octets are, at most 65,536, and reports how that ended.
///
/// `NoMemory` comes only for want of memory, and nothing was written. `NotWritten` comes only where
/// the output's faults rose, and a front of the answer was written.
pub(crate) fn answer_octets<O: Sink>(
    alloc: Global,
    job: &AnswerJob,
    octets: &[u8],
    output: &mut O,
) -> Result<RunReport, Unanswered>
    requires wanted { IsWanted job.now.wanted }
    requires short { length octets.now ≤ 65536 }

    ensures reply { Replies (answering_of job.now) (offer_of octets.now) O.Sink
        output.old output.new result }
    ensures beside { O.beside output.new ≡ O.beside output.old }
    ensures same { O.same output.old output.new }
{
    match read_offer(alloc, octets) {
        Ok(offer) => reply(&offer, job, output),
        Err(OfferError::Refused(refusal)) => Ok(ended(RunEnd::Sdp(refusal))),
        Err(OfferError::Memory(_)) => Err(Unanswered::NoMemory),
    }
}

/// Answers an offer.
fn reply<O: Sink>(offer: &Offer, job: &AnswerJob, output: &mut O) -> Result<RunReport, Unanswered>
    requires { IsWanted job.now.wanted }

    ensures reply { Replies (answering_of job.now) (Ok (offer_said offer.now)) O.Sink
        output.old output.new result }
    ensures beside { O.beside output.new ≡ O.beside output.old }
    ensures same { O.same output.old output.new }
{
    let answer = choose_answer(offer, &job.wanted);
    let Some(chosen) = answer.chosen else {
        return Ok(counted(RunEnd::NoAnswer, answer.refused));
    };
    match write_answer(offer, &job.wanted, job.port, &chosen, output) {
        Ok(()) => Ok(counted(RunEnd::Done, answer.refused)),
        Err(_) => Err(Unanswered::NotWritten),
    }
}

/// The report of a run that counted the payload types that don't suit.
fn counted(end: RunEnd, refused: ArrayVec<RefusedType, 128>) -> RunReport
    ensures { result ≡ record { end = end; counts = record no_counts { refused = refused } } }
{
    let mut counts = Counts::none();
    counts.refused = refused;
    RunReport { end, counts }
}

/// The report of a run that counted nothing.
pub(crate) fn ended(end: RunEnd) -> RunReport
    ensures { result ≡ record { end = end; counts = no_counts } }
{
    RunReport {
        end,
        counts: Counts::none(),
    }
}
