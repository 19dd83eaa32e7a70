// Running a trial.
ghost use Rattle.std.specs.Prelude.{◌≡◌};
ghost use Rattle.run_report.specs.Lines.{no_counts};
ghost use Rattle.spec_run.specs.Flows.{written_to};
ghost use Rattle.trial_engine.specs.Jobs.{IsServed, trying_meaning};
ghost use Rattle.trial_engine.specs.Unread.{WorksUnread};

use crate::job::TrialJob;
use crate::line::LossyLine;
use crate::run::run;
use crate::summary::write_summary;
use crate::tape::Tape;
use crate::waiting::Waiting;
use amr_io::Sink;
use amr_playout::Receiver;
use amr_sender::Sender;
use record_hearing::RecordJob;
use run_report::{Counts, RunEnd, RunReport};
use std::alloc::Global;

/// Runs a trial: makes blocks from a number, sends them over a line that loses packets, delivers
/// some twice and holds some back, records what is delivered, and writes a summary of three lines.
///
/// No input is read. All memory is taken before the first block; `OutOfMemory` comes only for want
/// of it, and nothing is written then. `WriteFault` comes only where the output's faults rose, and a
/// front of the summary was then written. The same job gives the same summary. Nothing is counted in
/// the report: the summary tells all counts.
pub fn run_trial<O: Sink>(alloc: Global, job: &TrialJob, output: &mut O) -> RunReport
    requires served { IsServed job.now }

    ensures works { WorksUnread (trying_meaning job.now)
        (written_to O.Sink output.old output.new) result }
    ensures memory { result.end ≡ RunEnd.OutOfMemory → output.new ≡ output.old }
    ensures beside { O.beside output.new ≡ O.beside output.old }
    ensures same { O.same output.old output.new }
{
    let Ok(receiver) = Receiver::create(alloc, job.plan) else {
        return ended(RunEnd::OutOfMemory);
    };
    let Ok(sender) = Sender::create(alloc, job.send) else {
        return ended(RunEnd::OutOfMemory);
    };
    let Ok(waiting) = Waiting::create(alloc) else {
        return ended(RunEnd::OutOfMemory);
    };
    let recording = RecordJob {
        plan: job.plan,
        pt: None,
        limit: 1,
    };
    let tape = Tape::new(&recording, receiver);
    let line = LossyLine::new(job.seed, waiting, tape);
    let outcome = run(job, sender, line);
    match write_summary(output, outcome) {
        Ok(()) => ended(RunEnd::Done),
        Err(_) => ended(RunEnd::WriteFault),
    }
}

/// The report of a run that ended so.
fn ended(end: RunEnd) -> RunReport
    ensures { result ≡ record { end = end; counts = no_counts } }
{
    RunReport {
        end,
        counts: Counts::none(),
    }
}
