// The engine of each command, and the lines that it notes.
ghost use Rattle.std.specs.Prelude.{◌≡◌, false};
ghost use Rattle.amr_cli.specs.Jobs.{IsServed, meaning_in};
ghost use Rattle.amr_cli.specs.Runs.{SameSink};
ghost use Rattle.spec_run.specs.Meanings.{Works, work_of};

use crate::job::Job;
use amr_gateway::{answer_offer, convert_log, list_log, record_log, run_trial, stream_file};
use amr_io::{Sink, Source};
use run_report::{CountLines, RunEnd, RunReport};
use std::alloc::Global;

/// Runs the engine of a job.
pub fn run_engine<I: Source, O: Sink>(
    alloc: Global,
    job: &Job,
    input: &mut I,
    output: &mut O,
) -> RunReport
    requires served { IsServed job.now }

    ensures works { Works (meaning_in job.now)
        (work_of I.Source O.Sink input.old input.new output.old output.new result) }
    ensures memory { result.end ≡ RunEnd.OutOfMemory → (output.new ≡ output.old)
        × ((meaning_in job.now).reads_first ≡ false → input.new ≡ input.old) }
    ensures same { SameSink O.Sink output.old output.new }
{
    match job {
        Job::RecordLog(job) => record_log(alloc, job, input, output),
        Job::StreamFile(job) => stream_file(alloc, job, input, output),
        Job::ConvertLog(job) => convert_log(alloc, job, input, output),
        Job::AnswerOffer(job) => answer_offer(alloc, job, input, output),
        Job::ListLog(job) => list_log(alloc, job, input, output),
        Job::RunTrial(job) => run_trial(alloc, job, output),
    }
}

/// The lines of its counts that a job notes.
pub fn noted_lines(job: &Job) -> CountLines
    ensures { result ≡ (meaning_in job.now).lines }
{
    match job {
        Job::RecordLog(_) => CountLines::Recording,
        Job::StreamFile(_) => CountLines::Sending,
        Job::ConvertLog(_) => CountLines::Converting,
        Job::AnswerOffer(_) => CountLines::Answering,
        Job::ListLog(_) | Job::RunTrial(_) => CountLines::None,
    }
}
