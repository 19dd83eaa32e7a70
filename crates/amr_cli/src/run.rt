// The program over its words, its input, its output and its notes.
ghost use Rattle.std.specs.Prelude.{◌≡◌, ◌↔◌, None, false};
ghost use Rattle.amr_cli.specs.Jobs.{Asked, IsServed, job_of, meaning_in};
ghost use Rattle.amr_cli.specs.Noted.{Noted};
ghost use Rattle.amr_cli.specs.Runs.{PutsOut, Ran, ReadFaults, SameSink};
ghost use Rattle.amr_cli.specs.Runs.{TellsAll, WriteFaults, run_of};
ghost use Rattle.amr_cli.specs.Statuses.{EndsAs};
ghost use Rattle.spec_words.specs.Words.{texts};
ghost use Rattle.run_report.specs.Lines.{notes_of, usage_line};
ghost use Rattle.spec_run.specs.Flows.{read_from, written_to};
ghost use Rattle.spec_run.specs.Meanings.{Leaves};

use crate::engine::{noted_lines, run_engine};
use crate::job::{Job, read_words};
use crate::status::{Status, blamed, status_of};
use amr_io::{Sink, Source};
use run_report::{CountLines, RunReport, write_notes, write_usage};
use std::alloc::Global;

/// Runs the program over its words, its input, its output and its notes.
///
/// For every packet log, however its reads are cut, `record` writes exactly the storage file that holds, segment after
/// segment, for each frame time from the earliest to the latest received in time, in order, and for each channel once, the
/// best accepted copy in time or NO_DATA; its receiver has room for window times channels frames, reserved before the first
/// octet is read, and no later packet is refused for memory.
pub fn run_gateway<I: Source, O: Sink, E: Sink>(
    alloc: Global,
    words: &[String],
    input: &mut I,
    output: &mut O,
    notes: &mut E,
) -> Status
    // `Usage` comes exactly where the words give no job; nothing is then read and nothing put out.
    ensures usage { (job_of (texts words.now) ≡ None) ↔ (result ≡ Status.Usage) }
    ensures usage_leaves { result ≡ Status.Usage
        → (input.new ≡ input.old) × (output.new ≡ output.old)
        × Noted (written_to E.Sink notes.old notes.new) usage_line }
    // Output and end, where the input is told and no call failed; what is left of the input.
    ensures headline { Asked (texts words.now) (λ m. PutsOut m (run_of I.Source O.Sink E.Sink
        input.old input.new output.old output.new notes.old notes.new result)) }
    ensures leaves { Asked (texts words.now) (λ m.
        Leaves m (read_from I.Source input.old input.new) (result ≡ Status.Done)) }
    // A fault of the input; of the output, or of the notes where all else was done.
    ensures read_fault { ReadFaults (texts words.now) (run_of I.Source O.Sink E.Sink
        input.old input.new output.old output.new notes.old notes.new result) }
    ensures write_fault { WriteFaults (texts words.now) (run_of I.Source O.Sink E.Sink
        input.old input.new output.old output.new notes.old notes.new result) }
    // Want of memory.
    ensures memory { result ≡ Status.OutOfMemory → (output.new ≡ output.old)
        × Asked (texts words.now) (λ m. m.reads_first ≡ false → input.new ≡ input.old) }
    // The notes: the lines of the job and the line of the status, or a part of them.
    ensures notes { TellsAll (texts words.now) (run_of I.Source O.Sink E.Sink
        input.old input.new output.old output.new notes.old notes.new result) }
    // The whole run, and what stays of the output and the notes.
    ensures run { Asked (texts words.now) (λ m. Ran m (run_of I.Source O.Sink E.Sink
        input.old input.new output.old output.new notes.old notes.new result))
        × SameSink O.Sink output.old output.new × SameSink E.Sink notes.old notes.new }
{
    match read_words(words) {
        None => note_usage(notes),
        Some(job) => run_job(alloc, &job, input, output, notes),
    }
}

/// Does a job, and notes what its run reports.
fn run_job<I: Source, O: Sink, E: Sink>(
    alloc: Global,
    job: &Job,
    input: &mut I,
    output: &mut O,
    notes: &mut E,
) -> Status
    requires served { IsServed job.now }

    ensures ran { Ran (meaning_in job.now) (run_of I.Source O.Sink E.Sink
        input.old input.new output.old output.new notes.old notes.new result) }
    ensures memory { result ≡ Status.OutOfMemory → (output.new ≡ output.old)
        × ((meaning_in job.now).reads_first ≡ false → input.new ≡ input.old) }
    ensures same { SameSink O.Sink output.old output.new × SameSink E.Sink notes.old notes.new }
{
    let report = run_engine(alloc, job, input, output);
    note(notes, noted_lines(job), &report)
}

/// Notes what a run reports, and answers the status of its end.
pub fn note<E: Sink>(notes: &mut E, lines: CountLines, report: &RunReport) -> Status
    ensures noted { Noted (written_to E.Sink notes.old notes.new) (notes_of lines report.now) }
    ensures ended { EndsAs report.now.end (written_to E.Sink notes.old notes.new) result }
    ensures same { SameSink E.Sink notes.old notes.new }
{
    match write_notes(notes, lines, report) {
        Ok(()) => status_of(report.end),
        Err(_) => blamed(report.end),
    }
}

/// Notes that the words give no job.
pub fn note_usage<E: Sink>(notes: &mut E) -> Status
    ensures noted { Noted (written_to E.Sink notes.old notes.new) usage_line }
    ensures status { result ≡ Status.Usage }
    ensures same { SameSink E.Sink notes.old notes.new }
{
    let _written = write_usage(notes);
    Status::Usage
}
