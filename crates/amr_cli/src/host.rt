// The program as the host starts it: the words that it hands over, and the number that it is told in the end.
ghost use Rattle.std.specs.Prelude.{◌≡◌, ◌⊎◌, Err, IfErr, IfOk, drop};
ghost use Rattle.std.specs.declared.io.ErrorKind.TheVariants.{OutOfMemory};
ghost use Rattle.std.specs.IoError.{error_kind};
ghost use Rattle.std.specs.Process.{exit_status};
ghost use Rattle.std.specs.Vec.Iter.{into_iter_items};
ghost use Rattle.amr_cli.specs.Host.{HasRun, NotRun, line_without_words, status_without_words};
ghost use Rattle.amr_cli.specs.Noted.{Noted};
ghost use Rattle.amr_cli.specs.Runs.{SameSink, run_of};
ghost use Rattle.amr_cli.specs.Statuses.{number_for};
ghost use Rattle.spec_words.specs.Words.{texts};
ghost use Rattle.spec_run.specs.Flows.{written_to};

use crate::run::{note, note_usage, run_gateway};
use crate::status::{Status, number_of};
use amr_io::{Sink, Source};
use run_report::{CountLines, Counts, RunEnd, RunReport};
use std::alloc::{AllocError, Global};
use std::env::Args;
use std::io;
use std::process::ExitCode;

/// Runs the program over the words that the host gives, the first of which is the program's name, and answers what the host is
/// told.
pub fn run_started<I: Source, O: Sink, E: Sink>(
    alloc: Global,
    args: io::Result<Args>,
    input: &mut I,
    output: &mut O,
    notes: &mut E,
) -> ExitCode
    ensures refused { IfErr args (λ e.
        NotRun (error_kind e) input.old input.new output.old output.new
        (written_to E.Sink notes.old notes.new) (exit_status result)) }
    ensures ran { IfOk args (λ a.
        NotRun OutOfMemory input.old input.new output.old output.new
        (written_to E.Sink notes.old notes.new) (exit_status result)
        ⊎ ((s : Status) × HasRun (texts (drop 1 (into_iter_items a))) (run_of I.Source O.Sink E.Sink
        input.old input.new output.old output.new notes.old notes.new s) (exit_status result))) }
{
    match words_of(alloc, args) {
        Ok(words) => code_of(run_gateway(alloc, &words, input, output, notes)),
        Err(why) => code_of(without_words(why, notes)),
    }
}

/// The words of the command line: those behind the program's name.
fn words_of(alloc: Global, args: io::Result<Args>) -> Result<Vec<String>, io::ErrorKind>
    ensures words { IfOk args (λ a.
        IfOk result (λ words. words.items ≡ drop 1 (into_iter_items a))) }
    ensures memory { IfOk args (λ _. IfErr result (λ why. why ≡ OutOfMemory)) }
    ensures refused { IfErr args (λ e. result ≡ Err (error_kind e)) }
{
    match args {
        Ok(args) => match words_behind(alloc, args) {
            Ok(words) => Ok(words),
            Err(_) => Err(io::ErrorKind::OutOfMemory),
        },
        Err(error) => Err(error.kind()),
    }
}

/// The words behind the first, in their order, empty ones too.
fn words_behind(alloc: Global, mut args: Args) -> Result<Vec<String>, AllocError>
    ensures words { IfOk result (λ words. words.items ≡ drop 1 (into_iter_items args)) }
{
    let _name = args.next();
    let mut words = Vec::new(alloc);
    while let Some(word) = args.next() {
        words.push(word)?;
    }
    Ok(words)
}

/// The status where the words can't be had, with its line in the notes: there was no memory for them, or one isn't UTF-8 and so
/// no word of a job.
fn without_words<E: Sink>(why: io::ErrorKind, notes: &mut E) -> Status
    ensures status { result ≡ status_without_words why }
    ensures noted { Noted (written_to E.Sink notes.old notes.new) (line_without_words why) }
    ensures same { SameSink E.Sink notes.old notes.new }
{
    match why {
        io::ErrorKind::OutOfMemory => {
            let report = RunReport {
                end: RunEnd::OutOfMemory,
                counts: Counts::none(),
            };
            note(notes, CountLines::None, &report)
        }
        _ => note_usage(notes),
    }
}

/// What the host is told of a status.
fn code_of(status: Status) -> ExitCode
    ensures { exit_status result ≡ number_for status }
{
    ExitCode::from(number_of(status))
}
