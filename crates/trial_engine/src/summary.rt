// The summary of a trial: three lines.
ghost use Rattle.std.specs.Prelude.{◌≡◌, ◌+◌, ◌≤◌, ◌++◌, decimal, length};
ghost use Rattle.arrayvec.specs.ArrayString.{array_string_len};
ghost use Rattle.run_report.specs.Lines.{record_line};
ghost use Rattle.run_report.specs.Written.{Writes};
ghost use Rattle.trial_engine.specs.Outcomes.{made_text, sum_text, summary_text};

use crate::file_sum::FileSum;
use amr_io::{Failed, Sink, write_whole};
use arrayvec::ArrayString;
use itoa::Buffer;
use run_report::{CountLines, Counts, RunEnd, RunReport, write_notes};

/// Room for the longest line that is gathered here: five numbers with their names.
type Line = ArrayString<160>;

/// What a trial came to.
#[derive(Drop)]
pub(crate) struct Outcome {
    /// How many blocks were made.
    pub made: u64,
    /// How many packets were sent, and how many of them were lost, delivered twice, and held.
    pub sent: u64,
    pub lost: u64,
    pub doubled: u64,
    pub held: u64,
    /// What was recorded of those that were delivered.
    pub counts: Counts,
    pub file: FileSum,
}

/// Appends a number behind its name.
fn push_field(line: &mut Line, name: &str, n: u64)
    requires room { array_string_len line.old + length name.now + 20 ≤ 160 }

    ensures text { line.new.bytes ≡ line.old.bytes ++ name.now ++ decimal n }
    ensures len { array_string_len line.new ≤ array_string_len line.old + length name.now + 20 }
{
    let mut digits = Buffer::new();
    line.push_str(name);
    line.push_str(digits.format(n));
}

/// The line of the blocks and the packets.
fn gather_made(outcome: &Outcome) -> Line
    ensures { result.bytes ≡ made_text outcome.now }
{
    let mut line = ArrayString::new();
    push_field(&mut line, "made=", outcome.made);
    push_field(&mut line, " sent=", outcome.sent);
    push_field(&mut line, " lost=", outcome.lost);
    push_field(&mut line, " doubled=", outcome.doubled);
    push_field(&mut line, " held=", outcome.held);
    line.push_str("\n");
    line
}

/// The line of the file.
fn gather_sum(file: &FileSum) -> Line
    ensures { result.bytes ≡ sum_text file.now }
{
    let mut line = ArrayString::new();
    push_field(&mut line, "file=", file.count);
    push_field(&mut line, " sum=", u64::from(file.total));
    line.push_str("\n");
    line
}

/// Writes a line.
fn write_line<O: Sink>(output: &mut O, line: &Line) -> Result<(), Failed>
    ensures { Writes O.Sink line.now.bytes output.old output.new result }
{
    write_whole(output, line.as_str().as_bytes())
}

/// Writes the line of a recording.
fn write_record<O: Sink>(output: &mut O, counts: Counts) -> Result<(), Failed>
    ensures { Writes O.Sink (record_line counts) output.old output.new result }
{
    let report = RunReport {
        end: RunEnd::Done,
        counts,
    };
    write_notes(output, CountLines::Recording, &report)
}

/// Writes the summary: the line of the blocks and the packets, that of the recording of what was
/// delivered, and that of the file.
///
/// `Failed` comes only where the output's faults rose. A front of the summary was then written.
pub(crate) fn write_summary<O: Sink>(output: &mut O, outcome: Outcome) -> Result<(), Failed>
    ensures { Writes O.Sink (summary_text outcome) output.old output.new result }
{
    let file = outcome.file;
    match write_line(output, &gather_made(&outcome)) {
        Ok(()) => match write_record(output, outcome.counts) {
            Ok(()) => write_line(output, &gather_sum(&file)),
            Err(failed) => Err(failed),
        },
        Err(failed) => Err(failed),
    }
}
