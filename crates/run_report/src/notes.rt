// The notes of a run, written to a sink.
ghost use Rattle.std.specs.Prelude.{flat_map};
ghost use Rattle.run_report.specs.Lines.{count_lines, notes_of, told_at, type_line, usage_line};
ghost use Rattle.run_report.specs.Written.{Writes};

use crate::counts::Counts;
use crate::line::{Line, gather_end, gather_record, gather_sent, gather_type, gather_usage};
use crate::report::{CountLines, RunReport};
use amr_io::{Failed, Sink, write_whole};
use refusals::RefusedType;

/// Writes the line where the words give no job.
///
/// `Failed` comes only where the sink's faults rose. A front of the line was then written.
pub fn write_usage<E: Sink>(notes: &mut E) -> Result<(), Failed>
    ensures { Writes E.Sink usage_line notes.old notes.new result }
{
    write_line(notes, &gather_usage())
}

/// Writes the notes of a run: the lines of its counts, unless it met a fault or found no memory, and the line of its end. Where
/// there is no line, the sink isn't called.
///
/// `Failed` comes only where the sink's faults rose. A front of the lines was then written, and no further line is tried.
pub fn write_notes<E: Sink>(
    notes: &mut E,
    lines: CountLines,
    report: &RunReport,
) -> Result<(), Failed>
    ensures { Writes E.Sink (notes_of lines report.now) notes.old notes.new result }
{
    match write_told(notes, lines, report) {
        Ok(()) => write_line(notes, &gather_end(report.end)),
        Err(failed) => Err(failed),
    }
}

/// Writes the lines of the counts of a run that tells them.
fn write_told<E: Sink>(notes: &mut E, lines: CountLines, report: &RunReport) -> Result<(), Failed>
    ensures { Writes E.Sink (told_at report.now.end (count_lines lines report.now.counts))
        notes.old notes.new result }
{
    if report.end.is_finished() {
        write_counts(notes, lines, &report.counts)
    } else {
        Ok(())
    }
}

/// Writes the lines of the counts of a command.
fn write_counts<E: Sink>(notes: &mut E, lines: CountLines, counts: &Counts) -> Result<(), Failed>
    ensures { Writes E.Sink (count_lines lines counts.now) notes.old notes.new result }
{
    match lines {
        CountLines::None => Ok(()),
        CountLines::Recording => write_line(notes, &gather_record(counts)),
        CountLines::Sending => write_line(notes, &gather_sent(counts)),
        CountLines::Converting => match write_line(notes, &gather_record(counts)) {
            Ok(()) => write_line(notes, &gather_sent(counts)),
            Err(failed) => Err(failed),
        },
        CountLines::Answering => write_types(notes, counts.refused.as_slice()),
    }
}

/// Writes a line for each offered payload type that doesn't suit.
fn write_types<E: Sink>(notes: &mut E, types: &[RefusedType]) -> Result<(), Failed>
    ensures { Writes E.Sink (flat_map type_line types.now) notes.old notes.new result }
{
    let [first, more @ ..] = types else {
        return Ok(());
    };
    match write_line(notes, &gather_type(first)) {
        Ok(()) => write_types(notes, more),
        Err(failed) => Err(failed),
    }
}

/// Writes a gathered line.
fn write_line<E: Sink>(notes: &mut E, line: &Line) -> Result<(), Failed>
    ensures { Writes E.Sink line.now.bytes notes.old notes.new result }
{
    write_whole(notes, line.as_str().as_bytes())
}
