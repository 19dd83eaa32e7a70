// Listing a packet log.
ghost use Rattle.std.specs.Prelude.{◌≡◌};
ghost use Rattle.list_engine.specs.Jobs.{IsServed, listing_meaning};
ghost use Rattle.run_report.specs.Lines.{no_counts};
ghost use Rattle.spec_run.specs.Meanings.{Works, work_of};

use crate::job::ListJob;
use crate::line::Line;
use crate::lister::Lister;
use amr_io::{Sink, Source};
use amr_mode::ModeDesk;
use log_engine::{Gather, GatherSink, run_records};
use rtp_packet::LogReader;
use run_report::{Counts, RunEnd, RunReport};
use std::alloc::Global;

/// How many octets wait at most before they are written.
const GATHERED: usize = 65536;

/// Lists a packet log (RFC 4571, 2): for each record a line with its number, its length, and what
/// it says or why it is refused, and, where the job asks for them, a line for the bits of each
/// frame.
///
/// One mode desk stands for the whole run: it hears the request of each payload that is read, makes
/// a step, and the line tells its mode. All memory is taken before the first read; `OutOfMemory`
/// comes only for want of it. `Done` comes where the whole log was listed, `LimitReached` where it
/// has more octets than the limit, `LogCut` where it ends inside a record: the whole records before
/// are listed all the same. `ReadFault` comes only where the input's faults rose, `WriteFault` only
/// where the output's did, and the run ends there. What waits is written before each read. Nothing
/// is counted.
pub fn list_log<I: Source, O: Sink>(
    alloc: Global,
    job: &ListJob,
    input: &mut I,
    output: &mut O,
) -> RunReport
    requires served { IsServed job.now }

    ensures works { Works (listing_meaning job.now)
        (work_of I.Source O.Sink input.old input.new output.old output.new result) }
    ensures memory { result.end ≡ RunEnd.OutOfMemory
        → (input.new ≡ input.old) × (output.new ≡ output.old) }
    ensures beside { O.beside output.new ≡ O.beside output.old }
    ensures same { O.same output.old output.new }
{
    let Ok(line) = Line::create(alloc) else {
        return ended(RunEnd::OutOfMemory);
    };
    let Ok(mut reader) = LogReader::create(alloc, job.limit) else {
        return ended(RunEnd::OutOfMemory);
    };
    let Ok(mut gather) = Gather::create(alloc, GATHERED) else {
        return ended(RunEnd::OutOfMemory);
    };
    let desk = ModeDesk::new(
        job.profile.codec,
        job.modes,
        job.neighbor,
        job.period,
        job.start,
    );
    let mut lister = Lister {
        job: *job,
        desk,
        line,
        count: 0,
    };
    let mut sink = GatherSink::new(output, &mut gather);
    let end = run_records(&mut lister, &mut reader, input, &mut sink);
    ended(end)
}

/// The report of a run that ended so.
fn ended(end: RunEnd) -> RunReport
    ensures { result ≡ record { end = end; counts = no_counts } }
{
    RunReport {
        end,
        counts: Counts::none(),
    }
}
