// Streaming a storage file as a log of packets.
ghost use Rattle.std.specs.Prelude.{◌≡◌};
ghost use Rattle.run_report.specs.Lines.{no_counts};
ghost use Rattle.spec_run.specs.Meanings.{Works, work_of};
ghost use Rattle.spec_stream.specs.Streaming.{stream_meaning};
ghost use Rattle.stream_engine.specs.Jobs.{IsServed};

use crate::job::StreamJob;
use crate::run::run_blocks;
use amr_frame::Cell;
use amr_io::{Sink, Source};
use amr_sender::Sender;
use amr_store::StoreReader;
use log_engine::{Gather, GatherSink};
use run_report::{Counts, RunEnd, RunReport};
use std::alloc::Global;

/// How many octets wait at most before they are written.
const GATHERED: usize = 65536;

/// How many channels a file has at most (RFC 4867, 4.1).
const MOST_CHANNELS: usize = 6;

/// Streams a storage file (RFC 4867, 5) as a log of RTP packets (RFC 4571, 2): block after block is
/// read, and sent as the job's plan says.
///
/// All memory is taken before the first read; `OutOfMemory` comes only for want of it. `Done` comes
/// where the whole file was read, `LimitReached` where it has more octets than the limit, `File`
/// where it is refused: the whole blocks before are sent all the same. `ReadFault` comes only where
/// the input's faults rose, `WriteFault` only where the output's did, and the run ends there. What
/// waits is written before each read, so that at a read fault all is out that no further block
/// changes. The counts are those of the blocks read and the packets sent, at each end but a fault
/// and want of memory.
pub fn stream_file<I: Source, O: Sink>(
    alloc: Global,
    job: &StreamJob,
    input: &mut I,
    output: &mut O,
) -> RunReport
    requires served { IsServed job.now }

    ensures works { Works (stream_meaning job.now.plan job.now.limit)
        (work_of I.Source O.Sink input.old input.new output.old output.new result) }
    ensures memory { result.end ≡ RunEnd.OutOfMemory
        → (input.new ≡ input.old) × (output.new ≡ output.old) }
    ensures beside { O.beside output.new ≡ O.beside output.old }
    ensures same { O.same output.old output.new }
{
    let profile = job.plan.profile;
    let Ok(sender) = Sender::create(alloc, job.plan) else {
        return no_memory();
    };
    let Ok(reader) = StoreReader::create(alloc, profile.codec, profile.channels, job.limit) else {
        return no_memory();
    };
    let Ok(mut gather) = Gather::create(alloc, GATHERED) else {
        return no_memory();
    };
    let mut sink = GatherSink::new(output, &mut gather);
    let mut cells = [Cell::absent(); MOST_CHANNELS];
    let block = &mut cells[..usize::from(profile.channels)];
    run_blocks(sender, reader, block, input, &mut sink)
}

/// The report of a run for which there was no memory.
fn no_memory() -> RunReport
    ensures { result ≡ record { end = RunEnd.OutOfMemory; counts = no_counts } }
{
    RunReport {
        end: RunEnd::OutOfMemory,
        counts: Counts::none(),
    }
}
