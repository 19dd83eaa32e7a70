// Recording a packet log as a storage file.
ghost use Rattle.std.specs.Prelude.{◌≡◌};
ghost use Rattle.amr_gateway.specs.Jobs.{recording_meaning};
ghost use Rattle.amr_gateway.specs.Ordering.{IgnoresOrder};
ghost use Rattle.amr_gateway.specs.Returning.{ReturnsWhatIsSent};
ghost use Rattle.amr_gateway.specs.Strangers.{IgnoresStrangers};
ghost use Rattle.record_hearing.specs.Jobs.{IsServed};
ghost use Rattle.run_report.specs.Lines.{no_counts};
ghost use Rattle.spec_run.specs.Meanings.{Works, work_of};

use crate::recorder::Recorder;
use amr_io::{Sink, Source};
use amr_playout::Receiver;
use log_engine::{Gather, GatherSink, run_records};
use record_hearing::{Listener, RecordJob};
use rtp_packet::LogReader;
use run_report::{Counts, RunEnd, RunReport};
use std::alloc::Global;

/// How many octets wait at most before they are written.
const GATHERED: usize = 65536;

/// Records a packet log as a storage file: the header, and what is released of its well-formed packets.
///
/// All memory is taken before the first read: the receiver has room for each channel of each frame time of the window, and no
/// later packet is refused for memory. The run ends at the first fault of the input or the output; what it wrote then is a
/// front of the file of the whole input. The counts are those of the records at each end but a fault and want of memory.
///
/// A log that was sent for blocks, in a format of the same payloads and with no packet left out, is
/// recorded as the file of these blocks. So is what is left of it where packets carry consecutive
/// blocks and each block is in a packet that is left.
///
/// What it wrote is also the file of each log with the same records in any order and with any
/// repeats, where in both logs each well-formed packet is accepted, no block is late, and the
/// places span less than 2^31 ticks. Where no packet but the first begins a segment, it is also the
/// file of the log of the accepted packets alone.
pub fn record_log<I: Source, O: Sink>(
    alloc: Global,
    job: &RecordJob,
    input: &mut I,
    output: &mut O,
) -> RunReport
    requires served { IsServed job.now }

    ensures works { Works (recording_meaning job.now)
        (work_of I.Source O.Sink input.old input.new output.old output.new result) }
    ensures returns { ReturnsWhatIsSent job.now
        (work_of I.Source O.Sink input.old input.new output.old output.new result) }
    ensures order { IgnoresOrder job.now
        (work_of I.Source O.Sink input.old input.new output.old output.new result) }
    ensures strangers { IgnoresStrangers job.now
        (work_of I.Source O.Sink input.old input.new output.old output.new result) }
    ensures memory { result.end ≡ RunEnd.OutOfMemory
        → (input.new ≡ input.old) × (output.new ≡ output.old) }
    ensures beside { O.beside output.new ≡ O.beside output.old }
    ensures same { O.same output.old output.new }
{
    let Ok(receiver) = Receiver::create(alloc, job.plan) else {
        return no_memory();
    };
    let Ok(mut reader) = LogReader::create(alloc, job.limit) else {
        return no_memory();
    };
    let Ok(mut gather) = Gather::create(alloc, GATHERED) else {
        return no_memory();
    };
    let mut recorder = Recorder {
        listener: Listener::new(job, receiver),
    };
    let mut sink = GatherSink::new(output, &mut gather);
    let end = run_records(&mut recorder, &mut reader, input, &mut sink);
    RunReport {
        end,
        counts: recorder.listener.counts(),
    }
}

/// The report of a run for which there was no memory.
fn no_memory() -> RunReport
    ensures { result ≡ record { end = RunEnd.OutOfMemory; counts = no_counts } }
{
    RunReport {
        end: RunEnd::OutOfMemory,
        counts: Counts::none(),
    }
}
