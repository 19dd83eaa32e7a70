// Converting a packet log.
ghost use Rattle.std.specs.Prelude.{◌≡◌};
ghost use Rattle.convert_engine.specs.Jobs.{IsServed, converting_meaning};
ghost use Rattle.run_report.specs.Lines.{no_counts};
ghost use Rattle.spec_run.specs.Meanings.{Works, work_of};

use crate::converter::Converter;
use crate::job::ConvertJob;
use amr_io::{Sink, Source};
use amr_playout::Receiver;
use amr_sender::Sender;
use log_engine::{Gather, GatherSink, run_records};
use record_hearing::Listener;
use rtp_packet::LogReader;
use run_report::{Counts, RunEnd, RunReport};
use std::alloc::Global;

/// How many octets wait at most before they are written.
const GATHERED: usize = 65536;

/// Converts a log of RTP packets (RFC 4571, 2): what is released of its well-formed packets is sent
/// again, as the job's other plan says.
///
/// The blocks go from the receiver to the sender as they are released, and a gap between them is
/// filled with NO_DATA. All memory is taken before the first read; `OutOfMemory` comes only for
/// want of it. `Done` comes where the whole log was read, `LimitReached` where it has more octets
/// than the limit, `LogCut` where it ends inside a record: what is released of the whole records
/// before is sent all the same. `ReadFault` comes only where the input's faults rose, `WriteFault`
/// only where the output's did, and the run ends there. What waits is written before each read, so
/// that at a read fault all is out that no further record changes. The counts are those of the
/// records and the packets sent, at each end but a fault and want of memory.
pub fn convert_log<I: Source, O: Sink>(
    alloc: Global,
    job: &ConvertJob,
    input: &mut I,
    output: &mut O,
) -> RunReport
    requires served { IsServed job.now }

    ensures works { Works (converting_meaning job.now)
        (work_of I.Source O.Sink input.old input.new output.old output.new result) }
    ensures memory { result.end ≡ RunEnd.OutOfMemory
        → (input.new ≡ input.old) × (output.new ≡ output.old) }
    ensures beside { O.beside output.new ≡ O.beside output.old }
    ensures same { O.same output.old output.new }
{
    let Ok(receiver) = Receiver::create(alloc, job.plan) else {
        return no_memory();
    };
    let Ok(sender) = Sender::create(alloc, job.to) else {
        return no_memory();
    };
    let Ok(mut reader) = LogReader::create(alloc, job.limit) else {
        return no_memory();
    };
    let Ok(mut gather) = Gather::create(alloc, GATHERED) else {
        return no_memory();
    };
    let mut converter = Converter {
        listener: Listener::new(&job.hearing(), receiver),
        sender,
    };
    let mut sink = GatherSink::new(output, &mut gather);
    let end = run_records(&mut converter, &mut reader, input, &mut sink);
    RunReport {
        end,
        counts: converter.counts(),
    }
}

/// The report of a run for which there was no memory.
fn no_memory() -> RunReport
    ensures { result ≡ record { end = RunEnd.OutOfMemory; counts = no_counts } }
{
    RunReport {
        end: RunEnd::OutOfMemory,
        counts: Counts::none(),
    }
}
