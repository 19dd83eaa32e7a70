// A run over the blocks of a storage file.
ghost use Rattle.std.specs.Prelude.{◌≡◌, ◌≢◌, ◌≤◌, ◌^◌, [], false, length};
ghost use Rattle.amr_store.specs.Reading.{channels_of, limit_of};
ghost use Rattle.log_engine.specs.Turns.{SameSink, sent};
ghost use Rattle.run_report.specs.Lines.{no_counts};
ghost use Rattle.spec_run.specs.Flows.{FaultsOf, read_from};
ghost use Rattle.spec_run.specs.Meanings.{Works, work_of};
ghost use Rattle.spec_stream.specs.Streaming.{stream_meaning};
ghost use Rattle.stream_engine.specs.Progress.{After, MayStart, start_of, state};

use crate::held::send_held;
use crate::turns::{begin, close, make_way, send_next};
use amr_frame::Cell;
use amr_io::{Sink, Source};
use amr_sender::Sender;
use amr_store::StoreReader;
use log_engine::GatherSink;
use run_report::{Counts, RunEnd, RunReport};

/// How a run ends unless its close fails, and how many blocks were sent.
#[derive(Clone, Copy, Debug)]
struct Stop {
    end: RunEnd,
    blocks: u64,
}

/// Sends the blocks of a file until no more comes: those that are held where they stand, and else
/// one by one.
fn send_blocks<I: Source, O: Sink>(
    sender: &mut Sender,
    reader: &mut StoreReader,
    cells: &mut [Cell],
    input: &mut I,
    sink: &mut GatherSink<'_, O>,
) -> Stop
    requires start { MayStart sender.old reader.old sink.old }
    requires cells { length cells.old ≡ channels_of reader.old }

    ensures after { After I.Source O.Sink
        (start_of I.Source O.Sink (state sender.old reader.old input.old sink.old))
        (state sender.new reader.new input.new sink.new) result.end }
    ensures blocks { result.end ≢ RunEnd.WriteFault → result.blocks ≡ sender.new.blocks }
    ensures unspent { result.end ≢ RunEnd.WriteFault → sender.new.spent ≡ false }
    ensures same { SameSink O.Sink sink.old sink.new }
    ensures faults { FaultsOf result.end (read_from I.Source input.old input.new)
        (sent O.Sink sink.old sink.new) }
{
    let mut blocks = 0;
    if let Some(end) = begin(reader, input) {
        return Stop { end, blocks };
    }
    'file: loop {
        blocks += send_held(sender, reader, sink);
        if let Err(_) = make_way(reader, sink) {
            let end = RunEnd::WriteFault;
            return Stop { end, blocks };
        }
        if let Some(end) = send_next(sender, reader, cells, input, sink) {
            return Stop { end, blocks };
        }
        blocks += 1;
    }
}

/// The report of a run that ended so, with so many blocks read and packets sent.
fn report(end: RunEnd, blocks: u64, sent: u64) -> RunReport
    ensures { result ≡ record {
      end = end;
      counts = record no_counts { blocks = blocks; sent = sent };
    } }
{
    RunReport {
        end,
        counts: Counts {
            blocks,
            sent,
            ..Counts::none()
        },
    }
}

/// Reads the blocks of a file to the end, sends them, and says how the run ended.
pub(crate) fn run_blocks<I: Source, O: Sink>(
    mut sender: Sender,
    mut reader: StoreReader,
    cells: &mut [Cell],
    input: &mut I,
    sink: &mut GatherSink<'_, O>,
) -> RunReport
    requires start { MayStart sender reader sink.old }
    requires cells { length cells.old ≡ channels_of reader }

    ensures works { Works (stream_meaning sender.plan (limit_of reader)) (work_of I.Source O.Sink
        input.old input.new sink.old.output.now sink.new.output.now result) }
    ensures never_memory { result.end ≢ RunEnd.OutOfMemory }
    ensures same { SameSink O.Sink sink.old sink.new }
{
    let stop = send_blocks(&mut sender, &mut reader, cells, input, sink);
    match stop.end {
        RunEnd::ReadFault => report(RunEnd::ReadFault, stop.blocks, sender.packets()),
        RunEnd::WriteFault => report(RunEnd::WriteFault, stop.blocks, sender.packets()),
        end => match close(&mut sender, sink) {
            Ok(()) => report(end, stop.blocks, sender.packets()),
            Err(_) => report(RunEnd::WriteFault, stop.blocks, sender.packets()),
        },
    }
}
