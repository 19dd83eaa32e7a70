// A run over the records of a log.
ghost use Rattle.std.specs.Prelude.{◌≡◌, ◌≢◌, ◌^◌, ◌≤◌, []};
ghost use Rattle.log_engine.specs.Progress.{After};
ghost use Rattle.log_engine.specs.Turns.{AtStart, SameSink, Steady, sent, state};
ghost use Rattle.rtp_packet.specs.Reading.{IsFresh, limit_of};
ghost use Rattle.spec_run.specs.Flows.{FaultsOf, read_from};
ghost use Rattle.spec_run.specs.LogRuns.{log_meaning};
ghost use Rattle.spec_run.specs.Meanings.{Works, work_of};

use crate::gather_sink::GatherSink;
use crate::handler::RecordHandler;
use crate::turns::{begin, close, handle_next, make_way};
use amr_io::{Sink, Source};
use rtp_packet::LogReader;
use run_report::RunEnd;

/// Handles records until no more comes, and says how the run ends unless its close fails.
fn handle_all<I: Source, O: Sink, H: RecordHandler>(
    handler: &mut H,
    reader: &mut LogReader,
    input: &mut I,
    sink: &mut GatherSink<'_, O>,
) -> RunEnd
    requires start { AtStart H.RecordHandler
        (state handler.old reader.old input.old sink.old) }

    ensures after { After H.RecordHandler I.Source O.Sink
        (state handler.old reader.old input.old sink.old)
        (state handler.new reader.new input.new sink.new) result }
    ensures ready { result ≢ RunEnd.WriteFault → H.ready handler.new }
    ensures steady { Steady H.RecordHandler O.Sink handler.old handler.new sink.old sink.new }
    ensures faults { FaultsOf result (read_from I.Source input.old input.new)
        (sent O.Sink sink.old sink.new) }
{
    if let Err(_) = begin(handler, sink) {
        return RunEnd::WriteFault;
    }
    'records: loop {
        if let Err(_) = make_way(reader, sink) {
            return RunEnd::WriteFault;
        }
        if let Some(end) = handle_next(handler, reader, input, sink) {
            return end;
        }
    }
}

/// Reads the records of a log to the end, at most so many octets as `reader` allows, and puts out
/// what `handler` makes of them.
///
/// What waits in `sink` is written before each read, so that at a fault all is out that belongs to
/// the octets read before those that the reader holds. No memory is taken. `ReadFault` comes only
/// where the input's faults rose, `WriteFault` only where the output's did, and the run ends there.
/// `LimitReached` comes where the log has more octets than the limit, else `LogCut` where it ends
/// inside a record, else `Done`: the handler has then ended, and counted all.
pub fn run_records<I: Source, O: Sink, H: RecordHandler>(
    handler: &mut H,
    reader: &mut LogReader,
    input: &mut I,
    sink: &mut GatherSink<'_, O>,
) -> RunEnd
    requires handler { H.fresh handler.old }
    requires fresh { IsFresh reader.old }
    requires limit { limit_of reader.old ≤ 2 ^ 40 }
    requires empty { sink.old.gather.now.waiting ≡ [] }

    ensures works { Works (log_meaning (limit_of reader.old) (H.job handler.old)) (work_of I.Source
        O.Sink input.old input.new sink.old.output.now sink.new.output.now
        (record { end = result; counts = H.counts handler.new })) }
    ensures never_memory { result ≢ RunEnd.OutOfMemory }
    ensures job { H.job handler.new ≡ H.job handler.old }
    ensures same { SameSink O.Sink sink.old sink.new }
{
    match handle_all(handler, reader, input, sink) {
        RunEnd::ReadFault => RunEnd::ReadFault,
        RunEnd::WriteFault => RunEnd::WriteFault,
        end => match close(handler, sink) {
            Ok(()) => end,
            Err(_) => RunEnd::WriteFault,
        },
    }
}
