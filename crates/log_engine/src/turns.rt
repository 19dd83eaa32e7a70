// The steps of a run: its beginning, a turn for each record, and its close.
ghost use Rattle.std.specs.Prelude.{◌≡◌, ◌≢◌, ℕ, ◌+◌, ◌^◌, ◌<◌, ◌⊎◌, List, [], None, Some, OnOk, OnErr};
ghost use Rattle.std.specs.Io.KnownBytes.{Appends};
ghost use Rattle.log_engine.specs.Puts.{Puts, PutsPart};
ghost use Rattle.log_engine.specs.Turns.{HandlerStep, Steady, TurnFaults, Turned, WaitStep, logical, sent, state};
ghost use Rattle.rtp_packet.specs.Reading.{IsOpen, rest};
ghost use Rattle.rtp_packet.specs.Record.{IsWhole};
ghost use Rattle.spec_run.specs.Flows.{read_from};

use crate::gather_sink::GatherSink;
use crate::handler::RecordHandler;
use amr_io::{Failed, Sink, Source};
use rtp_packet::{LogReader, Next};
use run_report::RunEnd;

/// Puts out what comes before all records, and writes it.
pub(crate) fn begin<O: Sink, H: RecordHandler>(
    handler: &mut H,
    sink: &mut GatherSink<'_, O>,
) -> Result<(), Failed>
    requires fresh { H.fresh handler.old }

    ensures ready { OnOk result (H.ready handler.new × (H.handled handler.new ≡ 0)) }
    ensures done { OnOk result (H.stands handler.new []
        × Appends (logical O.got sink.old) (logical O.got sink.new)
        ((H.job handler.old).early [])) }
    ensures failed { OnErr result (PutsPart (logical O.got sink.old) (logical O.got sink.new) []
        ((H.job handler.old).early [])) }
    ensures step { HandlerStep H.RecordHandler O.Sink handler.old handler.new sink.old sink.new
        result }
{
    handler.begin(sink)?;
    sink.flush()
}

/// Writes what waits, unless the next record is held already.
pub(crate) fn make_way<O: Sink>(
    reader: &LogReader,
    sink: &mut GatherSink<'_, O>,
) -> Result<(), Failed>
    ensures ready { OnOk result (IsWhole (rest reader.now) ⊎ (sink.new.gather.now.waiting ≡ [])) }
    ensures step { WaitStep O.Sink sink.old sink.new result }
{
    if reader.holds_record() {
        return Ok(());
    }
    sink.flush()
}

/// Handles the next record. Where none comes, or a write fails, it says how the run ends.
pub(crate) fn handle_next<I: Source, O: Sink, H: RecordHandler>(
    handler: &mut H,
    reader: &mut LogReader,
    input: &mut I,
    sink: &mut GatherSink<'_, O>,
) -> Option<RunEnd>
    requires unended { IsOpen reader.old }
    requires ready { H.ready handler.old }
    requires few { H.handled handler.old < 2 ^ 40 }

    ensures counted { result ≡ None → H.handled handler.new ≡ H.handled handler.old + 1 }
    ensures ready { result ≢ Some RunEnd.WriteFault → H.ready handler.new }
    ensures turned { Turned H.RecordHandler I.Source O.Sink
        (state handler.old reader.old input.old sink.old)
        (state handler.new reader.new input.new sink.new) result }
    ensures steady { Steady H.RecordHandler O.Sink handler.old handler.new sink.old sink.new }
    ensures faults { TurnFaults result (read_from I.Source input.old input.new)
        (sent O.Sink sink.old sink.new) }
{
    match reader.next(input) {
        Ok(Next::Packet(packet)) => match handler.handle(packet, sink) {
            Ok(()) => None,
            Err(_) => Some(RunEnd::WriteFault),
        },
        Ok(Next::Null) => match handler.handle(b"", sink) {
            Ok(()) => None,
            Err(_) => Some(RunEnd::WriteFault),
        },
        Ok(Next::End) => Some(RunEnd::Done),
        Ok(Next::Truncated { have }) => Some(RunEnd::LogCut { have }),
        Ok(Next::OverLimit) => Some(RunEnd::LimitReached),
        Err(_) => Some(RunEnd::ReadFault),
    }
}

/// Puts out the rest, and writes all.
pub(crate) fn close<O: Sink, H: RecordHandler>(
    handler: &mut H,
    sink: &mut GatherSink<'_, O>,
) -> Result<(), Failed>
    requires ready { H.ready handler.old }

    ensures done { OnOk result ((hs : List (List ℕ)) → H.stands handler.old hs
        → (H.counts handler.new ≡ (H.job handler.old).counts hs)
        × Puts (logical O.got sink.old) (logical O.got sink.new)
        ((H.job handler.old).early hs) ((H.job handler.old).whole hs)) }
    ensures failed { OnErr result ((hs : List (List ℕ)) → H.stands handler.old hs
        → PutsPart (logical O.got sink.old) (logical O.got sink.new)
        ((H.job handler.old).early hs) ((H.job handler.old).whole hs)) }
    ensures step { HandlerStep H.RecordHandler O.Sink handler.old handler.new sink.old sink.new
        result }
{
    handler.end(sink)?;
    sink.flush()
}
