// The steps of a run: the header, a turn for each block, and the close.
ghost use Rattle.std.specs.Prelude.{◌≡◌, ◌≢◌, ◌+◌, ◌<◌, ℕ, [], List, None, OnErr, OnOk, Some, false, length};
ghost use Rattle.amr_sender.specs.Sender.{TakesBlock};
ghost use Rattle.amr_store.specs.Reading.{IsFresh, channels_of, given};
ghost use Rattle.log_engine.specs.Turns.{SameSink, TurnFaults, WaitStep, logical, sent};
ghost use Rattle.run_report.specs.declared.end.RunEnd.{RunEnd};
ghost use Rattle.spec_run.specs.Flows.{Calm, Flow, read_from};
ghost use Rattle.spec_sending.specs.declared.plan.SendPlan.{SendPlan};
ghost use Rattle.stream_engine.specs.Progress.{Start, Turned, Underway, state};
ghost use Rattle.stream_engine.specs.Reading.{Begun, IsFor, IsReading, MayRead, stop_by};
ghost use Rattle.stream_engine.specs.Sends.{CloseStep, SendsRest, SendsRestPart};

use crate::send::{send_block, send_rest};
use amr_frame::Cell;
use amr_io::{Failed, Sink, Source};
use amr_sender::Sender;
use amr_store::{Step, StoreReader};
use log_engine::GatherSink;
use run_report::RunEnd;

/// How a run ends on an answer of the reader; it goes on where the header was read or a block came.
fn end_on(answer: Result<Step, Failed>) -> Option<RunEnd>
    ensures { result ≡ stop_by answer }
{
    match answer {
        Ok(Step::Ready) => None,
        Ok(Step::End) => Some(RunEnd::Done),
        Ok(Step::Refused(why)) => Some(RunEnd::File(why)),
        Ok(Step::OverLimit) => Some(RunEnd::LimitReached),
        Err(_) => Some(RunEnd::ReadFault),
    }
}

/// Reads the header. Where the file has no header of its format, it says how the run ends.
pub(crate) fn begin<I: Source>(reader: &mut StoreReader, input: &mut I) -> Option<RunEnd>
    requires fresh { IsFresh reader.old }

    ensures begun { (s : SendPlan) (limit : ℕ) → IsFor s limit reader.old
        → Begun I.Source s limit input.old input.new reader.new result }
    ensures faults { (output : Flow) → Calm output
        → TurnFaults result (read_from I.Source input.old input.new) output }
{
    end_on(reader.begin(input))
}

/// Writes what waits, unless the octets held show the next block already.
pub(crate) fn make_way<O: Sink>(
    reader: &StoreReader,
    sink: &mut GatherSink<'_, O>,
) -> Result<(), Failed>
    ensures way { OnOk result (MayRead reader.now sink.new) }
    ensures step { WaitStep O.Sink sink.old sink.new result }
{
    if reader.holds_answer() {
        return Ok(());
    }
    sink.flush()
}

/// Reads the next block and sends it. Where none comes, or a write fails, it says how the run ends.
pub(crate) fn send_next<I: Source, O: Sink>(
    sender: &mut Sender,
    reader: &mut StoreReader,
    cells: &mut [Cell],
    input: &mut I,
    sink: &mut GatherSink<'_, O>,
) -> Option<RunEnd>
    requires takes { TakesBlock sender.old }
    requires reading { IsReading sender.old.plan reader.old }
    requires cells { length cells.old ≡ channels_of reader.old }

    ensures turned { (start : Start) → Underway I.Source O.Sink start
        (state sender.old reader.old input.old sink.old) → MayRead reader.old sink.old
        → Turned I.Source O.Sink start (state sender.new reader.new input.new sink.new) result }
    ensures counted { result ≡ None → (sender.new.blocks ≡ sender.old.blocks + 1)
        × (given reader.old < given reader.new) }
    ensures idle { (end : RunEnd) → result ≡ Some end → end ≢ RunEnd.WriteFault
        → sender.new ≡ sender.old }
    ensures cells { length cells.new ≡ length cells.old }
    ensures same { SameSink O.Sink sink.old sink.new }
    ensures faults { TurnFaults result (read_from I.Source input.old input.new)
        (sent O.Sink sink.old sink.new) }
{
    if let Some(end) = end_on(reader.next_block(input, cells)) {
        return Some(end);
    }
    match send_block(sender, cells, sink) {
        Ok(()) => None,
        Err(_) => Some(RunEnd::WriteFault),
    }
}

/// Sends what is left of the blocks, and writes all.
pub(crate) fn close<O: Sink>(
    sender: &mut Sender,
    sink: &mut GatherSink<'_, O>,
) -> Result<(), Failed>
    requires unspent { sender.old.spent ≡ false }

    ensures sent { OnOk result (SendsRest sender.old sender.new
        (logical O.got sink.old) (logical O.got sink.new)) }
    ensures part { OnErr result (SendsRestPart sender.old
        (logical O.got sink.old) (logical O.got sink.new)) }
    ensures empty { OnOk result (sink.new.gather.now.waiting ≡ []) }
    ensures step { CloseStep O.Sink sink.old sink.new result }
{
    send_rest(sender, sink)?;
    sink.flush()
}
