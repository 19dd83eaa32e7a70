// Blocks sent as a log of packets.
ghost use Rattle.std.specs.Prelude.{◌≡◌, OnErr, OnOk, false, true};
ghost use Rattle.amr_frame.specs.Blocks.{IsPresentBlock, frames_of};
ghost use Rattle.amr_io.specs.Steps.{SinkStep};
ghost use Rattle.amr_sender.specs.Sender.{TakesBlock};
ghost use Rattle.stream_engine.specs.Sends.{SendsBlock, SendsBlockPart, SendsRest, SendsRestPart};

use amr_frame::Cell;
use amr_io::{Failed, Sink};
use amr_sender::Sender;
use rtp_packet::LogWriter;

/// Sends a block: where it is the last of a packet, the packet is written as a record of a log.
///
/// `Failed` comes only where the output's faults rose. A front of the record was then written, and
/// the sender is spent.
pub fn send_block<O: Sink>(
    sender: &mut Sender,
    cells: &[Cell],
    output: &mut O,
) -> Result<(), Failed>
    requires takes { TakesBlock sender.old }
    requires block { IsPresentBlock sender.old.plan.profile.codec sender.old.plan.profile.channels
        cells.now }

    ensures sent { OnOk result (SendsBlock sender.old sender.new (frames_of cells.now)
        (O.got output.old) (O.got output.new)) }
    ensures part { OnErr result (SendsBlockPart sender.old (frames_of cells.now)
        (O.got output.old) (O.got output.new)) }
    ensures unspent { OnOk result (sender.new.spent ≡ false) }
    ensures spent { OnErr result (sender.new.spent ≡ true) }
    ensures plan { sender.new.plan ≡ sender.old.plan }
    ensures step { SinkStep O.Sink output.old output.new result }
{
    let mut log = LogWriter::new(output);
    sender.put_block(cells, &mut log)
}

/// Sends the blocks that are left of a stream, where there are any, and ends the sender.
///
/// `Failed` comes only where the output's faults rose. A front of their record was then written.
pub fn send_rest<O: Sink>(sender: &mut Sender, output: &mut O) -> Result<(), Failed>
    requires unspent { sender.old.spent ≡ false }

    ensures sent { OnOk result (SendsRest sender.old sender.new
        (O.got output.old) (O.got output.new)) }
    ensures part { OnErr result (SendsRestPart sender.old
        (O.got output.old) (O.got output.new)) }
    ensures spent { sender.new.spent ≡ true }
    ensures plan { sender.new.plan ≡ sender.old.plan }
    ensures step { SinkStep O.Sink output.old output.new result }
{
    let mut log = LogWriter::new(output);
    sender.finish(&mut log)
}
