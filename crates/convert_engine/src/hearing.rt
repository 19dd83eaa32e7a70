// Records heard, and the blocks that go out on them sent.
ghost use Rattle.std.specs.Prelude.{◌≡◌, ◌<◌, ◌^◌, OnErr, OnOk, false};
ghost use Rattle.amr_io.specs.Steps.{SinkStep};
ghost use Rattle.convert_engine.specs.Converts.{Closes, ClosesPart, Converts, ConvertsPart, Releases, ReleasesPart};
ghost use Rattle.convert_engine.specs.Jobs.{CanSend};
ghost use Rattle.record_hearing.specs.Going.{IsGoing};

use crate::block_sender::BlockSender;
use amr_io::{Failed, Sink};
use amr_sender::Sender;
use record_hearing::Listener;
use stream_engine::send_rest;

/// Hears the next record of a log, and sends the blocks that go out on it.
///
/// `Failed` comes only where the output's faults rose. A part of their packets was then put out.
pub(crate) fn convert_record<O: Sink>(
    listener: &mut Listener,
    sender: &mut Sender,
    octets: &[u8],
    output: &mut O,
) -> Result<(), Failed>
    requires going { IsGoing listener.old.receiver listener.old.tally }
    requires few { listener.old.tally.packets < 2 ^ 40 }
    requires unspent { sender.old.spent ≡ false }
    requires sends { CanSend listener.old.job sender.old.plan }

    ensures done { OnOk result (Converts listener.old listener.new sender.old sender.new octets.now
        (O.got output.old) (O.got output.new)) }
    ensures part { OnErr result (ConvertsPart listener.old sender.old octets.now
        (O.got output.old) (O.got output.new)) }
    ensures unspent { OnOk result (sender.new.spent ≡ false) }
    ensures job { listener.new.job ≡ listener.old.job }
    ensures plan { sender.new.plan ≡ sender.old.plan }
    ensures step { SinkStep O.Sink output.old output.new result }
{
    let mut blocks = BlockSender::new(sender, output);
    listener.hear(octets, &mut blocks)
}

/// Ends the session after the last record, and sends the blocks that it still held.
///
/// `Failed` comes only where the output's faults rose. A part of their packets was then put out.
fn release_rest<O: Sink>(
    listener: &mut Listener,
    sender: &mut Sender,
    output: &mut O,
) -> Result<(), Failed>
    requires going { IsGoing listener.old.receiver listener.old.tally }
    requires unspent { sender.old.spent ≡ false }
    requires sends { CanSend listener.old.job sender.old.plan }

    ensures done { OnOk result (Releases listener.old listener.new sender.old sender.new
        (O.got output.old) (O.got output.new)) }
    ensures part { OnErr result (ReleasesPart listener.old sender.old
        (O.got output.old) (O.got output.new)) }
    ensures unspent { OnOk result (sender.new.spent ≡ false) }
    ensures job { listener.new.job ≡ listener.old.job }
    ensures plan { sender.new.plan ≡ sender.old.plan }
    ensures step { SinkStep O.Sink output.old output.new result }
{
    let mut blocks = BlockSender::new(sender, output);
    listener.finish(&mut blocks)
}

/// Sends what is left after the last record, and ends the session and the sender.
///
/// `Failed` comes only where the output's faults rose. A part of the packets was then put out.
pub(crate) fn close<O: Sink>(
    listener: &mut Listener,
    sender: &mut Sender,
    output: &mut O,
) -> Result<(), Failed>
    requires going { IsGoing listener.old.receiver listener.old.tally }
    requires unspent { sender.old.spent ≡ false }
    requires sends { CanSend listener.old.job sender.old.plan }

    ensures done { OnOk result (Closes listener.old listener.new sender.old sender.new
        (O.got output.old) (O.got output.new)) }
    ensures part { OnErr result (ClosesPart listener.old sender.old
        (O.got output.old) (O.got output.new)) }
    ensures job { listener.new.job ≡ listener.old.job }
    ensures plan { sender.new.plan ≡ sender.old.plan }
    ensures step { SinkStep O.Sink output.old output.new result }
{
    release_rest(listener, sender, output)?;
    send_rest(sender, output)
}
