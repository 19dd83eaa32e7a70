// What sends the blocks that are put to it.
ghost use Rattle.std.specs.Prelude.{◌≡◌, not};

use amr_frame::{BlockSink, Cell};
use amr_io::{Failed, Sink};
use amr_sender::Sender;
use stream_engine::send_block;

/// Sends the blocks that are put to it, and writes the packets to a sink as a log (RFC 4571, 2).
#[derive(Drop)]
pub(crate) struct BlockSender<'a, O> {
    pub sender: &'a mut Sender,
    pub output: &'a mut O,
}

impl<'a, O: Sink> BlockSender<'a, O> {
    /// It goes on behind the blocks that the sender got and behind what the output got.
    pub fn new(sender: &'a mut Sender, output: &'a mut O) -> BlockSender<'a, O>
        ensures same_sender { result.sender.ghost_name ≡ sender.entry.ghost_name }
        ensures same_output { result.output.ghost_name ≡ output.entry.ghost_name }
        ensures sender { result.sender.now ≡ sender.old }
        ensures output { result.output.now ≡ output.old }
    {
        BlockSender { sender, output }
    }
}

impl<'a, O: Sink> BlockSink for BlockSender<'a, O> {
    ghost use Rattle.convert_engine.specs.BlockSending.{Puts, PutsPart, Stays};
    ghost use Rattle.convert_engine.specs.BlockLaws.{itself, through};

    ghost codec = { λ s. s.sender.now.plan.profile.codec };

    ghost channels = { λ s. s.sender.now.plan.profile.channels };

    ghost ready = { λ s. not s.sender.now.spent };

    ghost faults = { λ s. O.faults s.output.now };

    ghost whole = { λ s block t. Puts O.Sink s block t };

    ghost part = { λ s block t. PutsPart O.Sink s block t };

    ghost same = { λ s t. Stays O.beside O.same s t };

    /// Where the sender takes no more blocks, the block is passed over: a caller sees to it that
    /// fewer blocks come.
    #[inline(always)]
    fn put_block(&mut self, cells: &[Cell]) -> Result<(), Failed> {
        if !self.sender.takes_block() {
            return Ok(());
        }
        send_block(self.sender, cells, self.output)
    }

    ghost reflexive = { λ s. itself O.beside O.same O.reflexive s };

    ghost transitive = { λ a b c p q. through O.beside O.same O.transitive a b c p q };
}
