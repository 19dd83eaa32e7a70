// The lossy line.
ghost use Rattle.std.specs.Prelude.{◌≡◌, [], cond, false, not, true};
ghost use Rattle.trial_engine.specs.Counted.{AreFew};

use crate::draws::Draws;
use crate::fate::{Fate, hold_or_pass, pass_once, pass_twice, read_fate};
use crate::tape::{Recorded, Tape};
use crate::waiting::Waiting;
use amr_io::Failed;
use rtp_packet::PacketSink;

/// The most packets that a line takes, more than a trial sends.
const MOST: u64 = 4_294_967_296;

/// A line that loses packets, delivers some twice, and holds some back, at most one at a time, by
/// the draws of a generator. What it delivers is recorded.
#[derive(Drop)]
pub(crate) struct LossyLine {
    draws: Draws,
    waiting: Waiting,
    tape: Tape,
    /// It took as many packets as it takes, and was asked to take another.
    full: bool,
    /// How many packets were put, and how many of them were lost, delivered twice, and held.
    pub sent: u64,
    pub lost: u64,
    pub doubled: u64,
    pub held: u64,
    ghost few: { AreFew sent lost doubled held tape.listener.tally.packets },
}

impl LossyLine {
    ghost use Rattle.trial_engine.specs.Lines.{Closes, IsOn};
    ghost use Rattle.trial_engine.specs.Tapes.{HasRecorded};

    /// A line on which no packet was put; the generator of the blocks begins at this number, and
    /// that of the delivery at the one behind it.
    pub fn new(seed: u64, waiting: Waiting, tape: Tape) -> LossyLine
        requires empty { waiting ≡ None }
        requires none { tape.listener.tally.packets ≡ 0 }
        requires recorded { HasRecorded tape [] }

        ensures { IsOn tape.listener.job seed result [] }
    {
        LossyLine {
            draws: Draws::new(seed.wrapping_add(1)),
            waiting,
            tape,
            full: false,
            sent: 0,
            lost: 0,
            doubled: 0,
            held: 0,
        }
    }

    /// Delivers the packet that is held, if there is one, and ends the recording.
    pub fn close(self) -> Recorded
        ensures { Closes self result }
    {
        let mut waiting = self.waiting;
        let mut tape = self.tape;
        waiting.release(&mut tape);
        tape.finish()
    }
}

impl PacketSink for LossyLine {
    ghost use Rattle.trial_engine.specs.Lines.{CarriesOn, IsFull};

    ghost ready = { λ line. not line.full };

    ghost faults = { λ line. cond line.full 1 0 };

    ghost whole = { λ line packet line'. CarriesOn line packet line' };

    ghost part = { λ line _ _. IsFull line };

    ghost same = { λ _ _. Unit {0} };

    fn put_packet(&mut self, packet: &[u8]) -> Result<(), Failed> {
        if self.sent == MOST {
            self.full = true;
            return Err(Failed);
        }
        self.sent += 1;
        match read_fate(self.draws.draw(16)) {
            Fate::Lost => {
                self.lost += 1;
                Ok(())
            }
            Fate::Twice => {
                self.doubled += 1;
                pass_twice(&mut self.waiting, &mut self.tape, packet);
                Ok(())
            }
            Fate::Held => {
                self.held += hold_or_pass(&mut self.waiting, &mut self.tape, packet);
                Ok(())
            }
            Fate::Once => {
                pass_once(&mut self.waiting, &mut self.tape, packet);
                Ok(())
            }
        }
    }

    ghost reflexive = { λ _. tt };

    ghost transitive = { λ _ _ _ _ _. tt };
}
