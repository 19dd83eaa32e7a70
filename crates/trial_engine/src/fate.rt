// What becomes of the packets of a trial.
ghost use Rattle.std.specs.Prelude.{◌≡◌, ◌+◌, ◌<◌, ◌^◌, ◌∷◌, ◌≤◌, [], length};
ghost use Rattle.spec_trial.specs.Delivery.{fate_of};
ghost use Rattle.trial_engine.specs.Fates.{HoldsOr, Passes, said};

use crate::tape::Tape;
use crate::waiting::Waiting;

/// What becomes of a packet, by the first draw that it comes with.
#[derive(Clone, Copy, Debug)]
pub(crate) enum Fate {
    /// It isn't delivered.
    Lost,
    /// It is delivered twice.
    Twice,
    /// It is held, unless another one is; else it is delivered once.
    Held,
    /// It is delivered once.
    Once,
}

/// The fate of a draw of 16.
pub(crate) fn read_fate(draw: u32) -> Fate
    ensures { said result ≡ fate_of draw }
{
    match draw {
        0 => Fate::Lost,
        1 => Fate::Twice,
        2 => Fate::Held,
        _ => Fate::Once,
    }
}

/// Delivers a packet, and then the one that is held.
pub(crate) fn pass_once(waiting: &mut Waiting, tape: &mut Tape, packet: &[u8])
    requires few { tape.old.listener.tally.packets + 1 < 2 ^ 40 }
    ensures { Passes waiting.old waiting.new tape.old tape.new (packet.now ∷ []) }
{
    tape.deliver(packet);
    waiting.release(tape);
}

/// Delivers a packet twice, and then the one that is held.
pub(crate) fn pass_twice(waiting: &mut Waiting, tape: &mut Tape, packet: &[u8])
    requires few { tape.old.listener.tally.packets + 2 < 2 ^ 40 }
    ensures { Passes waiting.old waiting.new tape.old tape.new
        (packet.now ∷ packet.now ∷ []) }
{
    tape.deliver(packet);
    pass_once(waiting, tape, packet);
}

/// Holds a packet where none is held, else delivers it and then the one that is held; and counts
/// the packets that were held by this.
pub(crate) fn hold_or_pass(waiting: &mut Waiting, tape: &mut Tape, packet: &[u8]) -> u64
    requires few { tape.old.listener.tally.packets + 1 < 2 ^ 40 }
    requires room { length packet.now ≤ 65535 }
    ensures { HoldsOr waiting.old waiting.new tape.old tape.new packet.now result }
{
    if waiting.is_held() {
        pass_once(waiting, tape, packet);
        return 0;
    }
    waiting.hold(packet);
    1
}
