// The mode desk.
ghost use Rattle.std.specs.Prelude.{◌≡◌, ◌≤◌, ◌<◌, ◌++◌, ◌∷◌, List, [], true};
ghost use Rattle.spec_modes.specs.Desk.{DeskPlan, Event, Hear, Step, desk, next_mode};
ghost use Rattle.spec_modes.specs.ModeSets.{has};

use crate::mode_set::ModeSet;
use crate::request::request_of;
use amr_frame::Codec;
use spec_modes::Request;

/// The mode that a sender would send, step by step, by the requests that it hears. It keeps to a set of modes; it may
/// change its mode at every step or at every second (RFC 4867, 8.1, mode-change-period), and then to any mode of the set
/// or to a neighbour only (mode-change-neighbor).
#[derive(Clone, Copy, Debug, PartialEq, Eq)]
pub struct ModeDesk {
    codec: Codec,
    modes: ModeSet,
    neighbor: bool,
    /// After how many steps the mode may change again, 1 or 2.
    period: u8,
    mode: u8,
    /// The mode that it moves to.
    target: u8,
    /// How many steps were made since the last at which the mode might change, 0 where it may at the next.
    turn: u8,

    ghost least: { 1 ≤ period },
    ghost most: { period ≤ 2 },
    ghost within: { turn < period },
}

impl ModeDesk {
    ghost use Rattle.amr_mode.specs.Members.{members};
    ghost use Rattle.amr_mode.specs.Standing.{StandsFor};

    /// A desk that starts at a mode of its set and may change it every `period` steps, which is 1 or 2.
    pub fn new(codec: Codec, modes: ModeSet, neighbor: bool, period: u8, start: u8) -> ModeDesk
        requires start { has (members modes) start ≡ true }
        requires least { 1 ≤ period }
        requires most { period ≤ 2 }
        ensures { StandsFor result (record {
          codec = codec;
          modes = members modes;
          neighbor = neighbor;
          period = period;
          start = start;
        }) [] }
    {
        ModeDesk {
            codec,
            modes,
            neighbor,
            period,
            mode: start,
            target: start,
            turn: 0,
        }
    }

    /// Hears a codec mode request of 4 bits. One for a mode sets the target to the greatest mode of the set that is at most
    /// that mode, where there is one; else the target stays.
    pub fn hear(&mut self, cmr: u8)
        requires { cmr ≤ 15 }
        ensures { (plan : DeskPlan) (events : List Event) → StandsFor self.old plan events
            → StandsFor self.new plan (events ++ Hear cmr ∷ []) }
    {
        if let Request::Mode(asked) = request_of(self.codec, cmr) {
            self.target = self.modes.greatest_up_to(asked, self.target);
        }
    }

    /// Makes a step, and answers the mode after it.
    pub fn step(&mut self) -> u8
        ensures stands { (plan : DeskPlan) (events : List Event) → StandsFor self.old plan events
            → StandsFor self.new plan (events ++ Step ∷ []) }
        ensures mode { (plan : DeskPlan) (events : List Event) → StandsFor self.old plan events
            → result ≡ (desk plan (events ++ Step ∷ [])).mode }
    {
        self.mode = self.next_mode();
        self.turn = (self.turn + 1) % self.period;
        self.mode
    }

    /// The mode after the next step.
    fn next_mode(&self) -> u8
        ensures { (plan : DeskPlan) (events : List Event) → StandsFor self.now plan events
            → result ≡ next_mode plan (desk plan events) }
    {
        if self.turn != 0 {
            self.mode
        } else if self.neighbor {
            self.modes.toward(self.mode, self.target)
        } else {
            self.target
        }
    }
}
