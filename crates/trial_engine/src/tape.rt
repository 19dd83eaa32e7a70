// What is recorded of the packets that are delivered.
ghost use Rattle.std.specs.Prelude.{◌≡◌, ◌<◌, ◌∷◌, ◌^◌, []};
ghost use Rattle.std.proofs.Props.{props};
ghost use Rattle.record_hearing.specs.Going.{IsGoing, IsServedBy};
ghost use Rattle.trial_engine.specs.Props.{IsWithin-prop};

use crate::file_sum::FileSum;
use amr_playout::Receiver;
use record_hearing::{Listener, RecordJob};
use run_report::Counts;

/// Hears the packets that are delivered, and adds up the storage file of the blocks that go out on
/// each.
#[derive(Drop)]
pub(crate) struct Tape {
    pub listener: Listener,
    pub file: FileSum,
    ghost going: { IsGoing listener.receiver listener.tally } by { Prim.hlevel (props, IsWithin-prop) },
    ghost codec: { file.codec ≡ listener.job.plan.profile.codec },
    ghost channels: { file.channels ≡ listener.job.plan.profile.channels },
}

/// What was recorded in all: the counts of the recording, and the sum of its file.
#[derive(Drop)]
pub(crate) struct Recorded {
    pub counts: Counts,
    pub file: FileSum,
}

impl Tape {
    ghost use Rattle.trial_engine.specs.Tapes.{Delivers, Ends, HasRecorded, IsFresh};

    /// A tape on which nothing is recorded.
    pub fn new(job: &RecordJob, receiver: Receiver) -> Tape
        requires served { IsServedBy job.now receiver }
        requires fresh { IsFresh receiver }

        ensures recorded { HasRecorded result [] }
        ensures job { result.listener.job ≡ job.now }
        ensures none { result.listener.tally.packets ≡ 0 }
    {
        let profile = &job.plan.profile;
        Tape {
            listener: Listener::new(job, receiver),
            file: FileSum::new(profile.codec, profile.channels),
        }
    }

    /// Hears a packet, and adds the blocks that go out on it.
    pub fn deliver(&mut self, packet: &[u8])
        requires few { self.old.listener.tally.packets < 2 ^ 40 }
        ensures { Delivers self.old self.new (packet.now ∷ []) }
    {
        let Ok(()) = self.listener.hear(packet, &mut self.file) else {
            unreachable!()
        };
    }

    /// Ends the recording: adds the blocks that were held, and tells all that was counted.
    pub fn finish(self) -> Recorded
        ensures { Ends self result }
    {
        let mut listener = self.listener;
        let mut file = self.file;
        let Ok(()) = listener.finish(&mut file) else {
            unreachable!()
        };
        Recorded {
            counts: listener.counts(),
            file,
        }
    }
}
