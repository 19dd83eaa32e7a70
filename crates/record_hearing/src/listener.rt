// What hears the records of a log one after another.
ghost use Rattle.std.specs.Prelude.{◌≡◌, ◌<◌, ◌^◌, OnErr, OnOk, false};
ghost use Rattle.amr_frame.specs.Steps.{BlockStep};
ghost use Rattle.amr_playout.specs.Gains.{Gains, GainsPart};
ghost use Rattle.amr_playout.specs.Steps.{TakesPlan};
ghost use Rattle.record_hearing.specs.Going.{IsGoing, IsServedBy};
ghost use Rattle.record_hearing.specs.Tallies.{counted_in_all};
ghost use Rattle.run_report.specs.Lines.{no_counts};

use crate::hear::{end_session, hear};
use crate::heard::count;
use crate::job::RecordJob;
use amr_frame::BlockSink;
use amr_io::Failed;
use amr_playout::Receiver;
use arrayvec::ArrayVec;
use run_report::Counts;

/// Hears the records of a log: a receiver brings the frames of their packets into order, and the records are counted.
#[derive(Drop)]
pub struct Listener {
    pub job: RecordJob,
    pub receiver: Receiver,
    /// What was counted of the records; what the receiver counts isn't among it.
    pub tally: Counts,
    ghost served: { IsServedBy job receiver },
}

impl Listener {
    ghost use Rattle.record_hearing.specs.Listening.{Closes, ClosesPart, Listens, ListensPart};

    /// A listener that heard no record.
    pub fn new(job: &RecordJob, receiver: Receiver) -> Listener
        requires served { IsServedBy job.now receiver }

        ensures job { result.job ≡ job.now }
        ensures receiver { result.receiver ≡ receiver }
        ensures tally { result.tally ≡ no_counts }
    {
        Listener {
            job: *job,
            receiver,
            tally: Counts::none(),
        }
    }

    /// All that it has counted.
    pub fn counts(&self) -> Counts
        ensures { result ≡ counted_in_all self.now.tally self.now.receiver.counts }
    {
        let kept = self.receiver.counts();
        Counts {
            late: kept.late,
            copies: kept.copies,
            blocks: kept.blocks,
            refused: ArrayVec::new(),
            ..self.tally
        }
    }

    /// Hears the next record, of at most 2^40, and puts the blocks that go out on it.
    ///
    /// `Failed` comes only where the sink's faults rose. A prefix of the blocks was then put, and no further record is heard.
    pub fn hear<B: BlockSink>(&mut self, octets: &[u8], out: &mut B) -> Result<(), Failed>
        requires going { IsGoing self.old.receiver self.old.tally }
        requires few { self.old.tally.packets < 2 ^ 40 }
        requires sink { TakesPlan B.BlockSink self.old.job.plan out.old }

        ensures heard { OnOk result
            (Listens (Gains B.whole out.old out.new) self.old self.new octets.now) }
        ensures part { OnErr result
            (ListensPart (GainsPart B.whole B.part out.old out.new) self.old octets.now) }
        ensures job { self.new.job ≡ self.old.job }
        ensures step { BlockStep B.BlockSink out.old out.new result }
    {
        let heard = hear(&self.job, &mut self.receiver, octets, out)?;
        count(&mut self.tally, heard);
        Ok(())
    }

    /// Ends the session after the last record, and puts the blocks that it still held. The counts are then those of the
    /// records.
    ///
    /// `Failed` comes only where the sink's faults rose. A prefix of the blocks was then put.
    pub fn finish<B: BlockSink>(&mut self, out: &mut B) -> Result<(), Failed>
        requires unspent { self.old.receiver.spent ≡ false }
        requires sink { TakesPlan B.BlockSink self.old.job.plan out.old }

        ensures ended { OnOk result (Closes (Gains B.whole out.old out.new) self.old self.new) }
        ensures part { OnErr result
            (ClosesPart (GainsPart B.whole B.part out.old out.new) self.old) }
        ensures job { self.new.job ≡ self.old.job }
        ensures step { BlockStep B.BlockSink out.old out.new result }
    {
        end_session(&self.job, &mut self.receiver, out)
    }
}
