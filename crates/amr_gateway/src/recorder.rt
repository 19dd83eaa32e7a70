// The handler of a log's records that records it.
ghost use Rattle.std.specs.Prelude.{◌≡◌};
ghost use Rattle.std.proofs.Props.{props};
ghost use Rattle.segment_laws.proofs.Recording.{early_front, file_front};
ghost use Rattle.record_hearing.specs.Going.{IsGoing, IsNew, Stands};
ghost use Rattle.record_hearing.specs.Jobs.{recording_of};
ghost use Rattle.record_hearing.specs.Tallies.{counted_in_all};
ghost use Rattle.spec_record.specs.RecordMeaning.{records_job};

use amr_io::{Failed, Sink};
use amr_store::StoreWriter;
use log_engine::RecordHandler;
use record_hearing::Listener;

/// Records the packets of a log: what goes out of the receiver on each is written to a storage file.
#[derive(Drop)]
pub struct Recorder {
    pub listener: Listener,
}

impl RecordHandler for Recorder {
    ghost job = { λ s. records_job (recording_of s.listener.job) };

    ghost stands = { λ s records.
        Stands s.listener.job s.listener.receiver s.listener.tally records };

    ghost fresh = { λ s. IsNew s.listener.receiver s.listener.tally };

    ghost ready = { λ s. IsGoing s.listener.receiver s.listener.tally };

    ghost handled = { λ s. s.listener.tally.packets };

    ghost counts = { λ s. counted_in_all s.listener.tally s.listener.receiver.counts };

    fn begin<O: Sink>(&mut self, output: &mut O) -> Result<(), Failed> {
        let profile = &self.listener.job.plan.profile;
        let mut writer = StoreWriter::new(profile.codec, profile.channels, output);
        writer.begin()
    }

    fn handle<O: Sink>(&mut self, packet: &[u8], output: &mut O) -> Result<(), Failed> {
        let profile = self.listener.job.plan.profile;
        let mut writer = StoreWriter::resume(profile.codec, profile.channels, output);
        self.listener.hear(packet, &mut writer)
    }

    fn end<O: Sink>(&mut self, output: &mut O) -> Result<(), Failed> {
        let profile = self.listener.job.plan.profile;
        let mut writer = StoreWriter::resume(profile.codec, profile.channels, output);
        self.listener.finish(&mut writer)
    }

    ghost early_grows = { λ s records more.
        early_front (recording_of s.listener.job) records more };

    ghost whole_grows = { λ s records more.
        file_front (recording_of s.listener.job) records more };
}
