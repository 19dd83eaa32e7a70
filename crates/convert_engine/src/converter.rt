// The handler of a log's records that converts it.
ghost use Rattle.std.specs.Prelude.{◌≡◌, false};
ghost use Rattle.convert_engine.specs.Converts.{IsNew, Stands, counted};
ghost use Rattle.convert_engine.specs.Jobs.{CanSend};
ghost use Rattle.record_hearing.specs.Going.{IsGoing};
ghost use Rattle.record_hearing.specs.Jobs.{recording_of};
ghost use Rattle.spec_stream.specs.Converting.{convert_job};
ghost use Rattle.stream_laws.proofs.Converted.{converted_grows, converted_is_put};

use crate::hearing::{close, convert_record};
use amr_io::{Failed, Sink};
use amr_sender::Sender;
use log_engine::RecordHandler;
use record_hearing::Listener;
use run_report::Counts;

/// Converts the packets of a log: what goes out of the receiver on each is sent.
#[derive(Drop)]
pub(crate) struct Converter {
    pub listener: Listener,
    pub sender: Sender,
    ghost sends: { CanSend listener.job sender.plan },
}

impl Converter {
    /// All that it has counted.
    pub fn counts(&self) -> Counts
        ensures { result ≡ counted self.now.listener self.now.sender }
    {
        Counts {
            sent: self.sender.packets(),
            ..self.listener.counts()
        }
    }
}

impl RecordHandler for Converter {
    ghost job = { λ s. convert_job (recording_of s.listener.job) s.sender.plan };

    ghost stands = { λ s records. Stands s.listener s.sender records };

    ghost fresh = { λ s. IsNew s.listener s.sender };

    ghost ready = { λ s. IsGoing s.listener.receiver s.listener.tally × (s.sender.spent ≡ false) };

    ghost handled = { λ s. s.listener.tally.packets };

    ghost counts = { λ s. counted s.listener s.sender };

    fn begin<O: Sink>(&mut self, _output: &mut O) -> Result<(), Failed> {
        Ok(())
    }

    fn handle<O: Sink>(&mut self, packet: &[u8], output: &mut O) -> Result<(), Failed> {
        convert_record(&mut self.listener, &mut self.sender, packet, output)
    }

    fn end<O: Sink>(&mut self, output: &mut O) -> Result<(), Failed> {
        close(&mut self.listener, &mut self.sender, output)
    }

    ghost early_grows = { λ s records more.
        converted_grows (recording_of s.listener.job) s.sender.plan records more s.sends.valid };

    ghost whole_grows = { λ s records more.
        converted_is_put (recording_of s.listener.job) s.sender.plan records more s.sends.valid };
}
