// The handler of a log's records that lists them.
ghost use Rattle.std.specs.Prelude.{◌≡◌, ⊤};
ghost use Rattle.listing_laws.proofs.Lines.{listing_grows};
ghost use Rattle.amr_frame.specs.Profiles.{IsValid};
ghost use Rattle.list_engine.specs.Going.{IsNew, Stands};
ghost use Rattle.list_engine.specs.Jobs.{listing_of};
ghost use Rattle.run_report.specs.Lines.{no_counts};
ghost use Rattle.spec_listing.specs.Listing.{list_job};

use crate::job::ListJob;
use crate::line::Line;
use crate::record::list_record;
use amr_io::{Failed, Sink};
use amr_mode::ModeDesk;
use log_engine::RecordHandler;

/// Lists the records of a log, a line each.
#[derive(Drop)]
pub(crate) struct Lister {
    pub job: ListJob,
    pub desk: ModeDesk,
    pub line: Line,
    /// How many records were listed.
    pub count: u64,
    ghost format: { IsValid job.profile },
}

impl RecordHandler for Lister {
    ghost job = { λ s. list_job (listing_of s.job) };

    ghost stands = { λ s records. Stands s.job s.desk s.count records };

    ghost fresh = { λ s. IsNew s.job s.desk s.count };

    ghost ready = { λ s. ⊤ };

    ghost handled = { λ s. s.count };

    ghost counts = { λ s. no_counts };

    fn begin<O: Sink>(&mut self, _output: &mut O) -> Result<(), Failed> {
        Ok(())
    }

    fn handle<O: Sink>(&mut self, packet: &[u8], output: &mut O) -> Result<(), Failed> {
        match list_record(
            &self.job,
            &mut self.desk,
            self.count,
            packet,
            &mut self.line,
            output,
        ) {
            Ok(()) => {
                self.count += 1;
                Ok(())
            }
            Err(failed) => Err(failed),
        }
    }

    fn end<O: Sink>(&mut self, _output: &mut O) -> Result<(), Failed> {
        Ok(())
    }

    ghost early_grows = { λ s records more. listing_grows (listing_of s.job) records more };

    ghost whole_grows = { λ s records more. listing_grows (listing_of s.job) records more };
}
