// Packets of a log, lent one at a time.
ghost use Rattle.std.specs.Prelude.{◌≡◌, ◌-◌, ◌<◌, ◌↔◌, IfOk, IsTrue, IsOk, Ok};
ghost use Rattle.amr_io.specs.Fault.{HasCause};
ghost use Rattle.rtp_packet.specs.Record.{IsWhole};
ghost use Rattle.rtp_packet.specs.Unframed.{Unframes};
ghost use Rattle.record_reader.specs.Cause.{LendsRecord};

use crate::next::Next;
use amr_io::{Failed, Source};
use record_reader::{Next as NextRecord, RecordReader};
use std::alloc::{AllocError, Global};

/// Reads the records of a log, one after the other (RFC 4571, 2). It holds at most 65,537 octets.
#[derive(Drop)]
pub struct LogReader {
    records: RecordReader<2, 0>,
}

/// Of a record the packet behind its length, and any other answer as it is.
#[inline(always)]
fn packet_in(next: NextRecord<'_>) -> Next<'_>
    requires record { LendsRecord 2 0 (Ok next) }

    ensures packet { Unframes next.entry result }
{
    match next {
        NextRecord::Record(record) => {
            if record.len() == 2 {
                Next::Null
            } else {
                Next::Packet(&record[2..])
            }
        }
        NextRecord::End => Next::End,
        NextRecord::Truncated { have } => Next::Truncated { have },
        NextRecord::OverLimit => Next::OverLimit,
    }
}

impl LogReader {
    ghost use Rattle.rtp_packet.specs.Reading.{rest, given, limit_of, IsOpen, HasEnded, IsOver, IsUsable, IsFresh};
    ghost use Rattle.std.specs.Borrow.{sem};
    ghost use Rattle.rtp_packet.specs.Lent.{RestsAt};
    ghost use Rattle.rtp_packet.specs.Cause.{TellsIn, EndsAgain};

    /// A reader of a log, of which at most `limit` octets are taken.
    ///
    /// Want of memory is the only error.
    pub fn create(alloc: Global, limit: u64) -> Result<LogReader, AllocError>
        requires limit { 0 < limit }

        ensures fresh { IfOk result (λ r. IsFresh r) }
        ensures limit { IfOk result (λ r. limit_of r ≡ limit) }
    {
        let records = RecordReader::create(alloc, limit)?;
        Ok(LogReader { records })
    }

    /// Whether the next call lends a record without a read.
    pub fn holds_record(&self) -> bool
        ensures { IsTrue result ↔ IsWhole (rest self.now) }
    {
        self.records.holds_record()
    }

    /// How many octets stood in the records that were given, their lengths included.
    pub fn given(&self) -> u64
        ensures count { result ≡ given self.now }
    {
        self.records.given()
    }

    /// Lends the next record, or says why there is none.
    ///
    /// It reads only while the octets held contain no whole record. What it lends stays held until
    /// the next call. `End`, `Truncated` and `OverLimit` are given again by later calls, without a
    /// read. `Failed` comes only where the source's faults rose: the reader is then spent.
    pub fn next<S: Source>(&mut self, source: &mut S) -> Result<Next<'_>, Failed>
        requires usable { IsUsable self.old }

        ensures no_read { IsWhole (rest self.old) → (source.new ≡ source.old) × IsOk result }
        ensures cause { HasCause (S.faults source.old) (S.faults source.new) result }

        ensures exact { IsOpen self.old → TellsIn (S.left source.old) (rest self.old)
            (limit_of self.old - given self.old) result }
        ensures ended_again { HasEnded self.old → (source.new ≡ source.old)
            × EndsAgain (rest self.old) result }
        ensures over_again { IsOver self.old → (source.new ≡ source.old)
            × (result ≡ Ok Next.OverLimit) }

        ensures* after_borrow { sem 𝓛 (RestsAt self.entry self.old
            (S.left source.old) (S.left source.new) result) }
    {
        Ok(packet_in(self.records.next(source)?))
    }
}
