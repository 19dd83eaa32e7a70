// Records lent one at a time.
ghost use Rattle.std.specs.Prelude.{◌≡◌, ◌≢◌, ◌+◌, ◌-◌, ◌*◌, ◌≤◌, ◌<◌, ◌^◌, ◌↔◌, length, drop, IfOk, IsTrue, IsOk, Ok};
ghost use Rattle.amr_io.specs.declared.gate.Gate.TheVariants as gate;
ghost use Rattle.amr_io.specs.Fault.{HasCause};
ghost use Rattle.spec_packet.specs.Records.{IsPartial, IsWhole};

use crate::head::record_size;
use crate::next::{Next, Step};
use amr_io::{Failed, Filled, Inlet, Source};
use std::alloc::{AllocError, Global};

/// Reads records one after the other, each a head of HEAD octets whose octets AT and AT + 1 tell
/// how many octets follow it.
/// It holds at most HEAD + 65,535 octets.
#[derive(Drop)]
pub struct RecordReader<const HEAD: usize, const AT: usize> {
    inlet: Inlet,
    lent: usize,
    ghost head: { AT + 2 ≤ HEAD },
    ghost small: { HEAD ≤ 2 ^ 16 },
    ghost within: { lent ≤ length inlet.held },
    ghost room: { inlet.size ≡ HEAD + (2 ^ 16 - 1) },
    ghost fits: { length inlet.held ≤ HEAD + (2 ^ 16 - 1) },
    ghost counted: { length (drop lent inlet.held) ≤ inlet.taken },
    ghost limited: { inlet.taken ≤ inlet.limit },
    ghost stopped: { inlet.gate ≢ gate.Open → IsPartial HEAD AT (drop lent inlet.held) },
}

impl<const HEAD: usize, const AT: usize> RecordReader<HEAD, AT> {
    ghost use Rattle.record_reader.specs.Reading.{rest, held, lent, given, taken_of, limit_of, IsOpen, HasEnded, IsOver, IsUsable, IsFresh, ShowsIn, Moves};
    ghost use Rattle.std.specs.Borrow.{sem};
    ghost use Rattle.record_reader.specs.Lent.{RestsAt, Leaves};
    ghost use Rattle.record_reader.specs.Cause.{TellsIn, LendsRecord, EndsAgain};

    /// A reader of which at most `limit` octets are taken.
    ///
    /// Want of memory is the only error.
    pub fn create(alloc: Global, limit: u64) -> Result<RecordReader<HEAD, AT>, AllocError>
        requires head { AT + 2 ≤ HEAD }
        requires small { HEAD ≤ 2 ^ 16 }
        requires limit { 0 < limit }

        ensures fresh { IfOk result (λ r. IsFresh r) }
        ensures limit { IfOk result (λ r. limit_of r ≡ limit) }
    {
        let inlet = Inlet::create(alloc, HEAD + 65_535, limit)?;
        Ok(RecordReader { inlet, lent: 0 })
    }

    /// Whether the next call lends a record without a read.
    pub fn holds_record(&self) -> bool
        ensures { IsTrue result ↔ IsWhole HEAD AT (rest self.now) }
    {
        record_size::<HEAD, AT>(&self.inlet.held()[self.lent..]).is_some()
    }

    /// How many octets stood in the records that were given, their heads included.
    pub fn given(&self) -> u64
        ensures count { result ≡ given self.now }
    {
        self.inlet.taken() - (self.inlet.held().len() - self.lent) as u64
    }

    /// Lets go of the record that was lent.
    fn release(&mut self)
        ensures held { held self.new ≡ rest self.old }
        ensures lent { self.new.lent ≡ 0 }
        ensures kept { (self.new.inlet.gate ≡ self.old.inlet.gate)
            × (taken_of self.new ≡ taken_of self.old) × (limit_of self.new ≡ limit_of self.old) }
    {
        let lent = self.lent;
        self.lent = 0;
        self.inlet.take(lent);
    }

    /// Reads until a record is whole or nothing more comes.
    fn refill<S: Source>(&mut self, source: &mut S) -> Result<Step, Failed>
        requires usable { self.old.inlet.gate ≢ gate.Spent }
        requires lent { self.old.lent ≡ 0 }
        requires part { IsPartial HEAD AT (held self.old) }
        requires free { length (held self.old) < HEAD + (2 ^ 16 - 1) }

        ensures moves { Moves S.Source source.old source.new self.old result self.new }
    {
        'filling: loop {
            match self.inlet.fill(source)? {
                Filled::More { .. } => {
                    if let Some(size) = record_size::<HEAD, AT>(self.inlet.held()) {
                        self.lent = size;
                        return Ok(Step::Record);
                    }
                }
                Filled::End => return Ok(Step::End),
                Filled::OverLimit => return Ok(Step::OverLimit),
            }
        }
    }

    /// Drops the record that was lent, and goes on to the next one.
    fn step<S: Source>(&mut self, source: &mut S) -> Result<Step, Failed>
        requires usable { self.old.inlet.gate ≢ gate.Spent }

        ensures moves { Moves S.Source source.old source.new self.old result self.new }
    {
        self.release();
        if let Some(size) = record_size::<HEAD, AT>(self.inlet.held()) {
            self.lent = size;
            return Ok(Step::Record);
        }
        self.refill(source)
    }

    /// Goes on to the next record, by what the octets show: what follows from a step whichever way it
    /// went, in one place.
    fn advance<S: Source>(&mut self, source: &mut S) -> Result<Step, Failed>
        requires usable { self.old.inlet.gate ≢ gate.Spent }

        ensures moves { Moves S.Source source.old source.new self.old result self.new }
        ensures shows { IsOpen self.old → ShowsIn (S.left source.old) self.old result self.new }
        ensures usable { IfOk result (λ _. self.new.inlet.gate ≢ gate.Spent) }
    {
        self.step(source)
    }

    /// The record that was lent last.
    fn record(&self) -> &[u8]
        ensures octets { result.now ≡ lent self.now }
        ensures size { length result.now ≡ self.now.lent }
    {
        &self.inlet.held()[..self.lent]
    }

    /// How many octets are held behind the record that was lent last.
    fn waiting(&self) -> usize
        ensures count { result ≡ length (rest self.now) }
    {
        self.inlet.held().len() - self.lent
    }

    /// Lends the next record, its head included, or says why there is none.
    ///
    /// It reads only while the octets held contain no whole record. What it lends stays held until
    /// the next call. `End`, `Truncated` and `OverLimit` are given again by later calls, without a
    /// read. `Failed` comes only where the source's faults rose: the reader is then spent.
    #[inline(always)]
    pub fn next<S: Source>(&mut self, source: &mut S) -> Result<Next<'_>, Failed>
        requires usable { IsUsable self.old }

        ensures no_read { IsWhole HEAD AT (rest self.old) → (source.new ≡ source.old)
            × IsOk result }
        ensures cause { HasCause (S.faults source.old) (S.faults source.new) result }

        ensures record { LendsRecord HEAD AT result }
        ensures exact { IsOpen self.old → TellsIn HEAD AT (S.left source.old) (rest self.old)
            (limit_of self.old - given self.old) result }
        ensures ended_again { HasEnded self.old → (source.new ≡ source.old)
            × EndsAgain (rest self.old) result }
        ensures over_again { IsOver self.old → (source.new ≡ source.old)
            × (result ≡ Ok Next.OverLimit) }

        ensures* after_borrow { sem 𝓛 (RestsAt HEAD.row AT.row self.entry
            (λ new. Leaves (S.left source.old) (S.left source.new) self.old result new)) }
    {
        match self.advance(source)? {
            Step::Record => Ok(Next::Record(self.record())),
            Step::End => {
                let have = self.waiting();
                if have == 0 {
                    Ok(Next::End)
                } else {
                    Ok(Next::Truncated { have })
                }
            }
            Step::OverLimit => Ok(Next::OverLimit),
        }
    }
}
