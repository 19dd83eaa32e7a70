// Storage files read block by block.

ghost use Rattle.std.specs.Prelude.{◌≡◌, ◌⊎◌, ◌↔◌, ◌+◌, ◌≤◌, ◌<◌, ◌^◌, ◌++◌, List, Ok, IsOk, IsTrue, length, ℕ, IfOk};
ghost use Rattle.amr_io.specs.Fault.{HasCause};
ghost use Rattle.amr_io.specs.declared.gate.Gate.TheVariants as gate;

use crate::block::{block_end, block_sight, read_block};
use crate::front::{UnitAhead, unit_ahead};
use crate::header::{header_cut, header_sight};
use crate::step::{Found, Phase, Sight, Step};
use amr_frame::{Cell, Codec};
use amr_io::{Failed, Filled, Inlet, Source};
use std::alloc::{AllocError, Global};

/// How many octets a reader holds at most.
const ROOM: usize = 65_536;

/// Reads a storage file from a source: the header, and then block after block (RFC 4867, 5).
/// It holds at most 65,536 octets.
#[derive(Drop)]
pub struct StoreReader {
    inlet: Inlet,
    codec: Codec,
    channels: u8,
    phase: Phase,
    ghost some: { 1 ≤ channels },
    ghost most: { channels ≤ 6 },
    ghost room: { inlet.size ≡ 2 ^ 16 },
    ghost counted: { length inlet.held ≤ inlet.taken },
    ghost limited: { inlet.taken ≤ inlet.limit },
}

impl StoreReader {
    ghost use Rattle.amr_store.specs.Reading.{Began, Counts, HasEnded, HasGiven, HoldsNothing, IsFresh, IsLeft, IsUsable, WentOn, channels_of, codec_of, given, held, limit_of};
    ghost use Rattle.amr_store.specs.Passing.{Passes, ShowsUnit};
    ghost use Rattle.amr_store.specs.Sights.{HoldsFrame};
    ghost use Rattle.amr_store.specs.Telling.{TellsHeaderIn, TellsNextIn};
    ghost use Rattle.amr_store.specs.Seeking.{Ends, FillsCells, HasBlock, Looks, Settles, Sought, len_of};
    ghost use Rattle.amr_store.specs.declared.step.Sight.TheVariants as sight;

    /// A reader of which at most `limit` octets are taken.
    ///
    /// Want of memory is the only error.
    pub fn create(
        alloc: Global,
        codec: Codec,
        channels: u8,
        limit: u64,
    ) -> Result<StoreReader, AllocError>
        requires some { 1 ≤ channels }
        requires most { channels ≤ 6 }
        requires limit { 0 < limit }

        ensures fresh { IfOk result (λ r. IsFresh r) }
        ensures format { IfOk result (λ r. (codec_of r ≡ codec) × (channels_of r ≡ channels)) }
        ensures limit { IfOk result (λ r. limit_of r ≡ limit) }
    {
        let inlet = Inlet::create(alloc, ROOM, limit)?;
        Ok(StoreReader {
            inlet,
            codec,
            channels,
            phase: Phase::Fresh,
        })
    }

    /// How many octets stood in the header and the blocks that were given.
    fn place(&self) -> u64
        ensures place { result ≡ given self.now }
        ensures fits { result + length (held self.now) < 2 ^ 64 }
    {
        self.inlet.taken() - self.inlet.held().len() as u64
    }

    /// What the octets held show of the header, or of the next block.
    fn look(&self) -> Sight
        ensures { Looks self.now (held self.now) result }
    {
        match self.phase {
            Phase::Fresh => header_sight(self.codec, self.channels, self.inlet.held()),
            Phase::Open | Phase::Ended | Phase::Spent => block_sight(
                self.codec,
                self.channels,
                self.inlet.held(),
                self.place(),
            ),
        }
    }

    /// What a file comes to that ends behind the octets held.
    fn end(&self, at: usize) -> Found
        requires { Looks self.now (held self.now) (sight.Part at) }
        ensures { Ends self.now (held self.now) at result }
    {
        match self.phase {
            Phase::Fresh => Found::Cut(header_cut(self.codec, self.channels, self.inlet.held())),
            Phase::Open | Phase::Ended | Phase::Spent => block_end(
                self.codec,
                self.channels,
                self.inlet.held(),
                at,
                self.place(),
            ),
        }
    }

    /// Reads until the octets held show the header or the next block, or nothing more comes.
    fn seek<S: Source>(&mut self, source: &mut S) -> Result<Found, Failed>
        requires gate { self.old.inlet.gate ≡ gate.Open }
        ensures sought { Sought S.Source source.old source.new self.old result self.new }
    {
        'seeking: loop {
            let at = match self.look() {
                Sight::Part { at } => at,
                Sight::Whole { len } => return Ok(Found::Whole { len }),
                Sight::Refused(why) => return Ok(Found::Shown(why)),
            };
            match self.inlet.fill(source)? {
                Filled::More { .. } => {}
                Filled::End => return Ok(self.end(at)),
                Filled::OverLimit => return Ok(Found::OverLimit),
            }
        }
    }

    /// Takes what was found, and gives the answer.
    fn settle(&mut self, found: Result<Found, Failed>) -> Result<Step, Failed>
        requires within { len_of found ≤ length (held self.old) }
        ensures settles { Settles self.old found result self.new }
    {
        self.phase = Phase::Spent;
        match found {
            Ok(Found::Whole { len }) => {
                self.inlet.take(len);
                self.phase = Phase::Open;
                Ok(Step::Ready)
            }
            Ok(Found::Shown(why)) => Ok(Step::Refused(why)),
            Ok(Found::Cut(why)) => Ok(Step::Refused(why)),
            Ok(Found::End) => {
                self.phase = Phase::Ended;
                Ok(Step::End)
            }
            Ok(Found::OverLimit) => Ok(Step::OverLimit),
            Err(failed) => Err(failed),
        }
    }

    /// Reads the block that was found into the cells.
    fn fill_cells(&self, found: Result<Found, Failed>, cells: &mut [Cell])
        requires whole { HasBlock self.now found }
        requires cells { length cells.old ≡ self.now.channels }
        ensures fills { FillsCells self.now found cells.old cells.new }
    {
        if let Ok(Found::Whole { len }) = found {
            read_block(self.codec, &self.inlet.held()[..len], cells);
        }
    }

    /// Reads the header. It is the first call, and answers `Ready` where the header is whole and
    /// that of the codec and the channels. It never answers `End`.
    ///
    /// It reads only while the octets taken don't show the answer. `Refused`, `OverLimit` and
    /// `Failed` spend the reader. `Failed` comes only where the source's faults rose.
    pub fn begin<S: Source>(&mut self, source: &mut S) -> Result<Step, Failed>
        requires fresh { IsFresh self.old }

        ensures exact { TellsHeaderIn (S.left source.old) self.old result }
        ensures began { Began (S.left source.old) (S.left source.new) self.old result self.new }
        ensures left { IsLeft self.old result self.new }
        ensures cause { HasCause (S.faults source.old) (S.faults source.new) result }
    {
        let found = self.seek(source);
        self.settle(found)
    }

    /// Whether the next call for a block answers without a read, as long as the file didn't end.
    pub fn holds_answer(&self) -> bool
        ensures { (file : List ℕ) → HasGiven file self.now
            → (IsTrue result ↔ (HoldsNothing file self.now → ⊥)) }
    {
        match self.look() {
            Sight::Part { .. } => false,
            Sight::Whole { .. } => true,
            Sight::Refused(_) => true,
        }
    }

    /// Gives the next block in `cells`, one frame for each channel, or says why there is none.
    ///
    /// It reads only while the octets taken don't show the answer. `cells` is as it was after every
    /// answer but `Ready`. `End` is given again by later calls, without a read. `Refused`,
    /// `OverLimit` and `Failed` spend the reader. `Failed` comes only where the source's faults rose.
    pub fn next_block<S: Source>(
        &mut self,
        source: &mut S,
        cells: &mut [Cell],
    ) -> Result<Step, Failed>
        requires usable { IsUsable self.old }
        requires cells { length cells.old ≡ channels_of self.old }

        ensures exact { (front : List ℕ) → HasGiven front self.old
            → TellsNextIn (S.left source.old) front self.old result cells.new }
        ensures went_on { (file : List ℕ) → HasGiven file self.old
            → WentOn file (S.left source.old) (S.left source.new) self.old result cells.new
            self.new }
        ensures left { IsLeft self.old result self.new }
        ensures counts { Counts self.old cells.old result cells.new self.new }
        ensures no_read { (file : List ℕ) → HasGiven file self.old
            → ((source.new ≡ source.old) × IsOk result) ⊎ HoldsNothing file self.old }
        ensures ended_again { HasEnded self.old → (result ≡ Ok Step.End)
            × (source.new ≡ source.old) }
        ensures cause { HasCause (S.faults source.old) (S.faults source.new) result }
    {
        if self.phase == Phase::Ended {
            return Ok(Step::End);
        }
        let found = self.seek(source);
        self.fill_cells(found, cells);
        self.settle(found)
    }

    /// The frame that stands first in the octets held: none where these are fewer than 61, or its
    /// type is reserved.
    #[inline(always)]
    pub fn ahead(&self) -> Option<UnitAhead<'_>>
        ensures { ShowsUnit (codec_of self.now) (held self.now) result }
    {
        unit_ahead(self.codec, self.inlet.held())
    }

    /// Passes the frame that stands first in the octets held, as the next block of a file of one
    /// channel. `size` is how many octets it has.
    #[inline(always)]
    pub fn pass_unit(&mut self, size: usize)
        requires one { channels_of self.old ≡ 1 }
        requires unit { HoldsFrame (codec_of self.old) (held self.old) size }
        ensures { Passes size self.old self.new }
    {
        self.inlet.take(size);
    }
}
