ghost use Rattle.std.specs.Prelude.{◌≡◌, ◌≤◌, OnErr, OnOk};
ghost use Rattle.std.specs.List.{AllByRecursion};
ghost use Rattle.std.specs.Io.KnownBytes.{Appends};
ghost use Rattle.amr_io.specs.Fault.{HasCause};
ghost use Rattle.amr_io.specs.Told.{AppendsFront};
ghost use Rattle.amr_store.specs.Written.{AreChannels, StandsOver, WroteText, stage_after, takes_blocks};
ghost use Rattle.spec_store.specs.StorageFile.{block_text, header, multi};
ghost use Rattle.amr_frame.specs.Blocks.{frames_of};

use crate::frame::write_cell;
use amr_frame::{BlockSink, Cell, Codec};
use amr_io::{Failed, Sink, write_whole};

/// How far a file is written.
#[derive(Clone, Copy, Debug, PartialEq, Eq)]
pub enum Stage {
    /// The header isn't written.
    Fresh,
    /// Blocks are taken.
    Open,
    /// A write failed.
    Spent,
}

/// Writes a storage file to a sink: the header, and then block after block (RFC 4867, 5).
#[derive(Drop)]
pub struct StoreWriter<'a, O> {
    pub codec: Codec,
    pub channels: u8,
    pub stage: Stage,
    pub sink: &'a mut O,
}

impl<'a, O: Sink> StoreWriter<'a, O> {
    /// A writer that has written nothing.
    pub fn new(codec: Codec, channels: u8, sink: &'a mut O) -> StoreWriter<'a, O>
        requires { AreChannels channels }
        ensures { StandsOver codec channels Stage.Fresh sink.entry sink.old result }
    {
        StoreWriter {
            codec,
            channels,
            stage: Stage::Fresh,
            sink,
        }
    }

    /// A writer that goes on behind what was written before, so that one sink serves several writers in turn.
    pub fn resume(codec: Codec, channels: u8, sink: &'a mut O) -> StoreWriter<'a, O>
        requires { AreChannels channels }
        ensures { StandsOver codec channels Stage.Open sink.entry sink.old result }
    {
        StoreWriter {
            codec,
            channels,
            stage: Stage::Open,
            sink,
        }
    }

    /// Writes the header.
    ///
    /// `Failed` comes only where the sink's faults rose. A front of the header was then written, and the writer is spent.
    pub fn begin(&mut self) -> Result<(), Failed>
        requires fresh { self.old.stage ≡ Stage.Fresh }

        ensures whole { OnOk result (Appends (O.got self.old.sink.now) (O.got self.new.sink.now)
            (header self.old.codec self.old.channels)) }
        ensures part { OnErr result (AppendsFront (O.got self.old.sink.now)
            (O.got self.new.sink.now) (header self.old.codec self.old.channels)) }
        ensures stage { self.new.stage ≡ stage_after result }

        ensures format { (self.new.codec ≡ self.old.codec)
            × (self.new.channels ≡ self.old.channels) }
        ensures cause { HasCause (O.faults self.old.sink.now) (O.faults self.new.sink.now) result }
        ensures beside { O.beside self.new.sink.now ≡ O.beside self.old.sink.now }
        ensures same_reference { self.new.sink.ghost_name ≡ self.old.sink.ghost_name }
        ensures same { O.same self.old.sink.now self.new.sink.now }
    {
        self.stage = Stage::Spent;
        write_header(self.codec, self.channels, self.sink)?;
        self.stage = Stage::Open;
        Ok(())
    }
}

/// Writes the header of a file of this codec and number of channels (RFC 4867, 5.1 and 5.2).
fn write_header<O: Sink>(codec: Codec, channels: u8, sink: &mut O) -> Result<(), Failed>
    ensures { WroteText O.Sink (header codec channels) sink.old sink.new result }
{
    if channels == 1 {
        return write_whole(sink, magic(codec));
    }
    write_whole(sink, multichannel_magic(codec))?;
    write_whole(sink, &[0, 0, 0, channels])
}

/// The magic number of a file of one channel.
pub fn magic(codec: Codec) -> &'static [u8]
    ensures { result.now ≡ header codec 1 }
{
    match codec {
        Codec::Amr => b"#!AMR\n",
        Codec::AmrWb => b"#!AMR-WB\n",
    }
}

/// The magic number of a file of several channels.
pub fn multichannel_magic(codec: Codec) -> &'static [u8]
    ensures { result.now ≡ multi codec }
{
    match codec {
        Codec::Amr => b"#!AMR_MC1.0\n",
        Codec::AmrWb => b"#!AMR-WB_MC1.0\n",
    }
}

/// Writes the frames of a block, as they stand in a file, behind what the sink got.
///
/// `Failed` comes only where the sink's faults rose. A front of the octets was then written.
pub fn write_cells<O: Sink>(cells: &[Cell], sink: &mut O) -> Result<(), Failed>
    requires { AllByRecursion (λ (cell : Cell). cell.ft ≤ 15) cells.now }
    ensures { WroteText O.Sink (block_text (frames_of cells.now)) sink.old sink.new result }
{
    for cell in cells {
        write_cell(cell, sink)?;
    }
    Ok(())
}

impl<'a, O: Sink> BlockSink for StoreWriter<'a, O> {
    ghost use Rattle.amr_store.specs.Written.{SameSink, WroteBlock, WrotePart};
    ghost use Rattle.amr_store.specs.SinkLaws.{same_sink, through};

    ghost codec = { λ w. w.codec };

    ghost channels = { λ w. w.channels };

    ghost ready = { λ w. takes_blocks w.stage w.channels };

    ghost faults = { λ w. O.faults w.sink.now };

    ghost whole = { λ v block w. WroteBlock O.got O.beside O.same v block w };

    ghost part = { λ v block w. WrotePart O.got O.beside O.same v block w };

    ghost same = { λ v w. SameSink O.beside O.same v w };

    #[inline(always)]
    fn put_block(&mut self, cells: &[Cell]) -> Result<(), Failed> {
        self.stage = Stage::Spent;
        write_cells(cells, self.sink)?;
        self.stage = Stage::Open;
        Ok(())
    }

    ghost reflexive = { λ w. same_sink O.beside O.same O.reflexive w };

    ghost transitive = { λ a b c p q. through O.beside O.same O.transitive a b c p q };
}
