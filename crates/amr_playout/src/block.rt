// Putting out blocks: the one at the front of a ring, and blocks for which nothing came.
ghost use Rattle.std.specs.Prelude.{◌≡◌, ◌+◌, ◌≤◌, ◌++◌, None, OnErr, OnOk, drop, length, map, replicate, take};
ghost use Rattle.amr_frame.specs.Blocks.{GotBlocks, GotPrefix, IsPresentBlock, frames_of};
ghost use Rattle.amr_frame.specs.Frames.{no_data};
ghost use Rattle.amr_frame.specs.Steps.{BlockStep, TakesBlocks};
ghost use Rattle.amr_frame.specs.declared.codec.Codec.{Codec};
ghost use Rattle.amr_playout.specs.Ring.{KeepsRing};
ghost use Rattle.amr_playout.specs.Steps.{CanPush, PutsBlock, TakesBlock};
ghost use Rattle.amr_playout.specs.Window.{held_of, missing};
ghost use Rattle.spec_session.specs.Quality.{stored};

use crate::ring::{fill_front, push_absent};
use amr_frame::{BlockSink, Cell, Codec};
use amr_io::Failed;
use arrayvec::ArrayVec;
use circular_buffer::HeapCircularBuffer;

/// Puts out the first block of a full ring as it is stored, and pushes a block of absent cells in its place.
pub fn put_front<B: BlockSink>(
    ring: &mut HeapCircularBuffer<Cell>,
    codec: Codec,
    channels: usize,
    out: &mut B,
) -> Result<(), Failed>
    requires ready { CanPush B.BlockSink codec channels ring.old out.old }

    ensures items { OnOk result (held_of ring.new.items
        ≡ drop channels (held_of ring.old.items) ++ replicate channels None) }
    ensures put { PutsBlock B.BlockSink out.old out.new
        (map stored (take channels (held_of ring.old.items))) result }
    ensures ring { KeepsRing codec ring.old ring.new }
{
    fill_front(ring, codec, channels);
    lend_front(ring, channels, out)?;
    push_absent(ring, codec, channels);
    Ok(())
}

/// Puts out the first block of a ring where it lies.
fn lend_front<B: BlockSink>(
    ring: &HeapCircularBuffer<Cell>,
    channels: usize,
    out: &mut B,
) -> Result<(), Failed>
    requires within { channels ≤ length ring.now.items }
    requires few { channels ≤ 6 }
    requires block { TakesBlock B.BlockSink out.old (take channels ring.now.items) }

    ensures put { PutsBlock B.BlockSink out.old out.new (frames_of (take channels ring.now.items))
        result }
{
    let (front, back) = ring.as_slices();
    if channels <= front.len() {
        out.put_block(&front[..channels])
    } else {
        put_pieces(front, &back[..channels - front.len()], out)
    }
}

/// Puts out a block that lies in two pieces. A ring of whole blocks has none, but its contract doesn't say so.
#[cold]
#[inline(never)]
fn put_pieces<B: BlockSink>(front: &[Cell], back: &[Cell], out: &mut B) -> Result<(), Failed>
    requires short { length front.now + length back.now ≤ 6 }
    requires block { TakesBlock B.BlockSink out.old (front.now ++ back.now) }

    ensures put { PutsBlock B.BlockSink out.old out.new (frames_of (front.now ++ back.now)) result }
{
    let mut block: ArrayVec<Cell, 6> = ArrayVec::new();
    let Ok(()) = block.try_extend_from_slice(front) else {
        unreachable!()
    };
    let Ok(()) = block.try_extend_from_slice(back) else {
        unreachable!()
    };
    out.put_block(&block)
}

/// Puts out one block of NO_DATA, as often as this.
#[inline(never)]
pub fn put_no_data<B: BlockSink>(channels: usize, count: u64, out: &mut B) -> Result<(), Failed>
    requires few { channels ≤ 6 }
    requires sink { TakesBlocks B.BlockSink (B.codec out.old) channels out.old }

    ensures out { OnOk result (GotBlocks B.whole out.old (missing channels count) out.new) }
    ensures part { OnErr result
        (GotPrefix B.whole B.part out.old (missing channels count) out.new) }
    ensures step { BlockStep B.BlockSink out.old out.new result }
{
    let block = missing_block(channels);
    for _ in 0..count {
        out.put_block(&block)?;
    }
    Ok(())
}

/// NO_DATA in each channel.
fn missing_block(channels: usize) -> ArrayVec<Cell, 6>
    requires few { channels ≤ 6 }
    ensures frames { frames_of result.items ≡ replicate channels no_data }
    ensures block { (codec : Codec) → IsPresentBlock codec channels result.items }
{
    let mut block: ArrayVec<Cell, 6> = ArrayVec::new();
    for _ in 0..channels {
        block.push(Cell::no_data());
    }
    block
}
