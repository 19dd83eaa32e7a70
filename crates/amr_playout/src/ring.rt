// A full ring of cells, the oldest place at its front.
ghost use Rattle.std.specs.List.{AllByRecursion};
ghost use Rattle.std.specs.Prelude.{◌≡◌, ◌+◌, ◌<◌, ◌≤◌, ◌++◌, IfOk, IsTrue, None, drop, is_some, length, map, replicate, slice_set, take};
ghost use Rattle.amr_frame.specs.Blocks.{IsPresentBlock, frames_of};
ghost use Rattle.amr_frame.specs.Cells.{IsCell, frame_of, held};
ghost use Rattle.amr_playout.specs.Ring.{ArePresent, IsFull, KeepsRing};
ghost use Rattle.amr_playout.specs.Window.{held_of, item};
ghost use Rattle.spec_session.specs.Quality.{better, stored};

use amr_frame::{Cell, Codec};
use amr_merge::keep_better;
use circular_buffer::HeapCircularBuffer;
use std::alloc::{AllocError, Global};

/// A full ring of absent cells.
pub fn absent_ring(
    alloc: Global,
    codec: Codec,
    cells: usize,
) -> Result<HeapCircularBuffer<Cell>, AllocError>
    ensures items { IfOk result (λ b. held_of b.items ≡ replicate cells None) }
    ensures valid { IfOk result (λ b. AllByRecursion (IsCell codec) b.items) }
    ensures full { IfOk result (λ b. (length b.items ≡ cells) × (b.capacity ≡ cells)) }
{
    let mut ring = HeapCircularBuffer::with_capacity(alloc, cells)?;
    let none = Cell::absent();
    for at in 0..cells {
        ring.push_back(none);
    }
    Ok(ring)
}

/// Makes a cell present: an absent one becomes NO_DATA, whose type, Q and bits it has.
fn fill(cell: &mut Cell, codec: Codec)
    requires valid { IsCell codec cell.old }
    ensures frame { frame_of cell.new ≡ frame_of cell.old }
    ensures present { IsTrue cell.new.present }
    ensures valid { IsCell codec cell.new }
{
    cell.present = true;
}

/// Makes one cell of a ring present.
fn fill_at(ring: &mut HeapCircularBuffer<Cell>, codec: Codec, index: usize)
    requires within { index < length ring.old.items }
    requires valid { AllByRecursion (IsCell codec) ring.old.items }

    ensures frames { frames_of ring.new.items ≡ frames_of ring.old.items }
    ensures present { ArePresent (take index ring.old.items)
        → ArePresent (take (index + 1) ring.new.items) }
    ensures rest { drop (index + 1) ring.new.items ≡ drop (index + 1) ring.old.items }
    ensures ring { KeepsRing codec ring.old ring.new }
{
    if let Some(cell) = ring.get_mut(index) {
        fill(cell, codec);
    }
}

/// Makes the first cells of a ring present, so that they are a block as it is stored.
pub fn fill_front(ring: &mut HeapCircularBuffer<Cell>, codec: Codec, count: usize)
    requires within { count ≤ length ring.old.items }
    requires valid { AllByRecursion (IsCell codec) ring.old.items }

    ensures frames { frames_of (take count ring.new.items)
        ≡ map stored (take count (held_of ring.old.items)) }
    ensures block { IsPresentBlock codec count (take count ring.new.items) }
    ensures rest { drop count ring.new.items ≡ drop count ring.old.items }
    ensures ring { KeepsRing codec ring.old ring.new }
{
    for index in 0..count {
        fill_at(ring, codec, index);
    }
}

/// Pushes absent cells, which push out as many at the front.
pub fn push_absent(ring: &mut HeapCircularBuffer<Cell>, codec: Codec, count: usize)
    requires full { IsFull codec ring.old }
    requires room { count ≤ ring.old.capacity }

    ensures items { held_of ring.new.items
        ≡ drop count (held_of ring.old.items) ++ replicate count None }
    ensures ring { KeepsRing codec ring.old ring.new }
{
    let none = Cell::absent();
    for at in 0..count {
        ring.push_back(none);
    }
}

/// Merges a frame into a cell, and tells whether the cell had one.
pub fn merge_at(
    ring: &mut HeapCircularBuffer<Cell>,
    codec: Codec,
    index: usize,
    frame: &Cell,
) -> bool
    requires within { index < length ring.old.items }
    requires valid { AllByRecursion (IsCell codec) ring.old.items }
    requires frame { IsCell codec frame.now }

    ensures items { held_of ring.new.items ≡ slice_set (held_of ring.old.items) index
        (better codec (item (held_of ring.old.items) index) (held frame.now)) }
    ensures had { result ≡ is_some (item (held_of ring.old.items) index) }
    ensures ring { KeepsRing codec ring.old ring.new }
{
    if let Some(cell) = ring.get_mut(index) {
        let had = cell.present;
        keep_better(codec, cell, frame);
        had
    } else {
        false
    }
}
