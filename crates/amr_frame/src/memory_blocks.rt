// A sink of blocks over memory.
ghost use Rattle.std.specs.Prelude.{◌≡◌, ◌+◌, ◌*◌, ◌-◌, ◌^◌, ◌<◌, ◌≤◌, ◌↔◌, ◌++◌, ℕ, [], true, false, length, map, min, IfOk, IsTrue, IsErr, OnOk, OnErr, is_ok, Some, vec_len, vec_capacity};
ghost use Rattle.std.specs.List.{AllByRecursion};
ghost use Rattle.amr_io.specs.Fault.{HasCause};
ghost use Rattle.amr_frame.specs.Blocks.{IsPresentBlock, frames_of};
ghost use Rattle.amr_frame.specs.Cells.{held};
ghost use Rattle.amr_frame.specs.Memory.{Shelf};

use crate::block_sink::BlockSink;
use crate::cell::Cell;
use crate::codec::Codec;
use amr_io::Failed;
use std::alloc::{AllocError, Global};
use std::marker::Model;

/// A sink of blocks over memory, with room for a fixed number of blocks. It tells them, and fails where it is full.
#[derive(Drop)]
pub struct MemoryBlocks {
    codec: Codec,
    channels: u8,
    room: usize,
    count: usize,
    cells: Vec<Cell>,
    faults: u64,
    ready: bool,
}

impl Model for MemoryBlocks {
    ghost Value = { Shelf };

    ghost view = { λ s. record {
      codec = s.codec;
      channels = s.channels;
      room = s.room;
      cells = s.cells.items;
      faults = s.faults;
      ready = s.ready;
    } };

    ghost invariant = { λ s. (s.count ≤ s.room) × (vec_len s.cells ≡ s.count * s.channels)
        × (s.room * s.channels ≤ vec_capacity s.cells) × (0 < s.channels) };
}

impl MemoryBlocks {
    /// A sink with room for `room` blocks of 1 to 6 channels, ready, with no block and no fault.
    ///
    /// Want of memory is the only error.
    pub fn create(
        alloc: Global,
        codec: Codec,
        channels: u8,
        room: usize,
    ) -> Result<MemoryBlocks, AllocError>
        requires some { 1 ≤ channels }
        requires most { channels ≤ 6 }

        ensures fresh { IfOk result (λ s. s ≡ record {
          codec = codec;
          channels = channels;
          room = room;
          cells = [];
          faults = 0;
          ready = true;
        }) }
    {
        let Some(most) = room.checked_mul(usize::from(channels)) else {
            return Err(AllocError);
        };
        let cells = Vec::with_capacity(alloc, most)?;
        Ok(MemoryBlocks {
            codec,
            channels,
            room,
            count: 0,
            cells,
            faults: 0,
            ready: true,
        })
    }

    /// The cells of the blocks got, one block after the other.
    pub fn blocks(&self) -> &[Cell]
        ensures cells { result.now ≡ self.now.cells }
        ensures whole { (count : ℕ) × (count ≤ self.now.room)
            × (length result.now ≡ count * self.now.channels) }
    {
        self.cells.as_slice()
    }
}

impl BlockSink for MemoryBlocks {
    ghost codec = { λ s. s.codec };

    ghost channels = { λ s. s.channels };

    ghost ready = { λ s. s.ready };

    ghost faults = { λ s. s.faults };

    ghost whole = { λ s block t. map held t.cells ≡ map held s.cells ++ map Some block };

    ghost part = { λ s _ t. t.cells ≡ s.cells };

    ghost same = { λ _ _. Unit {0} };

    /// Appends the block, or fails where as many blocks as there is room for were got.
    fn put_block(&mut self, cells: &[Cell]) -> Result<(), Failed>
        requires ready { IsTrue self.old.ready }
        requires block { IsPresentBlock self.old.codec self.old.channels cells.now }

        ensures whole { OnOk result
            (map held self.new.cells ≡ map held self.old.cells ++ map Some (frames_of cells.now)) }
        ensures part { OnErr result (self.new.cells ≡ self.old.cells) }
        ensures ready { self.new.ready ≡ is_ok result }
        ensures cause { HasCause self.old.faults self.new.faults result }

        ensures fails { IsErr result ↔ (self.old.room * self.old.channels ≤ length self.old.cells) }
        ensures appended { OnOk result
            (self.new ≡ record self.old { cells = self.old.cells ++ cells.now }) }
        ensures counted { OnErr result
            (self.new ≡ record self.old {
              faults = min (self.old.faults + 1) (2 ^ 64 - 1);
              ready = false;
            }) }
    {
        if self.count == self.room {
            self.faults = self.faults.saturating_add(1);
            self.ready = false;
            return Err(Failed);
        }
        // The room was reserved when the sink was made.
        let Ok(()) = self.cells.extend_from_slice(cells) else {
            unreachable!()
        };
        self.count += 1;
        Ok(())
    }

    ghost reflexive = { λ _. tt };

    ghost transitive = { λ _ _ _ _ _. tt };
}
