// The blocks of one group, and those before them that are kept.
ghost use Rattle.std.specs.Prelude.{◌≡◌, ◌<◌, ◌≤◌, ◌+◌, ◌*◌, ◌++◌, ◌∷◌, List, [], IfOk, drop, length, slice_index_or, take, vec_capacity};
ghost use Rattle.amr_frame.specs.Blocks.{IsPresentBlock};

use crate::plan::GroupPlan;
use amr_frame::{Cell, Codec};
use std::alloc::{AllocError, Global};
use std::marker::Model;

/// The blocks of one group and some before them, in the order in which they came. All its memory
/// is taken when it is made.
#[derive(Drop)]
pub struct GroupBuffer {
    plan: GroupPlan,
    /// How many blocks before a group there is room for.
    before: u8,
    codec: Codec,
    channels: u8,
    count: u16,
    /// The cells of the blocks, one block behind the other.
    cells: Vec<Cell>,
}

impl Model for GroupBuffer {
    ghost use Rattle.amr_group.specs.Buffer.{IsBuffer, View, view_of};

    ghost Value = { View };

    ghost view = { view_of };

    ghost invariant = { IsBuffer };
}

/// The cells of `count` blocks of so many channels, from block `at` on.
fn stretch(cells: &[Cell], channels: u8, at: usize, count: usize) -> &[Cell]
    requires few { at + count ≤ 1279 }
    requires within { (at + count) * channels ≤ length cells.now }

    ensures { result.now ≡ take (count * channels) (drop (at * channels) cells.now) }
{
    let from = at * usize::from(channels);
    &cells[from..from + count * usize::from(channels)]
}

/// Copies a block to its place among blocks as long, the one numbered `k`.
fn copy_block(block: &[Cell], out: &mut [Cell], k: u8)
    requires { (k + 1) * length block.now ≤ length out.old }

    ensures front { take ((k + 1) * length block.now) out.new
        ≡ take (k * length block.now) out.old ++ block.now }
    ensures size { length out.new ≡ length out.old }
{
    let from = usize::from(k) * block.len();
    out[from..from + block.len()].copy_from_slice(block);
}

/// Drops the cells of the first `count` blocks of so many channels, and moves the others to the
/// front.
fn drop_blocks(cells: &mut Vec<Cell>, channels: u8, count: usize)
    requires few { count ≤ 1279 }
    requires within { count * channels ≤ length cells.old.items }

    ensures items { cells.new.items ≡ drop (count * channels) cells.old.items }
    ensures capacity { vec_capacity cells.new ≡ vec_capacity cells.old }
{
    let from = count * usize::from(channels);
    let len = cells.len();
    cells.copy_within(from..len, 0);
    cells.truncate(len - from);
}

impl GroupBuffer {
    ghost use Rattle.amr_group.specs.Buffer.{ArePresentBlocks, View, picked, room_of, size_of};

    /// An empty buffer, with room for one group of blocks of these channels and for so many blocks
    /// before it.
    pub fn create(
        alloc: Global,
        plan: GroupPlan,
        before: u8,
        codec: Codec,
        channels: u8,
    ) -> Result<GroupBuffer, AllocError>
        ensures empty { IfOk result (λ b. b ≡ record {
          plan = plan;
          before = before;
          codec = codec;
          channels = channels;
          blocks = [];
        }) }
    {
        let room = usize::from(plan.size()) + usize::from(before);
        let cells = Vec::with_capacity(alloc, room * usize::from(channels))?;
        Ok(GroupBuffer {
            plan,
            before,
            codec,
            channels,
            count: 0,
            cells,
        })
    }

    /// Adds a block.
    pub fn add(&mut self, cells: &[Cell])
        requires room { length self.old.blocks < room_of self.old }
        requires block { IsPresentBlock self.old.codec self.old.channels cells.now }

        ensures { self.new ≡ record (self.old) { blocks = self.old.blocks ++ cells.now ∷ [] } }
    {
        let Ok(()) = self.cells.extend_from_slice(cells) else {
            unreachable!()
        };
        self.count += 1;
    }

    /// How many blocks are there.
    pub fn len(&self) -> usize
        ensures exact { result ≡ length self.now.blocks }
        ensures most { result ≤ room_of self.now }
        ensures few { result ≤ 1279 }
    {
        usize::from(self.count)
    }

    /// Copies the blocks of a packet of a full group: those a group's length apart, from the block
    /// of the packet's number on.
    pub fn packet(&self, index: u8, out: &mut [Cell])
        requires full { length self.now.blocks ≡ size_of self.now.plan }
        requires index { index < self.now.plan.length }
        requires size { length out.old ≡ self.now.plan.blocks * self.now.channels }

        ensures blocks { out.new ≡ picked self.now.blocks index self.now.plan.length
            self.now.plan.blocks }
        ensures present { ArePresentBlocks self.now.codec self.now.channels self.now.plan.blocks
            out.new }
    {
        for k in 0..self.plan.blocks {
            let at = usize::from(index) + usize::from(k) * usize::from(self.plan.length);
            copy_block(self.block(at), out, k);
        }
    }

    /// A block by its number.
    pub fn block(&self, at: usize) -> &[Cell]
        requires within { at < length self.now.blocks }

        ensures cells { result.now ≡ slice_index_or self.now.blocks at [] }
        ensures present { IsPresentBlock self.now.codec self.now.channels result.now }
    {
        stretch(&self.cells, self.channels, at, 1)
    }

    /// The cells of `count` blocks that follow one another, from a block on, in place.
    pub fn blocks(&self, at: usize, count: usize) -> &[Cell]
        requires within { at + count ≤ length self.now.blocks }

        ensures cells { result.now ≡ picked self.now.blocks at 1 count }
        ensures present { ArePresentBlocks self.now.codec self.now.channels count result.now }
    {
        stretch(&self.cells, self.channels, at, count)
    }

    /// Drops the first blocks, and keeps the others.
    pub fn pass(&mut self, count: usize)
        requires within { count ≤ length self.old.blocks }

        ensures { self.new ≡ record (self.old) { blocks = drop count self.old.blocks } }
    {
        drop_blocks(&mut self.cells, self.channels, count);
        self.count -= count as u16;
    }
}
