//! The frame types of AMR and AMR-WB, frames, the sinks that blocks of them are put to, and the formats of payloads.
#![tactic(auto)]

mod block_sink;
mod cell;
mod codec;
mod memory_blocks;
mod profile;
mod table;

pub use block_sink::BlockSink;
pub use cell::Cell;
pub use codec::{Codec, Kind};
pub use memory_blocks::MemoryBlocks;
pub use profile::{Profile, ProfileFault};
pub use table::{bits_of, class_a_of, kind_of, octets_of, rate, step};

#[cfg(test)]
mod tests;
