//! Storage files of AMR and AMR-WB frames (RFC 4867, 5), written and read block by block.
#![tactic(auto)]

mod block;
mod frame;
mod front;
mod header;
mod reader;
mod step;
mod writer;

pub use frame::write_frame;
pub use front::{MOST_UNIT, UnitAhead};
pub use reader::StoreReader;
pub use spec_store::StoreRefusal;
pub use step::Step;
pub use writer::{Stage, StoreWriter, magic, multichannel_magic, write_cells};

#[cfg(test)]
mod reader_tests;
#[cfg(test)]
mod tests;
