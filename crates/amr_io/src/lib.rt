//! The outside as every layer above sees it: sources that octets come from, sinks that they go to, a count of faults in
//! each, and an inlet that holds what came until it is used.
#![tactic(auto)]

mod edge;
mod faultless;
mod gate;
mod inlet;
mod memory_sink;
mod memory_source;
mod sink;
mod source;
mod whole;

pub use edge::{ReadSource, WriteSink};
pub use faultless::{DropSink, FaultlessSource};
pub use gate::{Filled, Gate};
pub use inlet::Inlet;
pub use memory_sink::MemorySink;
pub use memory_source::MemorySource;
pub use sink::Sink;
pub use source::{Failed, Source};
pub use whole::{write_whole, write_whole_headed};

#[cfg(test)]
mod tests;
