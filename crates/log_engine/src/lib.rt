//! One loop for every command that reads a log: records go to a handler, what it puts out is gathered and written before each
//! read, and the contract says that the run did what the handler's job means.
#![tactic(auto)]

mod gather;
mod gather_sink;
mod handler;
mod run;
mod turns;

pub use gather::Gather;
pub use gather_sink::GatherSink;
pub use handler::RecordHandler;
pub use run::run_records;

#[cfg(test)]
mod tests;
