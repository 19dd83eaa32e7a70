//! The engine that streams a storage file: its blocks are read one after another and sent as a log
//! of packets, and the contract says that the run did what streaming means.
#![tactic(auto)]

mod held;
mod job;
mod run;
mod send;
mod stream;
mod turns;

pub use job::StreamJob;
pub use run_report::{Counts, RunEnd, RunReport};
pub use send::{send_block, send_rest};
pub use spec_sending::SendPlan;
pub use stream::stream_file;

#[cfg(test)]
mod held_tests;
#[cfg(test)]
mod tests;
