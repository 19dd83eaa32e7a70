//! The engine that converts a packet log: what a recording of it releases is sent again as a log of
//! packets, and the contract says that the run did what converting means.
#![tactic(auto)]

mod block_sender;
mod convert;
mod converter;
mod hearing;
mod job;

pub use convert::convert_log;
pub use job::ConvertJob;
pub use run_report::{Counts, RunEnd, RunReport};
pub use spec_sending::SendPlan;

#[cfg(test)]
mod tests;
