//! Hearing the records of a log: the packets of the session go to the receiver, the blocks that go out on each to a sink,
//! and each record is counted by what became of it.
#![tactic(auto)]

mod hear;
mod heard;
mod job;
mod listener;

pub use job::RecordJob;
pub use listener::Listener;
