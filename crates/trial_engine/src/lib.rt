//! The engine of a trial: blocks are made from a number and sent, their packets are delivered over
//! a lossy line, and what is recorded of them is summed up.
#![tactic(auto)]

mod blocks;
mod draws;
mod fate;
mod file_sum;
mod frames;
mod job;
mod line;
mod run;
mod summary;
mod tape;
mod trial;
mod waiting;

pub use amr_playout::Plan;
pub use draws::Draws;
pub use job::TrialJob;
pub use run_report::{Counts, RunEnd, RunReport};
pub use spec_sending::SendPlan;
pub use trial::run_trial;

#[cfg(test)]
mod tests;
