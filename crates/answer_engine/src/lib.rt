//! The engine that answers an offer: a session description is read whole, the answer is chosen and
//! written, and the contract says that the run did what answering means.
#![tactic(auto)]

mod answer;
mod job;
mod read;
mod reply;

pub use amr_sdp::Wanted;
pub use answer::answer_offer;
pub use job::AnswerJob;
pub use run_report::{Counts, RunEnd, RunReport};

#[cfg(test)]
mod tests;
