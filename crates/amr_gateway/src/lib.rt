//! The engines of the commands: each reads its input to the end, or to the first fault, and writes what its job asks.
#![tactic(auto)]

mod record;
mod recorder;
#[cfg(test)]
mod tests;

pub use answer_engine::{AnswerJob, Wanted, answer_offer};
pub use convert_engine::{ConvertJob, convert_log};
pub use list_engine::{ListJob, ModeSet, list_log};
pub use record::record_log;
pub use record_hearing::RecordJob;
pub use run_report::{Counts, RunEnd, RunReport};
pub use stream_engine::{StreamJob, stream_file};
pub use trial_engine::{Draws, TrialJob, run_trial};
