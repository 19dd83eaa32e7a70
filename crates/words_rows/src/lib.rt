//! Worked examples of command lines, computed on the definitions. Each is the contract of a function
//! that does nothing; what is expected was worked out by hand.
#![tactic(auto)]

mod jobs;
mod meanings;
mod usage;

pub use jobs::{answers_and_trials, conversions, listings, recordings, streams};
pub use meanings::meanings_of_jobs;
pub use usage::{no_commands, no_numbers, no_pairs, no_plans, no_values};
