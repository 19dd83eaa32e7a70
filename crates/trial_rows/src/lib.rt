//! Worked examples of trials, computed on the definitions. Each is the contract of a function
//! that does nothing; what is expected was worked out by hand, with a pocket calculator for the
//! products of 64 bits.
#![tactic(auto)]

mod trials;

pub use trials::{deliveries, draws, empty_trials, five_blocks};
