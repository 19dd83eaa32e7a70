//! Worked examples of sessions in segments, computed on the definitions. Each is the contract of a
//! function that does nothing; what is expected was worked out by hand.
#![tactic(auto)]

mod begun;
mod judged;
mod refused;

pub use begun::{segments_begin, segments_go_on};
pub use judged::{what_goes_out, what_is_refused};
pub use refused::packets_out_of_sequence;
