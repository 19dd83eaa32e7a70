//! Laws of what streaming a storage file and converting a packet log put out: each is the contract of
//! a function that does nothing.
#![tactic(auto)]

mod converting;
mod early;

pub use converting::what_is_converted_early_stays;
pub use early::what_goes_out_early_stays;
