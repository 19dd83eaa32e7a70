//! Laws of records that no session accepts. Each is the contract of a function that does nothing.
#![tactic(auto)]

mod records;

pub use records::{accepted_records_are_accepted_packets, strangers_change_no_file};
