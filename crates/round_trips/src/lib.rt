//! Laws that need both the readers and the writers of payloads, and the grammar. Each is the contract of a function that
//! changes nothing.
#![tactic(auto)]

mod again;

pub use again::writes_what_was_read;
