//! Payloads of AMR and AMR-WB frames in every format (RFC 4867, 4.3 and 4.4), read in place and written.
#![tactic(auto)]

mod compare;
#[cfg(test)]
mod cut_tests;
mod laws;
mod pad;
mod read;
mod strict;
#[cfg(test)]
mod tests;
mod write;
#[cfg(test)]
mod write_tests;

pub use laws::{
    reads_what_was_written, says_what_is_written, strict_values_have_one_payload,
    takes_what_was_written, writes_what_is_said,
};
pub use read::read_payload;
pub use write::{size_payload, write_payload};
