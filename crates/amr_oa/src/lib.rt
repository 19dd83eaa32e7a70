//! Octet-aligned payloads of AMR and AMR-WB frames (RFC 4867, 4.4), read in place and written.
#![tactic(auto)]

mod body;
mod laws;
mod read;
#[cfg(test)]
mod tests;
mod write;

pub use laws::reads_what_was_written;
pub use read::read_oa;
pub use write::{size_oa, write_oa};
