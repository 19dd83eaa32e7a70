//! Bandwidth-efficient payloads of AMR and AMR-WB frames (RFC 4867, 4.3), read in place and written.
#![tactic(auto)]

mod laws;
mod read;
#[cfg(test)]
mod tests;
mod write;

pub use laws::{reads_what_was_written, writes_what_was_read};
pub use read::read_be;
pub use write::{size_be, write_be};
