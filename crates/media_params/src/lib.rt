//! Media parameters of AMR and AMR-WB (RFC 4867, 8.1 and 8.2), read from a text and printed.
#![tactic(auto)]

mod fmtp;
mod given;
mod laws;
mod names;
mod pieces;
mod printing;
mod reading;
mod values;

pub use fmtp::Fmtp;
pub use laws::reads_what_was_printed;
pub use printing::print_fmtp;
pub use reading::read_fmtp;
pub use refusals::{FmtpRefusal, Param};
pub use values::read_modes;

#[cfg(test)]
mod tests;
