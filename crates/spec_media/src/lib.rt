//! The media parameters of AMR and AMR-WB (RFC 4867, 8.1 and 8.2), how a text gives them and how
//! they are printed: definitions alone.
#![tactic(auto)]

pub use refusals::{FmtpRefusal, Param};
