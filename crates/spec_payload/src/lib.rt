//! What a payload of AMR or AMR-WB frames says, and why others are refused (RFC 4867, 4): definitions alone.
#![tactic(auto)]

mod refusal;

pub use refusal::PayloadRefusal;
