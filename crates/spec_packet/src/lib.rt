//! What an RTP packet and a log of packets say (RFC 3550, 5; RFC 4571, 2): definitions alone.
#![tactic(auto)]

mod refusal;

pub use refusal::RtpRefusal;
