//! The sender: blocks in their order go in, and RTP packets with AMR and AMR-WB payloads come out,
//! from memory that is reserved at the start.
#![tactic(auto)]

mod groups;
mod laws;
mod packet;
mod sender;
mod single;
#[cfg(test)]
mod tests;

pub use laws::calls_add_up;
pub use sender::Sender;
pub use spec_sending::{SendFault, SendPlan};
