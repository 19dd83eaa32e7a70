//! Sets of speech modes, codec mode requests (RFC 4867, 4.3.1), and the mode desk: the mode that a sender would send, step
//! by step, by the requests that it hears.
#![tactic(auto)]

mod desk;
mod mode_set;
mod request;

pub use desk::ModeDesk;
pub use mode_set::ModeSet;
pub use request::request_of;
pub use spec_modes::Request;

#[cfg(test)]
mod tests;
