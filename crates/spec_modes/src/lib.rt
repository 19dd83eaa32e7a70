//! Sets of speech modes, codec mode requests (RFC 4867, 4.3.1 and 8), and the mode desk, which is
//! this project's own: definitions alone.
#![tactic(auto)]

mod request;

pub use request::Request;
