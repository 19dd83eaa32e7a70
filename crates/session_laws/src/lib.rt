//! Laws of sessions. Each is the contract of a function that does nothing.
#![tactic(auto)]

mod place;
mod release;

pub use place::a_packet_has_one_place;
pub use release::{a_longer_session_keeps_the_copies, what_is_released_stays};
