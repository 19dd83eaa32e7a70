//! Laws of the packets that are sent for a list of blocks: each is the contract of a function that
//! does nothing.
#![tactic(auto)]

mod begun;
mod groups;

pub use begun::what_is_begun_stays;
pub use groups::{packets_carry_their_places, places_and_blocks_are_inverse};
