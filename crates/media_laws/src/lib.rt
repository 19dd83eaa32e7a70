//! Laws of media parameters, mode sets and the mode desk. Each is the contract of a function that
//! does nothing.
#![tactic(auto)]

mod desk;
mod parameters;

pub use desk::{a_desk_keeps_to_its_set, a_desk_moves_at_its_period, a_desk_moves_to_neighbours};
pub use parameters::what_is_printed_is_read;
