//! Laws of the order of packets. Each is the contract of a function that does nothing.
#![tactic(auto)]

mod example;
mod order;
mod recorded;

pub use example::orders_by_example;
pub use order::{another_order_moves_all_places_alike, another_order_releases_the_same};
pub use recorded::{another_order_is_recorded_the_same, records_hold_whole_blocks};
