//! Laws of listings of packet logs: each is the contract of a function that does nothing.
#![tactic(auto)]

mod growing;

pub use growing::a_listing_grows;
