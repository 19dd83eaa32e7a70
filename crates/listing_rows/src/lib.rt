//! Worked examples of listings, computed on the definitions. Each is the contract of a function
//! that does nothing; what is expected was worked out by hand.
#![tactic(auto)]

mod listings;

pub use listings::{
    ends_of_listings, listed_modes, listed_packets, listed_payloads, listed_refusals,
};
