//! Offers of AMR and AMR-WB as session descriptions make them, the answer to an offer and its text
//! (RFC 3264, RFC 4867, 8.3).
#![tactic(auto)]

mod answer;
mod offer;
mod read;
mod text;

pub use answer::{Answer, Chosen, Wanted, choose_answer};
pub use offer::{Offer, OfferError, OfferedType};
pub use read::read_offer;
pub use text::write_answer;

#[cfg(test)]
mod tests;
