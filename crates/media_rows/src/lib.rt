//! Worked examples of media parameters, offers, answers and mode sets, computed on the
//! definitions. Each is the contract of a function that does nothing; what is expected was worked
//! out by hand.
#![tactic(auto)]

mod answers;
mod modes;
mod offers;
mod parameters;

pub use answers::{
    answered_offers, ends_of_answers, noted_offers, reasons_against_types, suited_types,
};
pub use modes::{desks, mode_sets, requests};
pub use offers::{lines_of_texts, offered_types, read_attributes, read_media, refused_offers};
pub use parameters::{accepted_parameters, printed_parameters, refused_parameters, refused_values};
