//! Offers of AMR and AMR-WB (RFC 3264, RFC 4566, RFC 4867, 8.3) as they are read, and the answer
//! to them: definitions alone.
#![tactic(auto)]

pub use refusals::{OfferRefusal, RefusedType, Why};
