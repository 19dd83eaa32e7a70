//! Why a storage file, media parameters, an offer and an offered payload type are refused, and the names by which notes tell
//! it.
#![tactic(auto)]

mod answer;
mod media;
mod offer;
mod param;
mod store;

pub use answer::{RefusedType, Why};
pub use media::FmtpRefusal;
pub use offer::OfferRefusal;
pub use param::Param;
pub use store::StoreRefusal;
