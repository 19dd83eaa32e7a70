//! What a storage file says (RFC 4867, 5), and why others are refused: definitions alone.
#![tactic(auto)]

pub use refusals::StoreRefusal;
