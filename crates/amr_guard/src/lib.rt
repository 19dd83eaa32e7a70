//! The frame CRC of octet-aligned payloads, and the robust order of their octets (RFC 4867, 4.4.2.1
//! and 4.4.4).
#![tactic(auto)]

mod crc;
mod places;
mod sorting;
mod table;
#[cfg(test)]
mod tests;

pub use crc::crc8;
pub use places::sorted_place;
pub use sorting::{sort_octets, unsort_octets};
