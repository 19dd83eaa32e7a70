//! Worked examples, computed on the definitions. Each is the contract of a function that does
//! nothing; the expected octets were worked out by hand from the standards.
#![tactic(auto)]

mod frames;
mod logs;
mod packets;
mod payloads;
mod recordings;
mod storage;

pub use frames::{
    blocks_of_two_channels, frame_crcs, frames_by_quality, robust_orders, valid_formats,
};
pub use logs::{counts_of_sessions, recordings_end, records_of_logs};
pub use packets::{refused_headers, refused_places, whole_headers};
pub use payloads::{canonical_payloads, refused_payloads, refused_tables, strict_payloads};
pub use recordings::{aligned_payloads, copies_and_order, packed_payloads, places_and_gaps};
pub use storage::{headers, refused_files, stored_frames};
