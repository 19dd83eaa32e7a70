//! Worked examples of files that are read and of packets that are sent, computed on the
//! definitions. Each is the contract of a function that does nothing; the expected octets were
//! worked out by hand from the standards.
#![tactic(auto)]

mod calls;
mod files;
mod packets;
mod plans;
mod runs;

pub use calls::{calls_repaired, calls_with_repeats, fields_of_packets};
pub use files::{blocks_before_a_fault, cut_files, files_that_show_a_fault, free_places};
pub use packets::{groups_and_rest, places_in_groups, streamed_frames};
pub use plans::{refused_groups, refused_plans, valid_plans};
pub use runs::{converted_logs, notes_of_runs, refused_streams, streams_end, what_goes_out_early};
