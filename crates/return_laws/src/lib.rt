//! Laws of what is recorded: what is sent for blocks, heard or recorded, is these blocks again, and
//! which other logs are recorded as the same file. Each is the contract of a function that does
//! nothing.
#![tactic(auto)]

mod recordings;
mod same_files;
mod sessions;

pub use recordings::{a_file_comes_back, what_is_left_is_recorded, what_is_sent_is_recorded};
pub use same_files::{
    accepted_packets_are_recorded_the_same, logs_in_any_order_are_recorded_the_same,
};
pub use sessions::{
    what_is_left_repairs, what_is_sent_comes_back, what_stands_together_is_bounded,
};
