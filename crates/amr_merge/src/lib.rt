//! Frames by quality: the order of two, the better of two, and the laws of the best of several.
#![tactic(auto)]

mod laws;
mod order;

pub use laws::{better_is_the_greater, orders_by_quality, the_same_frames_have_the_same_best};
pub use order::{compare, keep_better};

#[cfg(test)]
mod tests;
