//! Runs of bits in octets, the most significant bit first: borrowed, kept by value, and written one
//! behind the other.
#![tactic(auto)]

mod copying;
mod fixed;
mod slice;
#[cfg(test)]
mod tests;
mod writer;

pub use fixed::FixedBits;
pub use slice::BitSlice;
pub use writer::BitWriter;
