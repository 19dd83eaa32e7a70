//! Interleaving groups (RFC 4867, 4.4.1): where each block stands in them, and the blocks of one
//! group and some before it, kept until they are sent for the last time.
#![tactic(auto)]

mod buffer;
mod laws;
mod plan;

pub use buffer::GroupBuffer;
pub use laws::each_block_is_in_one_packet;
pub use plan::GroupPlan;

#[cfg(test)]
mod tests;
