//! Plain packets: RTP packets whose header has nothing but its fixed fields (RFC 3550, 5.1), and
//! whose payload is one bandwidth-efficient frame with bits (RFC 4867, 4.3). A few octets tell
//! them, and their frame is loaded with no view of a payload between.
#![tactic(auto)]

mod head;
mod laws;
mod load;
mod shape;
mod view;

pub use laws::plain_packets_are_heard;
pub use view::PlainPacket;
