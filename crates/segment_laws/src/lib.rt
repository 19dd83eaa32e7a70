//! Laws of sessions in segments. Each is the contract of a function that does nothing.
#![tactic(auto)]

mod judged;
mod one;
mod placed;
mod puts;
mod recorded;
mod source;
mod stays;

pub use judged::a_verdict_has_its_cause;
pub use one::{
    accepted_packets_are_one_segment, one_segment_is_a_session, one_segment_is_where_none_begins,
    refused_packets_change_nothing,
};
pub use placed::{a_packet_has_one_place_in_its_segment, a_segment_is_a_session};
pub use puts::what_one_more_packet_puts_out;
pub use recorded::{one_segment_is_recorded_as_a_session, what_is_written_stays};
pub use source::a_session_has_one_source;
pub use stays::{a_longer_session_keeps_the_segments, what_is_released_of_segments_stays};
