//! Packets of a log, read one after the other and lent in place (RFC 4571, 2).
//! RTP packets, read in place and written (RFC 3550, 5.1).
#![tactic(auto)]

mod fields;
mod fit;
mod header;
mod laws;
mod log_reader;
mod log_writer;
mod next;
mod packet_sink;
mod put;
mod read;
mod view;
mod write;

pub use fields::RtpFields;
pub use laws::{
    octets_tell_one_answer, reads_its_grammar, reads_what_is_written, writes_what_is_read,
};
pub use log_reader::LogReader;
pub use log_writer::{LogWriter, log_head};
pub use next::Next;
pub use packet_sink::PacketSink;
pub use read::read_rtp;
pub use spec_packet::RtpRefusal;
pub use view::RtpView;
pub use write::{size_rtp, write_rtp};

#[cfg(test)]
mod log_writer_tests;
#[cfg(test)]
mod reader_tests;
#[cfg(test)]
mod rtp_tests;
