//! Laws of the definitions of payloads, in every format: each is the contract of a function that does
//! nothing. Those of bandwidth-efficient payloads alone ask less, since these carry no CRC.
#![tactic(auto)]

mod crc;
mod grammar;
mod packed;
mod reading;

pub use crc::has_one_crc;
pub use grammar::has_one_value;
pub use packed::{packed_is_read_or_refused, reads_exactly_packed_grammar, reads_packed_grammar};
pub use reading::{is_read_or_refused, reads_exactly_its_grammar, reads_its_grammar};
