//! The lines of a session description (RFC 4566), its audio section, and what the lines of that
//! section say of payload types.
#![tactic(auto)]

mod attributes;
mod codecs;
mod formats;
mod kinds;
mod lines;
mod pieces;
mod section;
mod told;

pub use attributes::{Format, Map};
pub use codecs::codec_name;
pub use formats::Media;
pub use told::{Attributes, Section, read_section};

#[cfg(test)]
mod tests;
