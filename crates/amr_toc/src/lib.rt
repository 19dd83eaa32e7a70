//! Tables of contents of payloads, payloads that are read in place, and those that are to be written (RFC 4867, 4.3 and 4.4).
#![tactic(auto)]

mod checks;
mod counts;
mod entry;
mod header;
mod octets;
mod payload;
mod read;
#[cfg(test)]
mod tests;
mod view;
mod walk;
mod write;

pub use checks::check_over;
pub use counts::{bits_before, checks_of, misfit_of, octets_before};
pub use entry::{Entry, Toc};
pub use header::{header_octets, interleaving_number};
pub use octets::are_octets;
pub use payload::Payload;
pub use read::{entries_within, read_toc};
pub use spec_payload::PayloadRefusal;
pub use view::PayloadView;
pub use walk::Walk;
pub use write::{entries_of, write_toc};
