//! Records whose length stands in 16 bits at octet AT of a head of HEAD octets, read one after the
//! other and lent in place.
#![tactic(auto)]

mod head;
mod laws;
mod next;
mod reader;

pub use laws::{a_log_has_one_cut, octets_have_one_cut};
pub use next::Next;
pub use reader::RecordReader;

#[cfg(test)]
mod tests;
