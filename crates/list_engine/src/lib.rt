//! The engine that lists a packet log: a line for each record, with what it says or why it is
//! refused, and the contract says that the run did what listing means.
#![tactic(auto)]

mod bits;
mod causes;
mod frames;
mod head;
mod job;
mod line;
mod list;
mod lister;
mod payload;
mod record;

pub use amr_mode::ModeSet;
pub use job::ListJob;
pub use list::list_log;
pub use run_report::{Counts, RunEnd, RunReport};

#[cfg(test)]
mod tests;
