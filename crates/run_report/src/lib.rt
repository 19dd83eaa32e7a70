//! What a run reports: how it ended, what it counted, and the notes that tell both. Each note is one line of ASCII text that
//! ends with LF.
#![tactic(auto)]

mod counts;
mod end;
mod line;
mod notes;
mod report;

pub use counts::Counts;
pub use end::RunEnd;
pub use notes::{write_notes, write_usage};
pub use report::{CountLines, RunReport};

#[cfg(test)]
mod tests;
