// What an engine reports of its run.

use crate::counts::Counts;
use crate::end::RunEnd;

/// How a run ended, and what it counted. After a fault and for want of memory the counts say nothing.
#[derive(Clone, Debug, PartialEq, Eq, Drop)]
pub struct RunReport {
    pub end: RunEnd,
    pub counts: Counts,
}

/// Which lines a command notes of its counts, before the line of its end.
#[derive(Clone, Copy, Debug, PartialEq, Eq)]
pub enum CountLines {
    /// No line.
    None,
    /// The line of a recording: all counts but those of sent packets.
    Recording,
    /// The line of sending: the blocks and the packets.
    Sending,
    /// The line of a recording, and that of sending what it releases.
    Converting,
    /// A line for each offered payload type that doesn't suit.
    Answering,
}
