//! The listing of a packet log: a line for each record, with what it says or why it is refused.
//! Definitions alone; the texts are this project's own.
#![tactic(auto)]
