//! A trial: blocks made from a number, sent over a line that loses, repeats and reorders packets,
//! and recorded. Definitions alone; all of it is this project's own.
#![tactic(auto)]
