//! Sessions in segments: the second of two refused packets in sequence begins a new segment. Which
//! packets are accepted then, which copies are in time, and what is released: definitions alone. The
//! rules are this project's own.
#![tactic(auto)]
