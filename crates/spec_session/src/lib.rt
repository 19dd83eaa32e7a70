//! Which packets of a session are accepted, which copies are in time, and what is released of them:
//! definitions alone. The rules are this project's own.
#![tactic(auto)]
