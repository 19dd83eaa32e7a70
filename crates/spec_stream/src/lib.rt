//! What streaming a storage file and converting a packet log put out, how they end, and what they note:
//! definitions alone. The commands are this project's own.
#![tactic(auto)]
