//! What recording a packet log writes and how it ends: definitions alone. This project's own.
#![tactic(auto)]
