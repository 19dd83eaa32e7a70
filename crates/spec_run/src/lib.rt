//! What a job means, and what an engine did for it to what it was lent: definitions alone. This project's own.
#![tactic(auto)]
