//! The job that the words of the command line ask for, and what it means: definitions alone. All of
//! it is this project's own.
#![tactic(auto)]
