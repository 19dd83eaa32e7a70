//! The words of the command line: pairs of an option and its value, and the table of options:
//! definitions alone. All of it is this project's own.
#![tactic(auto)]
