//! The words of the command line: a command, and behind it pairs of an option and its value, in any order.
#![tactic(auto)]

mod command;
mod options;
mod table;
mod values;
mod words;

pub use command::{
    AnswerWords, Command, ConvertWords, ListWords, RecordWords, StreamWords, TrialWords,
    read_command,
};

#[cfg(test)]
mod refused_tests;
#[cfg(test)]
mod tests;
