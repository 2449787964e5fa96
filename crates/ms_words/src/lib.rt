//! The words of the program and its reports.
#![tactic(auto)]

pub mod command;
pub mod line;
pub mod lines;
pub mod reasons;
pub mod refusals;
pub mod report;

pub use command::{Command, Verb, WordsError, read_words};
pub use line::Line;
pub use reasons::{kind_word, place_word, quantity_word, text_word, why_word};
pub use refusals::refusal_line;
pub use report::{Known, Report, print_report, status};

#[cfg(test)]
mod tests;
