//! Texts that are read line by line: lines, words, numbers, hexadecimal and labels, and their printing.
#![tactic(auto)]

pub mod label;
pub mod lines;
pub mod print;
pub mod words;

pub use label::{Label, is_client_label};
pub use lines::{find_byte, first_wrong_lines, next_line};
pub use print::{push_name, push_number, push_text};
pub use words::{bytes, hex_bytes, name, number, split_at_space, words_are_joined};

#[cfg(test)]
mod tests;
