//! The chair's lines: the command of a line, or its first fault, and the line of a command.
#![tactic(auto)]

mod laws;
mod numbers;
mod reader;
#[cfg(test)]
mod tests;
mod words;
mod writer;

pub use laws::{one_answer, written_lines_are_read};
pub use pel_model::{Command, Quad};
pub use reader::{LineFault, LineWhy, has_words, read_line};
pub use writer::write_line;
