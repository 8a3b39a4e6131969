//! The words after the program's name: which words ask for which job, and the help that tells a person.
#![tactic(auto)]

mod fault;
mod given;
mod help;
mod job;
mod laws;
mod live;
mod names;
mod number;
mod reader;
mod table;
#[cfg(test)]
mod tests;
mod wrong;

pub use fault::WordsFault;
pub use help::{COMMANDS, Command};
pub use job::{FormatOptions, Job, LiveOptions, MakeOptions, PacketOptions};
pub use laws::one_job;
pub use names::{Name, Names};
pub use pel_model::Format;
pub use reader::read_words;
pub use wrong::{Wanted, Wrong, unknown_command, what_is_wrong};
