//! The conference file: a header with the number of lanes, and then entries, each a packet of a lane, a command of the
//! chair, a tick or the end.
#![tactic(auto)]

mod answers;
mod entries;
mod fields;
mod header;
mod laws;
mod reader;

pub use answers::{Entry, EntryEnd, EntryWhy};
pub use laws::{answers_of_a_reader, files_are_read, fronts_decide, one_reading};
pub use reader::EntryReader;

#[cfg(test)]
mod tests;
