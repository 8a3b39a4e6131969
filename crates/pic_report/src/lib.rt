//! A report of a stream of framed packets: a line for each picture, each loss, and each unit that is no picture.
#![tactic(auto)]

mod check;
mod lines;

pub use check::check_frames;

#[cfg(test)]
mod tests;
