//! A recorded conference, replayed or told: a conference file is read entry by entry, and for each tick the packets of the
//! composed picture are written; or for each step of the file's history its line.
#![tactic(auto)]

mod account;
mod conference;
mod ends;
mod idle;
mod job;
mod laws;
mod lines;
mod spare;
mod telling;

pub use cif_pack::{Settings, Tally};
pub use ends::{ReplayEnd, ReplayStop};
pub use idle::Idle;
pub use job::replay;
pub use laws::{one_account, one_history, packets_are_read_back, worked_replay};
pub use telling::{HistoryEnd, LineTally, history};

#[cfg(test)]
mod history_tests;
#[cfg(test)]
mod tests;
