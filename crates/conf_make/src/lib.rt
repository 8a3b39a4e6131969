//! A conference to try a bridge on: a conference file with packets of small pictures, some of them lost, made of a number.
#![tactic(auto)]

mod draws;
mod entries;
mod laws;
mod maker;
mod output;
mod pictures;

pub use laws::made_files_are_conferences;
pub use maker::{MakeEnd, MakeStop, make};
pub use output::MakeTally;

#[cfg(test)]
mod tests;
