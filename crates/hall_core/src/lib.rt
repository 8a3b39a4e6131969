//! The hall of a conference: the rings of its lanes, the plan of its places, and what its ticks take.
#![tactic(auto)]

mod hall;
mod machine;
#[cfg(test)]
mod tests;
#[cfg(test)]
mod tests_machine;
mod turns;

pub use h261_pic::{Coded, Hand};
pub use hall::{Ended, Hall};
pub use machine::{HallCall, HallReply};
pub use pel_model::{Command, Quad, Reply, Take, TickNote};
pub use turns::{finish_is_never_late, taken_into_hand, turns_are_steps};
