//! A turn lock: callers draw tickets, wait for their turn, and step one machine that goes from seat to seat. It is
//! proved once for every machine, and its contracts tell each caller the history that it was part of. Its laws say what
//! workers that share one lock may conclude from their own turns: where all seats are joined again, the history is the
//! turns of the workers and no others.
#![tactic(auto)]

mod laws;
mod machine;
mod plays;
mod seat;
mod shared;
mod steps;
mod tale;
#[cfg(test)]
mod tests;
mod turns;
mod view;
#[cfg(test)]
mod worker_tests;

pub use laws::{
    finish_comes_last, history_is_shared_out, items_are_gathered, output_is_gathered,
    seats_join_one_by_one, steps_are_told, turns_are_sorted, turns_tell_items,
};
pub use machine::Machine;
pub use seat::{Past, Seat};
pub use shared::{Closed, Over, Shared};
pub use tale::Tale;
pub use view::Turn;
