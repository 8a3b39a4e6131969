//! The ring of a lane: the last eight pictures that came and are not taken yet, each with its serial, and the spare
//! boxes for the next ones.
#![tactic(auto)]

mod lane;
mod laws;
#[cfg(test)]
mod tests;

pub use lane::Lane;
pub use laws::{
    gaps_hold_nothing, held_above_a_serial, held_items_seen_as_others, posts_are_held,
    serials_rise, ticks_leave_the_rest,
};
pub use pel_model::Held;
