//! The plan of the four places of a conference: who stands where, which places are pinned, and who spoke when.
#![tactic(auto)]

mod laws;
mod per_place;
mod plan;
mod ranks;
#[cfg(test)]
mod tests;

pub use chair_words::Command;
pub use laws::{
    one_place_for_a_lane, refusals_change_nothing, speakers_stand, standing_lanes_exist,
};
pub use pel_model::{Quad, Reply};
pub use per_place::PerPlace;
pub use plan::Plan;
