//! A live conference: the workers of its lanes, its chair and its mixer, which share one hall under a lock.
#![tactic(auto)]

mod calls;
mod chair;
mod crew;
mod ends;
mod lane;
mod laws;
mod lines;
mod mixer;
mod qcif;
mod run;
#[cfg(test)]
mod tests;
mod worker;
mod writer;

pub use calls::{Halt, call};
pub use chair::{Chair, ChairCounts, run_chair};
pub use ends::{ChairEnd, ChairStop, LaneEnd, LaneStop, MixStop, ServeEnd, Unserved};
pub use lane::{Counts, Lane, run_lane};
pub use laws::{
    chair_of_a_told_source, flow_of_packets, lanes_of_told_sources, one_hearing,
    stops_of_a_conference,
};
pub use lines::{KEPT, next_line};
pub use mixer::{MixCounts, Mixer, Quiet, Taken, run_mixer};
pub use qcif::QcifBox;
pub use run::serve;
pub use writer::PictureWriter;
