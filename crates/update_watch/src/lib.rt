//! A watch on forced updating (H.261, 3.4): whether a sender codes each macroblock INTRA at least once in every 132 times
//! that it sends it, and where it does not.
#![tactic(auto)]

mod counts;
mod frames;
mod line;
mod overdue;
mod watch;

pub use frames::{WatchEnd, watch_frames};
pub use overdue::Overdue;
pub use watch::Watch;

#[cfg(test)]
mod tests;
