//! How the workers of a live conference end, and what comes back of what they were handed.

use crate::chair::ChairCounts;
use crate::lane::Counts;
use cif_pack::Tally;
use hall_core::Hall;
use hall_lock::{Closed, Past};

/// Why a lane stopped.
#[derive(Clone, Copy, Debug, PartialEq, Eq)]
pub enum LaneStop {
    /// The source ended between two frames.
    Whole,
    /// The source ended inside a frame, and the gap for it was counted.
    Cut,
    /// The source failed, and the gap for it was counted.
    Fault,
    /// As many octets were taken as may be, and the gap for it was counted.
    Limit,
    /// A call was given back, since no step may follow.
    Ended,
    /// A call was given back, since all turns are drawn.
    Over,
}

/// Why the chair stopped.
#[derive(Clone, Copy, Debug, PartialEq, Eq)]
pub enum ChairStop {
    /// The source ended.
    Whole,
    /// The source failed.
    Fault,
    /// As many octets were taken as may be.
    Limit,
    /// A command was given back, since no step may follow.
    Ended,
    /// A command was given back, since all turns are drawn.
    Over,
}

/// Why the mixer stopped.
#[derive(Clone, Copy, Debug, PartialEq, Eq)]
pub enum MixStop {
    /// The ticker had no step left; or, since no step may follow, a call was given back.
    Whole,
    /// The sink failed.
    Sink,
    /// The ticker failed.
    Ticker,
    /// A call was given back, since all turns are drawn, and neither the ticker nor the sink failed.
    Over,
}

/// A lane behind its work: its source, why it stopped, the steps that it made, and the seat that it made them with, which
/// only contracts see.
#[derive(Drop)]
pub struct LaneEnd<S> {
    pub source: S,
    pub stop: LaneStop,
    pub counts: Counts,
    pub past: Past<Hall>,
}

/// The chair behind its work, likewise.
#[derive(Drop)]
pub struct ChairEnd<S> {
    pub source: S,
    pub stop: ChairStop,
    pub counts: ChairCounts,
    pub past: Past<Hall>,
}

/// A live conference behind its work: why the mixer stopped, everything that was handed in, the ends of the chair and of the
/// lanes in their order, the hall with its number of steps, and what was counted.
#[derive(Drop)]
pub struct ServeEnd<S, C, K> {
    pub stop: MixStop,
    pub ticker: C,
    pub sink: K,
    pub chair: ChairEnd<S>,
    pub lanes: Vec<LaneEnd<S>>,
    pub hall: Closed<Hall>,
    /// The mixer's seat, which only contracts see.
    pub mixer: Past<Hall>,
    pub tally: Tally,
}

/// There was no memory for a conference, and no worker began. All that was handed in comes back as it was.
#[derive(Drop)]
pub struct Unserved<S, C, K> {
    pub lanes: Vec<S>,
    pub chair: S,
    pub ticker: C,
    pub sink: K,
}
