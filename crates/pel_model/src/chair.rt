//! What the chair of a conference orders, and what the plan of the four places replies.

use crate::Quad;

/// A command of the chair. Lanes are numbered from 0.
#[derive(Clone, Copy, Debug, PartialEq, Eq)]
pub enum Command {
    /// The lane leaves its place, if it has one, and stands in this one in place of whoever stood there.
    Place(Quad, u8),
    /// The place becomes empty.
    Clear(Quad),
    /// What stands in the two places changes places. Pins stay where they are.
    Swap(Quad, Quad),
    /// The lane is the newest speaker. If it stands in no place, one is found for it.
    Speaker(u8),
    /// The place is not given to a speaker until it is unpinned.
    Pin(Quad),
    /// The place may be given to a speaker.
    Unpin(Quad),
}

/// The answer to a command.
#[derive(Clone, Copy, Debug, PartialEq, Eq)]
pub enum Reply {
    /// The command was carried out.
    Done,
    /// The conference has no such lane.
    NoLane,
    /// The places are as the command asks already.
    SamePlace,
    /// The speaker stands in no place, and all four are pinned.
    AllPinned,
}
