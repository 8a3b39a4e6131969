//! What a reader answers: an entry, or why there is no further one.

use chair_words::{Command, LineFault};
use thiserror::Error;

/// An entry of the file.
#[derive(Debug, Clone, Copy)]
pub enum Entry<'a> {
    /// An RTP packet of a lane.
    Packet { lane: u8, bytes: &'a [u8] },
    /// A command of the chair.
    Order(Command),
    /// A tick of 1 to 31 steps.
    Step(u8),
    /// The end of the conference.
    End,
}

/// Why octets are no part of a conference file.
#[derive(Debug, Clone, Copy, PartialEq, Eq)]
pub enum EntryWhy {
    /// The file does not begin with a header.
    Header,
    /// No entry begins with this octet.
    Kind,
    /// A packet of a lane that the conference does not have.
    Lane,
    /// A tick of 0 steps or of more than 31.
    Step,
    /// A line of the chair that says no command, and its fault.
    Order(LineFault),
}

/// Why there is no further entry.
#[derive(Debug, Clone, Copy, PartialEq, Eq, Error)]
pub enum EntryEnd {
    /// What begins at this place, in octets from the first that was taken, is no header or no entry.
    #[error("{why:?} at {place}")]
    Bad { place: u64, why: EntryWhy },
    /// The source ended before the end of the conference, after so many octets in all.
    #[error("cut at {place}")]
    Cut { place: u64 },
    /// The source failed.
    #[error("fault")]
    Fault,
    /// The budget is used up.
    #[error("limit")]
    Limit,
}
