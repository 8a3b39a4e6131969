//! What a tick tells.

/// A picture that was taken: its lane, counted from 0, and its serial in the lane, counted from 1.
#[derive(Clone, Copy, Debug, PartialEq, Eq)]
pub struct Take {
    pub lane: u8,
    pub serial: u64,
}

/// What a tick tells.
#[derive(Clone, Copy, Debug, PartialEq, Eq)]
pub struct TickNote {
    /// The tick's step in pictures at 29.97 Hz, 1 to 31.
    pub step: u8,
    /// The sum of the steps of all ticks so far, this one included.
    pub total: u64,
    /// What was taken in each place.
    pub taken_one: Option<Take>,
    pub taken_two: Option<Take>,
    pub taken_three: Option<Take>,
    pub taken_four: Option<Take>,
    /// The lanes for which the conference waits: bit c stands for lane c.
    pub waiting: u16,
}
