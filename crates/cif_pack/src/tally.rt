//! What is counted of a conference.
ghost use Rattle.std.specs.Prelude.{◌≡◌};
ghost use Rattle.cif_pack.specs.Tallies.{takes_in};

use pel_model::TickNote;

/// The steps of a conference by their kinds, and what was written.
#[derive(Clone, Copy, Debug, Default, PartialEq, Eq)]
pub struct Tally {
    /// The ticks.
    pub ticks: u64,
    /// The pictures that came whole.
    pub pictures: u64,
    /// The gaps: losses, and units that were no pictures.
    pub gaps: u64,
    /// The commands of the chair.
    pub commands: u64,
    /// The commands that were refused.
    pub refused: u64,
    /// The pictures that ticks took.
    pub taken: u64,
    /// The packets of the pictures that were written whole.
    pub packets: u64,
    /// Their octets, with the two of each frame's length.
    pub octets: u64,
}

/// How many places a tick took a picture in.
pub fn takes_in(note: &TickNote) -> u64
    ensures { result ≡ takes_in note.now }
{
    u64::from(note.taken_one.is_some())
        + u64::from(note.taken_two.is_some())
        + u64::from(note.taken_three.is_some())
        + u64::from(note.taken_four.is_some())
}
