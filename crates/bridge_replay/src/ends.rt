//! How a replay ends.

use cif_pack::Tally;
use conf_file::EntryWhy;

/// Why a replay stopped.
#[derive(Clone, Copy, Debug, PartialEq, Eq)]
pub enum ReplayStop {
    /// The end of the conference was read.
    Done,
    /// The source failed.
    ReadFault,
    /// The sink failed.
    WriteFault,
    /// The file ended before the end of the conference, after so many octets.
    Cut { place: u64 },
    /// What begins at this octet is no header or no entry.
    BadRecord { place: u64, why: EntryWhy },
    /// As many octets were taken as may be.
    Limit,
    /// There was not the memory to begin.
    NoMemory,
}

/// How a replay ended.
#[derive(Clone, Copy, Debug, PartialEq, Eq)]
pub struct ReplayEnd {
    pub stop: ReplayStop,
    pub tally: Tally,
}
