//! How a program ends that reads the units of a stream.

/// Why the reading of units stopped.
#[derive(Clone, Copy, Debug, PartialEq, Eq)]
pub enum UnitStop {
    /// The input ended between two packets.
    Done,
    /// The input failed.
    ReadFault,
    /// The output failed.
    WriteFault,
    /// The input ended inside a packet, at this octet.
    Cut { place: u64 },
    /// As many octets were read as may be.
    Limit,
    /// There was no memory to begin.
    NoMemory,
}

/// What was read and written before the stop.
#[derive(Clone, Copy, Debug, PartialEq, Eq)]
pub struct UnitTally {
    /// The units that were pictures.
    pub pictures: u64,
    /// The losses, and the units that were no pictures.
    pub gaps: u64,
    /// The octets that were written.
    pub octets: u64,
}

/// Why the reading stopped, and what was read and written until then.
#[derive(Clone, Copy, Debug, PartialEq, Eq)]
pub struct UnitEnd {
    pub stop: UnitStop,
    pub tally: UnitTally,
}
