//! How a tool ends that turns one form of a stream of pictures into another.
use pel_model::Why;

/// Why a tool stopped.
#[derive(Clone, Copy, Debug, PartialEq, Eq)]
pub enum ToolStop {
    /// The input was read to its end.
    Done,
    /// The input failed.
    ReadFault,
    /// The output failed.
    WriteFault,
    /// The input ended inside a packet, at this octet.
    Cut { place: u64 },
    /// The bits of the input are no stream of pictures: the first fault is at this bit, counted from the first.
    BadStream { place: u64, why: Why },
    /// No offset was found at which the input is line frames.
    Unaligned,
    /// As many octets were read as may be.
    Limit,
    /// There was no memory to begin.
    NoMemory,
}

/// Why a tool stopped, and what was read and written until then. A number that a tool does not have is 0.
#[derive(Clone, Copy, Debug, PartialEq, Eq)]
pub struct ToolEnd {
    pub stop: ToolStop,
    /// The whole line frames that were read or written.
    pub frames: u64,
    /// The fill frames among them.
    pub fill: u64,
    /// The bad frames among them.
    pub bad: u64,
    /// The pictures that were read.
    pub pictures: u64,
    /// The gaps that were read: losses, and what is no picture.
    pub gaps: u64,
    /// The octets that were written.
    pub octets: u64,
}
