//! The jobs that words ask for.

use crate::names::{Name, Names};
use pel_model::Format;

/// A job and its options.
#[derive(Debug, Drop)]
pub enum Job<'a> {
    /// A conference file is composed into framed packets.
    Replay(PacketOptions),
    /// The history of a conference file is told.
    History,
    /// The pictures of framed packets are reported.
    Check(FormatOptions),
    /// The pictures of framed packets are decoded.
    Decode(FormatOptions),
    /// A conference file is made.
    Make(MakeOptions),
    /// A conference is composed while it is held.
    Live(LiveOptions<'a>),
}

/// How packets are written.
#[derive(Clone, Copy, Debug, PartialEq, Eq)]
pub struct PacketOptions {
    /// The most octets of a packet, 1,000 to 9,000.
    pub mtu: u16,
    /// The SSRC.
    pub ssrc: u32,
    /// The first sequence number.
    pub seq: u16,
    /// The timestamp before the first tick.
    pub stamp: u32,
}

/// Which pictures are read.
#[derive(Clone, Copy, Debug, PartialEq, Eq)]
pub struct FormatOptions {
    pub format: Format,
}

/// What conference file is made.
#[derive(Clone, Copy, Debug, PartialEq, Eq)]
pub struct MakeOptions {
    /// Where the random numbers begin.
    pub seed: u32,
    /// The number of ticks, at most 1,000,000.
    pub ticks: u32,
    /// The number of lanes, 1 to 16.
    pub lanes: u8,
}

/// Where a live conference comes from, how its packets are written, and how long it may be.
#[derive(Debug, Drop)]
pub struct LiveOptions<'a> {
    /// The names of the lanes, 1 to 16.
    pub lanes: Names<'a>,
    /// The name of what the chair's lines come from.
    pub chair: Name<'a>,
    pub packets: PacketOptions,
    /// The most turns of lanes, chair and ticks together, 1 to 1,099,511,627,776.
    pub turns: u64,
}
