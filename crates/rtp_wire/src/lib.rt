//! RTP on a byte stream: packets and their fixed header (RFC 3550), and the frames that carry them (RFC 4571).
#![tactic(auto)]

mod frames;
mod header;
mod laws;

pub use frames::{FrameEnd, Framer, LONGEST_PACKET, packet_length};
pub use header::{Packet, PacketFault, read_packet, write_header};
pub use laws::{
    answers_of_a_framer, frames_of_a_stream, octets_of_packets, one_stream, streams_are_framed,
    written_headers_are_read,
};

#[cfg(test)]
mod tests;
