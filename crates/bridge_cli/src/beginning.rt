//! What kind of file an input looks like by its first octets: told to a person who handed in another kind than the command
//! reads.

use arrayvec::ArrayVec;
use command_words::Command;
use std::fmt::{self, Display, Formatter, Write};
use std::io::{self, Read};

/// How many octets are looked at.
const OCTETS: usize = 8;

/// A reader that keeps the first octets that it gave.
#[derive(Drop)]
pub struct Beginning<R> {
    reader: R,
    octets: ArrayVec<u8, OCTETS>,
}

impl<R: Read> Beginning<R> {
    /// A reader of the same octets, none of which it gave yet.
    pub fn new(reader: R) -> Beginning<R> {
        Beginning {
            reader,
            octets: ArrayVec::new(),
        }
    }

    /// The kind of file that it gave, where its first octets tell one.
    pub fn kind(&self) -> Option<Kind> {
        kind_of(self.octets.as_slice())
    }
}

impl<R: Read> Read for Beginning<R> {
    fn read(&mut self, buf: &mut [u8]) -> io::Result<usize> {
        let count = self.reader.read(buf)?;
        for octet in &buf[..count] {
            if self.octets.is_full() {
                break;
            }
            self.octets.push(*octet);
        }
        Ok(count)
    }
}

/// A kind of file that its first octets tell.
#[derive(Clone, Copy, Debug, PartialEq, Eq)]
pub enum Kind {
    /// A conference file.
    Conference,
    /// Packets of RTP, each behind its length.
    Packets,
    /// Pictures of H.261 without packets.
    Video,
    /// Packets of a network, as a tool captured them.
    Capture,
}

/// The beginnings of captures: those of pcap, of either order of octets and either unit of time, and that of pcapng.
const CAPTURES: [[u8; 4]; 5] = [
    [0xD4, 0xC3, 0xB2, 0xA1],
    [0xA1, 0xB2, 0xC3, 0xD4],
    [0x4D, 0x3C, 0xB2, 0xA1],
    [0xA1, 0xB2, 0x3C, 0x4D],
    [0x0A, 0x0D, 0x0D, 0x0A],
];

/// The least octets of an RTP packet (RFC 3550, 5.1).
const LEAST_PACKET: u16 = 12;

// The kind that begins so.
fn kind_of(octets: &[u8]) -> Option<Kind> {
    if octets.starts_with(b"H261CONF") {
        return Some(Kind::Conference);
    }
    if CAPTURES.iter().any(|capture| octets.starts_with(capture)) {
        return Some(Kind::Capture);
    }
    match octets {
        // a picture start code has fifteen zeros, a one and four zeros (H.261, 4.2.1.1)
        [0, 1, third, ..] if *third < 0x10 => Some(Kind::Video),
        // the first two bits of an RTP packet are its version, 2
        [high, low, third, ..]
            if LEAST_PACKET <= u16::from_be_bytes([*high, *low]) && *third >> 6 == 2 => {
            Some(Kind::Packets)
        }
        _ => None,
    }
}

impl Kind {
    /// Whether the command reads files of this kind.
    pub fn is_read_by(self, command: Command) -> bool {
        match command {
            Command::Replay | Command::History => self == Kind::Conference,
            Command::Check | Command::Decode => self == Kind::Packets,
            Command::Make | Command::Live => false,
        }
    }
}

impl Display for Kind {
    fn fmt<W: Write>(&self, f: &mut Formatter<W>) -> fmt::Result {
        f.write_str(match self {
            Kind::Conference => "a conference file, which replay and history read",
            Kind::Packets => "framed RTP packets, which check and decode read",
            Kind::Video =>
                "H.261 video without packets, of which examples/lane_of_h261.py makes a lane",
            Kind::Capture =>
                "a capture of a network, of which examples/lanes_of_pcap.py makes lanes",
        })
    }
}
