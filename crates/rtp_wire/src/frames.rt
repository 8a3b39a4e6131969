//! Frames: RTP packets behind their lengths on a stream of octets (RFC 4571).
ghost use Rattle.std.specs.Prelude.{◌≡◌, ◌+◌, ◌^◌, ◌<◌, ◌≤◌, None, length, IfOk};
ghost use Rattle.std.specs.Borrow.{sem};
ghost use Rattle.std.specs.Io.BufRead.{Rests};
ghost use Rattle.byteorder.specs.Endian.{big_bytes};
ghost use Rattle.io_edge.specs.Allowance.{unused};
ghost use Rattle.io_edge.specs.Causes.{Went};
ghost use Rattle.rtp_wire.specs.Frames.{longest_packet, TakesOne, CallsNext, shown, in_buffer};
ghost use Rattle.rtp_wire.specs.Stops.{end_for};
ghost use Rattle.rtp_wire.specs.contracts.frames.Framer.{the_row};

use byteorder::{BigEndian, ByteOrder};
use io_edge::{Allowance, Pause, Source};
use pel_bits::NoMemory;
use std::alloc::Global;
use std::marker::Model;
use thiserror::Error;

/// The octets of the longest packet that a frame can carry.
pub const LONGEST_PACKET: usize = 65535;

/// Why there is no further packet.
#[derive(Debug, Clone, Copy, PartialEq, Eq, Error)]
pub enum FrameEnd {
    /// The source ended between two frames.
    #[error("end")]
    End,
    /// The source ended inside a frame, after so many octets in all.
    #[error("cut at {place}")]
    Cut { place: u64 },
    /// The source failed.
    #[error("fault")]
    Fault,
    /// The budget is used up.
    #[error("limit")]
    Limit,
}

/// Takes frames from a source, up to a budget of octets. It keeps one packet at a time.
#[derive(Drop)]
pub struct Framer {
    packet: Vec<u8>,
    allowance: Allowance,
    ended: Option<FrameEnd>,
}

impl Model for Framer {
    ghost use Rattle.std.specs.Prelude.{◌≡◌, vec_len};
    ghost use Rattle.rtp_wire.specs.Frames.{FramerState, longest_packet};

    ghost Value = { FramerState };

    ghost view = { λ a. record { allowance = a.allowance; ended = a.ended } };

    ghost invariant = { λ a. vec_len a.packet ≡ longest_packet };
}

impl Framer {
    /// A framer that may take `budget` octets, frame lengths included. It takes all its memory here.
    pub fn reserve(alloc: Global, budget: u64) -> Result<Framer, NoMemory>
        ensures { IfOk result (λ framer. framer ≡ record
            { allowance = unused budget; ended = None }) }
    {
        Ok(Framer {
            packet: vec![in alloc; 0; LONGEST_PACKET]?,
            allowance: Allowance::new(budget),
            ended: None,
        })
    }

    /// The octets taken so far, frame lengths included.
    pub fn taken(&self) -> u64
        ensures { result ≡ self.now.allowance.taken }
    {
        self.allowance.taken()
    }

    /// The next packet. No octet past its frame is asked for; once the framer has ended, each call gives the same
    /// end and asks for nothing.
    pub fn next<S: Source>(&mut self, source: &mut S) -> Result<&[u8], FrameEnd>
        ensures* after { sem 𝓛 (Rests the_row self.entry (λ new.
            CallsNext (S.tells source.old) (S.tells source.new) self.old new (shown result))) }
        ensures went { Went (S.tells source.old).faults (S.tells source.new).faults }
    {
        if let Some(end) = self.ended {
            return Err(end);
        }
        let packet = self.packet.as_mut_slice();
        match read_frame(source, packet, &mut self.allowance) {
            Ok(size) => Ok(&self.packet.as_slice()[..size]),
            Err(end) => {
                self.ended = Some(end);
                Err(end)
            }
        }
    }
}

/// Takes one frame, and gives the octets of its packet, which stands at the front of `packet`.
fn read_frame<S: Source>(
    source: &mut S,
    packet: &mut [u8],
    allowance: &mut Allowance,
) -> Result<usize, FrameEnd>
    requires { length packet.old ≡ longest_packet }
    ensures size { IfOk result (λ size. size ≤ length packet.new) }
    ensures frame { TakesOne (S.tells source.old) (S.tells source.new) allowance.old allowance.new
        (in_buffer packet.new result) }
{
    let mut head = [0; 2];
    if let Err(short) = allowance.fetch(source, &mut head) {
        return Err(frame_end(short.pause, short.count == 0, allowance.taken()));
    }
    let size = packet_length(&head);
    if let Err(short) = allowance.fetch(source, &mut packet[..size]) {
        return Err(frame_end(short.pause, false, allowance.taken()));
    }
    Ok(size)
}

/// The length of the packet behind these two octets.
pub fn packet_length(head: &[u8]) -> usize
    requires { length head.now ≡ 2 }
    ensures fits { result < 2 ^ 16 }
    ensures spelled { big_bytes 2 result ≡ head.now }
{
    BigEndian::read_u16(head) as usize
}

/// The end of frames where no octet more was taken, by whether that was between two frames, and by the octets taken.
fn frame_end(pause: Pause, is_between: bool, taken: u64) -> FrameEnd
    ensures { result ≡ end_for pause is_between taken }
{
    match pause {
        Pause::Limit => FrameEnd::Limit,
        Pause::End if is_between => FrameEnd::End,
        Pause::End => FrameEnd::Cut { place: taken },
        Pause::Fault => FrameEnd::Fault,
    }
}
