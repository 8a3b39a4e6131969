//! Pictures from packets, one packet at a time.
ghost use Rattle.std.specs.Prelude.{◌≡◌, ℕ, List, [], ◌∷◌, ◌++◌, ◌≤◌, false, not, ◌&&◌, ◌==◌, nat_le, Bool, true, IfOk, MatchOption, None, Ok, Some, length, take, map};
ghost use Rattle.pel_bits.specs.Bits.{bits, number};
ghost use Rattle.picture_laws.specs.Laws.{kept_length};
ghost use Rattle.rtp_wire.specs.Rtp.{seen};
ghost use Rattle.rtp_h261.specs.Depack.{WasFed, Feeds, FinishedAt, IsUnit};
ghost use Rattle.rtp_h261.specs.Packets.{carried, is_usable, piece_of, piece_of_read};
ghost use Rattle.rtp_h261.specs.OneByOne.{starting, collected, turned, step, comes_late, follows};
ghost use Rattle.rtp_h261.specs.Turns.{CanTake, CarriesIf, HasBitRoom, Stays, StaysRoomy, TakesStep, TakesTurn, mode_of};
ghost use Rattle.rtp_h261.specs.Units.{Piece};

use crate::payload::read_payload;
use h261_pic::{Coded, parse};
use pel_bits::{BitBuf, Bits, NoMemory};
use pel_model::{Fault, Format};
use rtp_wire::{Packet, read_packet};
use std::alloc::Global;
use std::marker::Model;

/// What a unit is: the bits of the packets of one picture, joined.
#[derive(Clone, Copy, Debug, PartialEq, Eq)]
pub enum Unit {
    /// The bits of a valid picture.
    Picture,
    /// Other bits, with their first fault.
    Gap(Fault),
}

/// What a packet gives.
#[derive(Clone, Copy, Debug, PartialEq, Eq)]
pub struct Fed {
    /// Whether packets are missing before this one, of a picture or between two pictures.
    pub lost: bool,
    /// The unit that ends with this packet.
    pub unit: Option<Unit>,
}

impl Fed {
    // Nothing was lost, and no unit ended.
    fn nothing() -> Fed
        ensures { result ≡ record { lost = false; unit = None } }
    {
        Fed {
            lost: false,
            unit: None,
        }
    }
}

// How the packets that came end.
#[derive(Clone, Copy)]
enum Phase {
    // No run was met, or packets were lost.
    Seek,
    // The last run is complete.
    Idle,
    // Inside a run with this timestamp.
    Collect(u32),
}

// What a usable packet brings.
#[derive(Drop)]
pub(crate) struct Carried<'a> {
    pub(crate) seq: u16,
    stamp: u32,
    marker: bool,
    bits: Bits<'a>,
}

// What a packet brings, where it is usable, with the first `room` of its bits.
pub(crate) fn usable(packet: &[u8], room: u32) -> Option<Carried<'_>>
    requires { room ≤ 500000 }
    ensures { CarriesIf room result (piece_of packet.now) }
{
    match read_packet(packet) {
        Ok(read) => carried_by(read, room),
        Err(_) => None,
    }
}

// The same of a packet that was read.
fn carried_by(read: Packet<'_>, room: u32) -> Option<Carried<'_>>
    requires { room ≤ 500000 }
    ensures { CarriesIf room result (piece_of_read (Ok (seen read.entry))) }
{
    let bits = bits_behind(read.payload, room)?;
    Some(Carried {
        seq: read.seq,
        stamp: read.stamp,
        marker: read.marker,
        bits,
    })
}

// The first `room` bits behind the payload header, without those that do not belong to the packet. None where there is no
// header, or fewer bits than it takes away.
fn bits_behind(payload: &[u8], room: u32) -> Option<Bits<'_>>
    requires { room ≤ 500000 }
    ensures { MatchOption result (is_usable payload.now ≡ false) (λ b.
        (is_usable payload.now ≡ true) × (b ≡ take room (carried payload.now))) }
{
    let header = read_payload(payload)?;
    let octets = &payload[4..];
    let away = u32::from(header.sbit) + u32::from(header.ebit);
    // as many octets as can be kept, and one more than a packet may have that is all taken away
    let there = octets.len().min(0x10000) as u32 * 8;
    if there < away {
        return None;
    }
    Some(Bits::new(octets, u32::from(header.sbit), (there - away).min(room)))
}

// The run that packets are in, and its bits so far.
#[derive(Drop)]
struct Collector {
    format: Format,
    phase: Phase,
    kept: BitBuf,
}

impl Collector {
    // A packet behind another, or the first of all: `joined` says whether it is the very next one.
    fn turn(&mut self, joined: bool, packet: &Carried<'_>, into: &mut Coded) -> Fed
        requires room { HasBitRoom self.old }
        requires can { CanTake self.old.format packet.now into.old }
        ensures stays { StaysRoomy self.old self.new into.old into.new result }
        ensures turned { TakesTurn self.old.format packet.now
            (turned (kept_length self.old.format) joined (mode_of self.old)) (mode_of self.new) result
            into.old into.new }
    {
        match self.phase {
            Phase::Seek => self.start(false, packet, into),
            Phase::Idle => {
                let lost = breaks(joined, &packet.bits);
                self.start(lost, packet, into)
            }
            Phase::Collect(stamp) => {
                if joined && packet.stamp == stamp {
                    self.go_on(stamp, packet, into)
                } else {
                    self.start(true, packet, into)
                }
            }
        }
    }

    // A packet outside a run: it begins one or is skipped.
    fn start(&mut self, lost: bool, packet: &Carried<'_>, into: &mut Coded) -> Fed
        requires room { HasBitRoom self.old }
        requires can { CanTake self.old.format packet.now into.old }
        ensures stays { StaysRoomy self.old self.new into.old into.new result }
        ensures turned { TakesTurn self.old.format packet.now (starting (kept_length self.old.format) lost)
            (mode_of self.new) result into.old into.new }
    {
        if !starts_picture(&packet.bits) {
            self.phase = Phase::Seek;
            return Fed { lost, unit: None };
        }
        let bits = packet.bits.slice(0, packet.bits.len());
        if packet.marker {
            self.phase = Phase::Idle;
            return Fed {
                lost,
                unit: Some(unit_of(bits, self.format, into)),
            };
        }
        self.kept.clear();
        self.kept.append(bits);
        self.phase = Phase::Collect(packet.stamp);
        Fed { lost, unit: None }
    }

    // A packet that goes on with the run.
    fn go_on(&mut self, stamp: u32, packet: &Carried<'_>, into: &mut Coded) -> Fed
        requires room { HasBitRoom self.old }
        requires format { into.old.format ≡ self.old.format }
        ensures stays { StaysRoomy self.old self.new into.old into.new result }
        ensures turned { TakesTurn self.old.format packet.now
            (collected (kept_length self.old.format) true stamp self.old.kept.list) (mode_of self.new) result
            into.old into.new }
    {
        let room = longest_kept(self.format) - self.kept.len();
        let count = packet.bits.len().min(room);
        self.kept.append(packet.bits.slice(0, count));
        if packet.marker {
            self.phase = Phase::Idle;
            let unit = unit_of(self.kept.bits(), self.format, into);
            return Fed {
                lost: false,
                unit: Some(unit),
            };
        }
        self.phase = Phase::Collect(stamp);
        Fed::nothing()
    }
}

/// A depacketiser of one stream: it is fed packets one by one, and gives their pictures. Contracts see its format and what it
/// holds of the packets that came.
#[derive(Drop)]
pub struct Depack {
    next: Option<u16>,
    collector: Collector,
}

impl Model for Depack {
    ghost use Rattle.rtp_h261.specs.Depack.{Held};
    ghost use Rattle.rtp_h261.specs.Turns.{mode_of, HasBitRoom};

    ghost Value = { Held };

    ghost view = { λ d. record { format = d.collector.format; state = record { next = d.next; mode = mode_of d.collector } } };

    ghost invariant = { λ d. HasBitRoom d.collector };
}

impl Depack {
    /// A depacketiser that was fed nothing, with room for the longest unit of its format. It takes all its memory here;
    /// NoMemory where there is none.
    pub fn reserve(alloc: Global, format: Format) -> Result<Depack, NoMemory>
        ensures format { IfOk result (λ d. d.format ≡ format) }
        ensures stands { IfOk result (λ d. WasFed [] d) }
    {
        Ok(Depack {
            next: None,
            collector: Collector {
                format,
                phase: Phase::Seek,
                kept: BitBuf::with_capacity(alloc, longest_kept(format))?,
            },
        })
    }

    /// Feeds the next packet, of any octets. At `Unit::Picture` the picture is in `into`, at a gap `into` is empty, and
    /// where no unit ended it is as it was. Octets that are no packet, and packets that come late or again, give nothing
    /// and change nothing.
    ///
    /// Bits of a unit behind the first 65,600 (QCIF) or 262,208 (CIF) are not kept, since they change nothing of what is
    /// told.
    pub fn feed(&mut self, packet: &[u8], into: &mut Coded) -> Fed
        requires { into.old.format ≡ self.old.format }
        ensures { Feeds packet.now result self.old self.new into.old into.new }
    {
        match usable(packet, longest_kept(self.collector.format)) {
            Some(packet) => self.step(&packet, into),
            None => Fed::nothing(),
        }
    }

    // One step, with what a usable packet brings.
    fn step(&mut self, packet: &Carried<'_>, into: &mut Coded) -> Fed
        requires { CanTake self.old.format packet.now into.old }
        ensures stays { Stays self.old.format self.new.format into.old into.new result }
        ensures stepped { TakesStep self.old.format packet.now
            (λ p. step (kept_length self.old.format) self.old.state (Some p)) self.new.state result into.old into.new }
    {
        let Some(joined) = standing(self.next, packet.seq) else {
            return Fed::nothing();
        };
        self.next = Some(packet.seq.wrapping_add(1));
        self.collector.turn(joined, packet, into)
    }
}

// Whether a packet with this number is the very next one; None where it is late or was there before.
fn standing(expected: Option<u16>, number: u16) -> Option<bool>
    ensures { (p : Piece) → number ≡ p.number → MatchOption result (comes_late expected p ≡ true)
        (λ joined. (comes_late expected p ≡ false) × (joined ≡ follows expected p)) }
{
    let Some(expected) = expected else {
        return Some(true);
    };
    let distance = number.wrapping_sub(expected);
    if distance < 0x8000 {
        Some(distance == 0)
    } else {
        None
    }
}

/// The most bits of a unit that are kept, which decide all that is said of it.
fn longest_kept(format: Format) -> u32
    ensures { result ≡ kept_length format }
{
    match format {
        Format::Qcif => 65_600,
        Format::Cif => 262_208,
    }
}

// Whether bits begin with the picture start code.
fn starts_picture(bits: &Bits<'_>) -> bool
    ensures { result ≡ (nat_le 20 (length bits.now) && number (take 20 bits.now) == 16) }
{
    bits.len() >= 20 && bits.number(0, 20) == 16
}

// Whether a packet behind a complete run shows a loss: it is not the very next one, or begins no picture.
fn breaks(joined: bool, bits: &Bits<'_>) -> bool
    ensures { result ≡ not (joined
        && (nat_le 20 (length bits.now) && number (take 20 bits.now) == 16)) }
{
    !(joined && starts_picture(bits))
}

// What a unit with these bits is.
fn unit_of(bits: Bits<'_>, format: Format, into: &mut Coded) -> Unit
    requires { into.old.format ≡ format }
    ensures unit { IsUnit format bits.entry result into.new }
    ensures into { into.new.format ≡ into.old.format }
    ensures finished { FinishedAt (Some result) into.new }
{
    match parse(bits, format, into) {
        Ok(()) => Unit::Picture,
        Err(fault) => Unit::Gap(fault),
    }
}
