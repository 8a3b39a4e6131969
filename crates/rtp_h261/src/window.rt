//! A window of packets that came before their turn: it puts the packets of a stream in order.
ghost use Rattle.std.specs.Prelude.{◌≡◌, ◌≤◌, ◌==◌, [], length, take, vec_len, vec_capacity, IfOk, MatchOption, false, None, Some};
ghost use Rattle.std.specs.Borrow.{sem};
ghost use Rattle.std.specs.Io.BufRead.{Rests};
ghost use Rattle.std.specs.List.{list_any, position_or_len};
ghost use Rattle.rtp_wire.specs.Frames.{longest_packet};
ghost use Rattle.rtp_h261.specs.Ordered.{Arrival as Arrived, arrival_of, joined_by, is_stale, is_farther};
ghost use Rattle.rtp_h261.specs.Units.{ahead};
ghost use Rattle.rtp_h261.specs.Window.{is_due, packet_shown, HasOrdered, Offers, GivesDue, PassesBy};
ghost use Rattle.rtp_h261.specs.WindowFields.{goes_straight, HasRoom};
ghost use Rattle.rtp_h261.specs.contracts.window.Window.{the_row};

use crate::depack::usable;
use pel_bits::NoMemory;
use rtp_wire::LONGEST_PACKET;
use std::alloc::Global;
use std::marker::Model;

/// The most packets that may wait between two calls, and the one that comes then.
const ROOM: usize = 33;

// A packet that waits, or room for one.
#[derive(Drop)]
struct Slot {
    number: u16,
    size: usize,
    octets: Vec<u8>,
}

impl Model for Slot {
    ghost use Rattle.std.specs.Prelude.{◌≡◌, ◌≤◌, take, vec_len};
    ghost use Rattle.rtp_wire.specs.Frames.{longest_packet};
    ghost use Rattle.rtp_h261.specs.Ordered.{Arrival};

    ghost Value = { Arrival };

    ghost view = { λ s. record { number = s.number; octets = take s.size s.octets.items } };

    ghost invariant = { λ s. (vec_len s.octets ≡ longest_packet) × (s.size ≤ longest_packet) };
}

impl Slot {
    // Room for the longest packet.
    fn reserve(alloc: Global) -> Result<Slot, NoMemory> {
        Ok(Slot {
            number: 0,
            size: 0,
            octets: vec![in alloc; 0; LONGEST_PACKET]?,
        })
    }

    // The packet takes the place of what stood there.
    fn hold(&mut self, number: u16, packet: &[u8])
        requires { length packet.now ≤ longest_packet }
        ensures { self.new ≡ record { number = number; octets = packet.now } }
    {
        put_front(self.octets.as_mut_slice(), packet);
        self.size = packet.len();
        self.number = number;
    }

    fn octets(&self) -> &[u8]
        ensures { result.now ≡ self.now.octets }
    {
        &self.octets.as_slice()[..self.size]
    }

    fn number(&self) -> u16
        ensures { result ≡ self.now.number }
    {
        self.number
    }
}

/// A window for the packets of one stream. Packets are offered to it as they come, and it gives out those that are to be
/// fed, in the order of their sequence numbers: a packet that comes before its turn waits until those before it came, or
/// until more packets wait than its width. Contracts see the width, the number that is expected and the packets that wait.
#[derive(Drop)]
pub struct Window {
    width: u8,
    next: Option<u16>,
    // the nearest first
    waiting: Vec<Slot>,
    // the last of them has the packet that was given out last
    spare: Vec<Slot>,
}

impl Model for Window {
    ghost use Rattle.rtp_h261.specs.Window.{WindowState};
    ghost use Rattle.rtp_h261.specs.WindowFields.{IsWindow};

    ghost Value = { WindowState };

    ghost view = { λ w. record { width = w.width; queue = record { next = w.next; waiting = w.waiting.items } } };

    ghost invariant = { IsWindow };
}

impl Window {
    /// A window in which so many packets may wait, 32 at most. It takes all its memory here, room for 33 packets of
    /// 65,535 octets; NoMemory where there is none.
    pub fn reserve(alloc: Global, width: u8) -> Result<Window, NoMemory>
        requires { width ≤ 32 }
        ensures width { IfOk result (λ w. w.width ≡ width) }
        ensures empty { IfOk result (λ w. HasOrdered [] [] w) }
    {
        Ok(Window {
            width,
            next: None,
            waiting: Vec::with_capacity(alloc, ROOM)?,
            spare: spare_slots(alloc)?,
        })
    }

    /// Whether a packet is to be given out.
    pub fn is_due(&self) -> bool
        ensures { result ≡ is_due self.now }
    {
        match self.waiting.first() {
            None => false,
            Some(nearest) => {
                self.next == Some(nearest.number()) || self.waiting.len() > usize::from(self.width)
            }
        }
    }

    /// The next packet, of at most 65,535 octets. One that is not usable, that comes late or again changes nothing.
    pub fn offer(&mut self, packet: &[u8])
        requires free { is_due self.old ≡ false }
        requires size { length packet.now ≤ longest_packet }
        ensures { Offers packet.now self.old self.new }
    {
        if let Some(number) = number_of(packet) {
            self.join(number, packet);
        }
    }

    // A usable packet with this number comes.
    fn join(&mut self, number: u16, packet: &[u8])
        requires free { is_due self.old ≡ false }
        requires size { length packet.now ≤ longest_packet }
        ensures { self.new ≡ record {
          width = self.old.width;
          queue = joined_by self.old.queue (record { number = number; octets = packet.now });
        } }
    {
        let expected = self.next.unwrap_or(number);
        self.next = Some(expected);
        if is_stale(expected, self.waiting.as_slice(), number) {
            return;
        }
        let place = place_for(expected, self.waiting.as_slice(), number);
        let Some(mut slot) = self.spare.pop() else {
            unreachable!();
        };
        slot.hold(number, packet);
        let Ok(()) = self.waiting.insert(place, slot) else {
            unreachable!();
        };
    }

    /// Whether this packet is given out as it comes, before all that wait, so that it is fed from where it lies. Where it is
    /// not, nothing changed, and it is to be offered.
    pub fn passes(&mut self, packet: &[u8]) -> bool
        requires { is_due self.old ≡ false }
        ensures { PassesBy packet.now self.old self.new result }
    {
        let Some(number) = number_of(packet) else {
            return false;
        };
        let expected = self.next.unwrap_or(number);
        if !goes_straight(expected, self.waiting.as_slice(), number) {
            return false;
        }
        self.next = Some(number.wrapping_add(1));
        true
    }

    /// The packet that is to be fed next, where one is due.
    pub fn due(&mut self) -> Option<&[u8]>
        ensures* { sem 𝓛 (Rests the_row self.entry (λ new. GivesDue self.old new (packet_shown result))) }
    {
        if !self.is_due() {
            return None;
        }
        let nearest = self.waiting.remove(0);
        self.next = Some(nearest.number().wrapping_add(1));
        let Ok(()) = self.spare.push(nearest) else {
            unreachable!();
        };
        match self.spare.last() {
            Some(given) => Some(given.octets()),
            None => None,
        }
    }
}

// The packet stands at the front of the octets.
fn put_front(octets: &mut [u8], packet: &[u8])
    requires { length packet.now ≤ length octets.old }
    ensures length { length octets.new ≡ length octets.old }
    ensures front { take (length packet.now) octets.new ≡ packet.now }
{
    octets[..packet.len()].copy_from_slice(packet);
}

// Room for as many packets as may wait.
fn spare_slots(alloc: Global) -> Result<Vec<Slot>, NoMemory>
    ensures { IfOk result (λ spare. HasRoom (vec_len spare) (vec_capacity spare)) }
{
    let mut spare = Vec::with_capacity(alloc, ROOM)?;
    while spare.len() < ROOM {
        let Ok(()) = spare.push(Slot::reserve(alloc)?) else {
            return Err(NoMemory);
        };
    }
    Ok(spare)
}

// The sequence number of a packet that is usable.
fn number_of(packet: &[u8]) -> Option<u16>
    ensures { MatchOption result (arrival_of packet.now ≡ None) (λ number.
        arrival_of packet.now ≡ Some (record { number = number; octets = packet.now })) }
{
    Some(usable(packet, 0)?.seq)
}

// How far a number is past an expected one, round the circle.
fn distance(expected: u16, number: u16) -> u16
    ensures { result ≡ ahead expected number }
{
    number.wrapping_sub(expected)
}

// Whether a packet with this number waits.
fn is_there(waiting: &[Slot], number: u16) -> bool
    ensures { result ≡ list_any (λ (q : Arrived). q.number == number) waiting.now }
{
    waiting.iter().any(|slot| slot.number() == number)
}

// Whether a packet with this number comes late or again.
fn is_stale(expected: u16, waiting: &[Slot], number: u16) -> bool
    ensures { result ≡ is_stale expected waiting.now number }
{
    distance(expected, number) >= 0x8000 || is_there(waiting, number)
}

// Where a packet with this number waits: before the first that is farther past the expected number.
fn place_for(expected: u16, waiting: &[Slot], number: u16) -> usize
    ensures { result ≡ position_or_len (is_farther expected number) waiting.now }
{
    let ahead = distance(expected, number);
    match waiting
        .iter()
        .position(|slot| ahead < distance(expected, slot.number()))
    {
        Some(place) => place,
        None => waiting.len(),
    }
}

// Whether a packet with this number is the expected one, and is given out before all that wait.
fn goes_straight(expected: u16, waiting: &[Slot], number: u16) -> bool
    ensures { result ≡ goes_straight expected waiting.now number }
{
    number == expected
        && !is_stale(expected, waiting, number)
        && place_for(expected, waiting, number) == 0
}
