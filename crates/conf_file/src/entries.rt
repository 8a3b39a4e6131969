//! One entry from a source: its first octet, and then what that says must follow.
ghost use Rattle.std.specs.Prelude.{◌≡◌, ℕ, List, ◌∷◌, [], length};
ghost use Rattle.rtp_wire.specs.Frames.{longest_packet};
ghost use Rattle.conf_file.specs.Entries.{P, C, T};
ghost use Rattle.conf_file.specs.Stops.{TakesHead, Finds};

use crate::answers::{EntryEnd, EntryWhy};
use crate::fields::{end_at, fetch, read_octet};
use chair_words::{Command, read_line};
use io_edge::{Allowance, Source};
use rtp_wire::packet_length;

/// An entry that was found, with the number of octets that its packet has in the buffer.
#[derive(Debug, Clone, Copy)]
pub enum Found {
    Packet { lane: u8, size: usize },
    Order(Command),
    Step(u8),
    End,
}

/// Takes one entry. The octets of a packet stand at the front of `packet`.
pub fn read_entry<S: Source>(
    source: &mut S,
    packet: &mut [u8],
    allowance: &mut Allowance,
    lanes: u8,
) -> Result<Found, EntryEnd>
    requires { length packet.old ≡ longest_packet }
    ensures { Finds [] lanes allowance.old.taken (S.tells source.old) (S.tells source.new)
        allowance.old allowance.new packet.new result }
{
    let place = allowance.taken();
    let kind = read_octet(source, allowance)?;
    match kind {
        b'P' => read_packet(source, packet, place, allowance, lanes),
        b'C' => read_order(source, packet, place, allowance),
        b'T' => read_step(source, place, allowance),
        b'E' => Ok(Found::End),
        _ => Err(EntryEnd::Bad {
            place,
            why: EntryWhy::Kind,
        }),
    }
}

/// Takes the lane of a packet and its length, behind P.
fn read_head<S: Source>(
    source: &mut S,
    place: u64,
    allowance: &mut Allowance,
    lanes: u8,
) -> Result<(u8, usize), EntryEnd>
    ensures { TakesHead result lanes place (S.tells source.old) (S.tells source.new) allowance.old allowance.new }
{
    let mut head = [0; 3];
    match allowance.fetch(source, &mut head) {
        Ok(()) if head[0] < lanes => Ok((head[0], packet_length(&head[1..]))),
        Err(short) if short.count == 0 || head[0] < lanes => Err(end_at(
            short.pause,
            allowance.taken(),
        )),
        _ => Err(EntryEnd::Bad {
            place,
            why: EntryWhy::Lane,
        }),
    }
}

/// Takes a packet behind P.
fn read_packet<S: Source>(
    source: &mut S,
    packet: &mut [u8],
    place: u64,
    allowance: &mut Allowance,
    lanes: u8,
) -> Result<Found, EntryEnd>
    requires { length packet.old ≡ longest_packet }
    ensures { Finds (P ∷ []) lanes place (S.tells source.old) (S.tells source.new)
        allowance.old allowance.new packet.new result }
{
    let (lane, size) = read_head(source, place, allowance, lanes)?;
    fetch(source, &mut packet[..size], allowance)?;
    Ok(Found::Packet { lane, size })
}

/// Takes a line of the chair behind C.
fn read_order<S: Source>(
    source: &mut S,
    buffer: &mut [u8],
    place: u64,
    allowance: &mut Allowance,
) -> Result<Found, EntryEnd>
    requires { length buffer.old ≡ longest_packet }
    ensures { (lanes : ℕ) → Finds (C ∷ []) lanes place (S.tells source.old) (S.tells source.new)
        allowance.old allowance.new buffer.new result }
{
    let size = read_octet(source, allowance)? as usize;
    let line = &mut buffer[..size];
    fetch(source, line, allowance)?;
    match read_line(line) {
        Ok(command) => Ok(Found::Order(command)),
        Err(fault) => Err(EntryEnd::Bad {
            place,
            why: EntryWhy::Order(fault),
        }),
    }
}

/// Takes the step of a tick behind T.
fn read_step<S: Source>(
    source: &mut S,
    place: u64,
    allowance: &mut Allowance,
) -> Result<Found, EntryEnd>
    ensures { (lanes : ℕ) (buffer : List ℕ) → Finds (T ∷ []) lanes place (S.tells source.old) (S.tells source.new)
        allowance.old allowance.new buffer result }
{
    match read_octet(source, allowance)? {
        step @ 1..=31 => Ok(Found::Step(step)),
        _ => Err(EntryEnd::Bad {
            place,
            why: EntryWhy::Step,
        }),
    }
}
