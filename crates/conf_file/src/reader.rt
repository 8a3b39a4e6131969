//! The header and then the entries, one after another, from a source within a budget of octets.
ghost use Rattle.std.specs.Prelude.{◌≡◌, None, IfOk, is_some, true};
ghost use Rattle.std.specs.Borrow.{sem};
ghost use Rattle.std.specs.Io.BufRead.{Rests};
ghost use Rattle.io_edge.specs.Allowance.{unused};
ghost use Rattle.io_edge.specs.Causes.{Went};
ghost use Rattle.conf_file.specs.Reading.{CallsStart, CallsEntry, entry_shown};
ghost use Rattle.conf_file.specs.contracts.reader.EntryReader.{the_row};

use crate::answers::{Entry, EntryEnd};
use crate::entries::{Found, read_entry};
use crate::header::read_header;
use io_edge::{Allowance, Source};
use pel_bits::NoMemory;
use rtp_wire::LONGEST_PACKET;
use std::alloc::Global;
use std::marker::Model;

/// Takes entries from a source, up to a budget of octets. It keeps one packet at a time.
#[derive(Drop)]
pub struct EntryReader {
    packet: Vec<u8>,
    allowance: Allowance,
    lanes: Option<u8>,
}

impl Model for EntryReader {
    ghost use Rattle.std.specs.Prelude.{◌≡◌, vec_len};
    ghost use Rattle.rtp_wire.specs.Frames.{longest_packet};
    ghost use Rattle.conf_file.specs.Reading.{ReaderState};

    ghost Value = { ReaderState };

    ghost view = { λ a. record { allowance = a.allowance; lanes = a.lanes } };

    ghost invariant = { λ a. vec_len a.packet ≡ longest_packet };
}

impl EntryReader {
    /// A reader that may take `budget` octets, the header included. It takes all its memory here.
    pub fn reserve(alloc: Global, budget: u64) -> Result<EntryReader, NoMemory>
        ensures { IfOk result (λ reader. reader ≡ record { allowance = unused budget; lanes = None }) }
    {
        Ok(EntryReader {
            packet: vec![in alloc; 0; LONGEST_PACKET]?,
            allowance: Allowance::new(budget),
            lanes: None,
        })
    }

    /// The octets taken so far, the header included.
    pub fn taken(&self) -> u64
        ensures { result ≡ self.now.allowance.taken }
    {
        self.allowance.taken()
    }

    /// Takes the header, and gives the number of lanes. It is judged once all of its octets are there.
    pub fn start<S: Source>(&mut self, source: &mut S) -> Result<u8, EntryEnd>
        requires { self.old.allowance.taken ≡ 0 }
        ensures header { CallsStart (S.tells source.old) (S.tells source.new) self.old self.new result }
    {
        let started = read_header(source, &mut self.allowance);
        self.lanes = started.ok();
        started
    }

    /// Whether entries may be read: there was a header, and neither the end nor a fault came since.
    pub fn is_reading(&self) -> bool
        ensures { result ≡ is_some self.now.lanes }
    {
        self.lanes.is_some()
    }

    /// The next entry. No octet past it is asked for, nor behind a fault but the length of a packet of an unknown lane.
    pub fn next<S: Source>(&mut self, source: &mut S) -> Result<Entry<'_>, EntryEnd>
        requires { is_some self.old.lanes ≡ true }
        ensures* after { sem 𝓛 (Rests the_row self.entry (λ new.
            CallsEntry (S.tells source.old) (S.tells source.new) self.old new (entry_shown result))) }
        ensures went { Went (S.tells source.old).faults (S.tells source.new).faults }
    {
        let Some(lanes) = self.lanes else {
            unreachable!();
        };
        let packet = self.packet.as_mut_slice();
        match read_entry(source, packet, &mut self.allowance, lanes) {
            Ok(Found::Packet { lane, size }) => Ok(Entry::Packet {
                lane,
                bytes: &self.packet.as_slice()[..size],
            }),
            Ok(Found::Order(command)) => Ok(Entry::Order(command)),
            Ok(Found::Step(step)) => Ok(Entry::Step(step)),
            Ok(Found::End) => {
                self.lanes = None;
                Ok(Entry::End)
            }
            Err(end) => {
                self.lanes = None;
                Err(end)
            }
        }
    }
}
