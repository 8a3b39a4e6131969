//! A conference under way: its hall, the depacketisers of its lanes, and the packer that sends the pictures of its ticks.
ghost use Rattle.std.specs.Prelude.{◌≡◌, ℕ, ◌≤◌, ◌∷◌, IfOk, Option, Some, []};
ghost use Rattle.bridge_replay.specs.FileHistory.{after_loss};
ghost use Rattle.bridge_replay.specs.UnderWay.{AreFed, beginning, Enters, EntersSilently, Leads, MayEnter, MayStepIn, PlacesTake, UnderWay, UnitComes};
ghost use Rattle.conf_file.specs.Entries.{Packet as PacketEntry, Chair as ChairEntry, Tick as TickEntry, End as EndEntry};
ghost use Rattle.conf_file.specs.Reading.{content_of};
ghost use Rattle.h261_pic.specs.Coded.{coding, IsFinished};
ghost use Rattle.io_edge.specs.Outside.{Output};
ghost use Rattle.pel_model.specs.declared.Format.TheVariants.{Qcif};
ghost use Rattle.pel_model.specs.declared.chair.Reply.{Reply as ReplyOf};
ghost use Rattle.pel_model.specs.History.{History, Post as Posted, Order as Ordered};
ghost use Rattle.pel_model.specs.Legal.{IsPostable};
ghost use Rattle.pel_model.specs.Records.{Picture};
ghost use Rattle.rtp_h261.specs.Depack.{FinishedAt};

use crate::spare::Spare;
use cif_mix::show;
use cif_pack::{Packer, Settings, Tally, takes_in};
use conf_file::Entry;
use h261_pic::{Coded, Hand};
use hall_core::{Hall, taken_into_hand};
use io_edge::{Failed, Sink};
use pel_bits::NoMemory;
use pel_model::{Command, Format, Reply, TickNote};
use rtp_h261::{Depack, Unit};
use std::alloc::Global;

/// The most steps of a conference.
pub const MOST_STEPS: u64 = 0x200_0000_0000;

/// What a conference has: its hall, a depacketiser for each lane, the pictures that a tick took, the picture composed of
/// them, its packer, and the tally.
#[derive(Drop)]
pub struct Conference {
    pub hall: Hall,
    pub depacks: Vec<Depack>,
    pub hand: Hand,
    pub composed: Coded,
    pub packer: Packer,
    pub tally: Tally,
}

impl Conference {
    /// A conference of so many lanes, 1 to 16, in which nothing came yet. It takes all its memory here; NoMemory where there
    /// is none.
    pub fn reserve(alloc: Global, lanes: u8, set: Settings) -> Result<Conference, NoMemory>
        requires lanes { (1 ≤ lanes) × (lanes ≤ 16) }
        requires mtu { (1000 ≤ set.mtu) × (set.mtu ≤ 9000) }
        ensures { IfOk result (λ c. (first : Output) → UnderWay (beginning set lanes) c first first) }
    {
        let depacks = empty_depacks(alloc, lanes)?;
        Ok(Conference {
            hall: Hall::reserve(alloc, lanes, MOST_STEPS)?,
            depacks,
            hand: Hand::reserve(alloc)?,
            composed: Coded::reserve(alloc, Format::Cif)?,
            packer: Packer::reserve(alloc, set)?,
            tally: Tally::default(),
        })
    }

    // Where packets were lost, a gap comes in their lane.
    fn lose(&mut self, lane: u8, lost: bool)
        requires { MayStepIn lane self.old }
        ensures { Leads (after_loss lane lost) self.old self.new }
    {
        if !lost {
            return;
        }
        let Ok(()) = self.hall.gap(lane) else {
            unreachable!();
        };
        self.tally.gaps += 1;
    }

    // A picture comes in a lane. Gives a box for the next one.
    fn receive(&mut self, lane: u8, spare: Spare) -> Spare
        requires may { MayStepIn lane self.old }
        requires finished { IsFinished spare.item.value }
        ensures { (p : Picture) → spare.item.value ≡ coding Qcif p → IsPostable p →
            Leads (λ (H : History). Posted lane p ∷ H) self.old self.new }
    {
        let Ok(item) = self.hall.post(lane, spare.item) else {
            unreachable!();
        };
        self.tally.pictures += 1;
        Spare { item }
    }

    // What a unit gives in a lane, whose picture stands in the box. Gives a box for the next one.
    fn take_unit(&mut self, lane: u8, unit: Option<Unit>, spare: Spare) -> Spare
        requires may { MayStepIn lane self.old }
        requires finished { FinishedAt unit spare.item.value }
        ensures { UnitComes lane unit spare.item.value self.old self.new }
    {
        match unit {
            None => spare,
            Some(unit) => self.end_unit(lane, unit, spare),
        }
    }

    // What a unit that ended gives in a lane.
    fn end_unit(&mut self, lane: u8, unit: Unit, spare: Spare) -> Spare
        requires may { MayStepIn lane self.old }
        requires finished { FinishedAt (Some unit) spare.item.value }
        ensures { UnitComes lane (Some unit) spare.item.value self.old self.new }
    {
        match unit {
            Unit::Picture => {
                spare.item.tells_length();
                self.receive(lane, spare)
            }
            Unit::Gap(_fault) => {
                self.lose(lane, true);
                spare
            }
        }
    }

    // A packet comes in a lane, whose picture may be put into the box. Gives a box for the next one.
    fn packet(&mut self, lane: u8, bytes: &[u8], spare: Spare) -> Spare
        requires { MayEnter (PacketEntry lane bytes.now) self.old }
        ensures { EntersSilently (PacketEntry lane bytes.now) self.old self.new }
    {
        let mut spare = spare;
        let fed = self.depacks[usize::from(lane)].feed(bytes, &mut spare.item);
        self.lose(lane, fed.lost);
        self.take_unit(lane, fed.unit, spare)
    }

    // The chair gives a command.
    fn order(&mut self, command: Command)
        requires { MayEnter (ChairEntry command) self.old }
        ensures { (reply : ReplyOf) × Leads (λ (H : History). Ordered command reply ∷ H) self.old self.new }
    {
        let Ok(reply) = self.hall.command(command) else {
            unreachable!();
        };
        self.tally.commands += 1;
        if reply != Reply::Done {
            self.tally.refused += 1;
        }
    }

    // The conference ends.
    fn close(&mut self)
        requires { MayEnter EndEntry self.old }
        ensures { EntersSilently EndEntry self.old self.new }
    {
        let Ok(()) = self.hall.end() else {
            unreachable!();
        };
    }

    // The places take their pictures.
    fn take(&mut self, step: u8) -> TickNote
        requires { MayEnter (TickEntry step) self.old }
        ensures { PlacesTake step result self.old self.new }
    {
        let Ok(note) = self.hall.tick(step, &mut self.hand) else {
            unreachable!();
        };
        self.tally.ticks += 1;
        self.tally.taken += takes_in(&note);
        note
    }

    // A tick: the places take their pictures, and the picture composed of them is written, and its packets counted.
    fn tick<K: Sink>(&mut self, step: u8, sink: &mut K) -> Result<(), Failed>
        requires { MayEnter (TickEntry step) self.old }
        ensures { Enters (TickEntry step) self.old self.new (K.tells sink.old) (K.tells sink.new) result }
    {
        let note = self.take(step);
        // the hand has what the places took
        taken_into_hand();
        show(&note, &self.hand, &mut self.composed);
        let sent = self.packer.pack(&self.composed, note.total, sink)?;
        self.tally.packets += sent.packets;
        self.tally.octets += sent.octets;
        Ok(())
    }

    /// The next entry of the file comes, whose picture, if there is one, may be put into the box; a tick's packets go to
    /// `sink`. Gives a box for the next picture.
    pub fn enter<K: Sink>(
        &mut self,
        entry: Entry<'_>,
        spare: Spare,
        sink: &mut K,
    ) -> Result<Spare, Failed>
        requires { MayEnter (content_of entry) self.old }
        ensures { Enters (content_of entry.entry) self.old self.new
            (K.tells sink.old) (K.tells sink.new) result }
    {
        match entry {
            Entry::Packet { lane, bytes } => Ok(self.packet(lane, bytes, spare)),
            Entry::Order(command) => {
                self.order(command);
                Ok(spare)
            }
            Entry::Step(step) => {
                self.tick(step, sink)?;
                Ok(spare)
            }
            Entry::End => {
                self.close();
                Ok(spare)
            }
        }
    }
}

/// A depacketiser for each lane.
pub fn empty_depacks(alloc: Global, lanes: u8) -> Result<Vec<Depack>, NoMemory>
    ensures { IfOk result (λ depacks. AreFed lanes [] depacks.items) }
{
    let mut depacks = Vec::new(alloc);
    while depacks.len() < usize::from(lanes) {
        let Ok(()) = depacks.push(Depack::reserve(alloc, Format::Qcif)?) else {
            return Err(NoMemory);
        };
    }
    Ok(depacks)
}
