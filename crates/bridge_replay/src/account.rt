//! A conference of which is told: its hall and the depacketisers of its lanes, and the lines of each entry.
ghost use Rattle.std.specs.Prelude.{◌≡◌, ℕ, ◌<◌, ◌≤◌, ◌+◌, ◌∷◌, ◌++◌, IfOk, List, Option, Some, [], true, length, slice_set};
ghost use Rattle.arrayvec.specs.ArrayString.{array_string_len};
ghost use Rattle.bridge_replay.specs.Account.{idle_lines};
ghost use Rattle.bridge_replay.specs.Recounting.{Adds, AreCounted, AreLasts, CanCount, GrowsByALine, HasFewLines, HearsPacket, IsSameAccount, Judges, Keeps, MayComeOn, MayTell, MayTellOn, TellsEntry, TellsIn, TellsUnit};
ghost use Rattle.conf_file.specs.Entries.{Content, Packet as PacketEntry, Chair as ChairEntry, Tick as TickEntry, End as EndEntry};
ghost use Rattle.conf_file.specs.Reading.{content_of};
ghost use Rattle.h261_pic.specs.Coded.{coding, IsFinished};
ghost use Rattle.pel_model.specs.declared.Format.TheVariants.{Qcif};
ghost use Rattle.pel_model.specs.History.{History, arrivals};
ghost use Rattle.pel_model.specs.Legal.{IsPostable};
ghost use Rattle.pel_model.specs.Records.{Picture};
ghost use Rattle.rtp_h261.specs.Depack.{FinishedAt};
ghost use Rattle.rtp_h261.specs.Events.{lost_events, Refused, Shown};

use crate::conference::{MOST_STEPS, empty_depacks};
use crate::idle::{Idle, idle_behind, number_of};
use crate::lines::{
    Line, command_line, end_line, idle_line, lost_line, picture_line, refused_line, tick_line,
};
use crate::spare::Spare;
use arrayvec::ArrayString;
use conf_file::Entry;
use h261_pic::Hand;
use hall_core::Hall;
use pel_bits::NoMemory;
use pel_model::{Command, Fault};
use rtp_h261::{Depack, Fed, Unit};
use std::alloc::Global;

/// The lines of one entry, one behind the other: three at most.
#[derive(Drop)]
pub struct Page {
    pub text: ArrayString<3072>,
    pub lines: u64,
}

impl Page {
    /// A page without lines.
    pub fn new() -> Page
        ensures { (result.text.bytes ≡ []) × (result.lines ≡ 0) }
    {
        Page {
            text: ArrayString::new(),
            lines: 0,
        }
    }

    // Adds a line.
    fn add(&mut self, line: &Line)
        requires room { HasFewLines 2 self.old }
        ensures adds { Adds (line.now.bytes ∷ []) self.old self.new }
        ensures grows { GrowsByALine self.old self.new }
    {
        self.text.push_str(line.as_str());
        self.lines += 1;
    }
}

/// What a conference has of which is told: its hall, how many steps each lane had, each lane's depacketiser and the number
/// of the packet that counted last in it, and the pictures that a tick took.
#[derive(Drop)]
pub struct Account {
    pub hall: Hall,
    pub arrivals: Vec<u64>,
    pub depacks: Vec<Depack>,
    pub lasts: Vec<Option<u16>>,
    pub hand: Hand,
}

/// What was heard of a packet: what it gives, and why it gives nothing where it does not count.
#[derive(Drop)]
struct Heard {
    fed: Fed,
    idle: Option<Idle>,
}

impl Account {
    /// A conference of so many lanes, 1 to 16, in which nothing came yet. It takes all its memory here; NoMemory where there
    /// is none.
    pub fn reserve(alloc: Global, lanes: u8) -> Result<Account, NoMemory>
        requires { (1 ≤ lanes) × (lanes ≤ 16) }
        ensures { IfOk result (λ a. Keeps lanes [] [] a) }
    {
        let depacks = empty_depacks(alloc, lanes)?;
        let lasts = vec![in alloc; None; usize::from(lanes)]?;
        let arrivals = vec![in alloc; 0; usize::from(lanes)]?;
        Ok(Account {
            hall: Hall::reserve(alloc, lanes, MOST_STEPS)?,
            arrivals,
            depacks,
            lasts,
            hand: Hand::reserve(alloc)?,
        })
    }

    // Where packets were lost, a gap comes in their lane.
    fn lose(&mut self, place: u64, lane: u8, lost: bool, page: &mut Page)
        requires { MayComeOn lane self.old page.old }
        ensures { TellsIn place lane (lost_events lost) self.old self.new page.old page.new }
    {
        if !lost {
            return;
        }
        let Ok(()) = self.hall.gap(lane) else {
            unreachable!();
        };
        let serial = next_serial(&mut self.arrivals, lane);
        page.add(&lost_line(place, lane, serial));
    }

    // A unit that is no picture is a gap of its lane.
    fn refuse(&mut self, place: u64, lane: u8, fault: &Fault, page: &mut Page)
        requires { MayComeOn lane self.old page.old }
        ensures { TellsIn place lane (Refused fault.now.place fault.now.why ∷ [])
            self.old self.new page.old page.new }
    {
        let Ok(()) = self.hall.gap(lane) else {
            unreachable!();
        };
        let serial = next_serial(&mut self.arrivals, lane);
        page.add(&refused_line(place, lane, serial, fault));
    }

    // A picture comes in a lane. Gives a box for the next one.
    fn receive(&mut self, place: u64, lane: u8, spare: Spare, page: &mut Page) -> Spare
        requires may { MayComeOn lane self.old page.old }
        requires finished { IsFinished spare.item.value }
        ensures { (p : Picture) → spare.item.value ≡ coding Qcif p → IsPostable p →
            TellsIn place lane (Shown p ∷ []) self.old self.new page.old page.new }
    {
        let serial = next_serial(&mut self.arrivals, lane);
        page.add(&picture_line(place, lane, serial, &spare.item));
        let Ok(item) = self.hall.post(lane, spare.item) else {
            unreachable!();
        };
        Spare { item }
    }

    // What a unit gives in a lane, whose picture stands in the box. Gives a box for the next one.
    fn take_unit(
        &mut self,
        place: u64,
        lane: u8,
        unit: Option<Unit>,
        spare: Spare,
        page: &mut Page,
    ) -> Spare
        requires may { MayComeOn lane self.old page.old }
        requires finished { FinishedAt unit spare.item.value }
        ensures { TellsUnit place lane unit spare.item.value self.old self.new page.old page.new }
    {
        match unit {
            None => spare,
            Some(Unit::Picture) => {
                spare.item.tells_length();
                self.receive(place, lane, spare, page)
            }
            Some(Unit::Gap(fault)) => {
                self.refuse(place, lane, &fault, page);
                spare
            }
        }
    }

    // Feeds a packet to its lane's depacketiser, whose picture may be put into the box, and judges it.
    fn hear(&mut self, lane: u8, bytes: &[u8], spare: &mut Spare) -> Heard
        requires { MayTell (PacketEntry lane bytes.now) self.old }
        ensures hears { (lanes : ℕ) (entries : List Content) (history : History) → Keeps lanes entries history self.old
            → lane < lanes → HearsPacket lane bytes.now result.fed result.idle self.old self.new
            spare.old.item.value spare.new.item.value lanes entries }
        ensures finished { FinishedAt result.fed.unit spare.new.item.value }
        ensures hall { self.new.hall ≡ self.old.hall }
        ensures arrivals { self.new.arrivals ≡ self.old.arrivals }
        ensures hand { self.new.hand ≡ self.old.hand }
    {
        let fed = self.depacks[usize::from(lane)].feed(bytes, &mut spare.item);
        let idle = judge(&mut self.lasts, lane, bytes);
        Heard { fed, idle }
    }

    // A packet comes in a lane, whose picture may be put into the box. Gives a box for the next one.
    fn packet(&mut self, place: u64, lane: u8, bytes: &[u8], spare: Spare, page: &mut Page) -> Spare
        requires { MayTellOn (PacketEntry lane bytes.now) self.old page.old }
        ensures { TellsEntry place (PacketEntry lane bytes.now) self.old self.new page.old page.new }
    {
        let mut spare = spare;
        let heard = self.hear(lane, bytes, &mut spare);
        tell_idle(place, lane, heard.idle, page);
        self.lose(place, lane, heard.fed.lost, page);
        self.take_unit(place, lane, heard.fed.unit, spare, page)
    }

    // The chair gives a command.
    fn order(&mut self, place: u64, command: Command, page: &mut Page)
        requires { MayTellOn (ChairEntry command) self.old page.old }
        ensures { TellsEntry place (ChairEntry command) self.old self.new page.old page.new }
    {
        let Ok(reply) = self.hall.command(command) else {
            unreachable!();
        };
        page.add(&command_line(place, command, reply));
    }

    // A tick: the places take their pictures.
    fn tick(&mut self, place: u64, step: u8, page: &mut Page)
        requires { MayTellOn (TickEntry step) self.old page.old }
        ensures { TellsEntry place (TickEntry step) self.old self.new page.old page.new }
    {
        let Ok(note) = self.hall.tick(step, &mut self.hand) else {
            unreachable!();
        };
        page.add(&tick_line(place, &note));
    }

    // The conference ends.
    fn close(&mut self, place: u64, page: &mut Page)
        requires { MayTellOn EndEntry self.old page.old }
        ensures { TellsEntry place EndEntry self.old self.new page.old page.new }
    {
        let Ok(()) = self.hall.end() else {
            unreachable!();
        };
        page.add(&end_line(place));
    }

    /// The next entry of the file comes, which begins at `place`, and its lines are put on the page; its picture, if there
    /// is one, may be put into the box. Gives a box for the next picture.
    pub fn enter(&mut self, place: u64, entry: Entry<'_>, spare: Spare, page: &mut Page) -> Spare
        requires { MayTellOn (content_of entry) self.old page.old }
        ensures { TellsEntry place (content_of entry.entry) self.old self.new page.old page.new }
    {
        match entry {
            Entry::Packet { lane, bytes } => self.packet(place, lane, bytes, spare, page),
            Entry::Order(command) => {
                self.order(place, command, page);
                spare
            }
            Entry::Step(step) => {
                self.tick(place, step, page);
                spare
            }
            Entry::End => {
                self.close(place, page);
                spare
            }
        }
    }
}

// The serial of a lane's next step, which is counted.
fn next_serial(counts: &mut Vec<u64>, lane: u8) -> u64
    requires { CanCount lane counts.old.items }
    ensures serial { (lanes : ℕ) (history : History) → AreCounted lanes history counts.old.items
        → lane < lanes → result ≡ length (arrivals history lane) + 1 }
    ensures set { counts.new.items ≡ slice_set counts.old.items lane result }
{
    let serial = counts[usize::from(lane)] + 1;
    counts[usize::from(lane)] = serial;
    serial
}

// Why a packet of a lane does not count, if it does not. One that does is the last of its lane that did.
fn judge(lasts: &mut Vec<Option<u16>>, lane: u8, packet: &[u8]) -> Option<Idle>
    requires { lane < length lasts.old.items }
    ensures { (lanes : ℕ) (entries : List Content) → AreLasts lanes entries lasts.old.items → lane < lanes
        → Judges lane packet.now lasts.old.items lasts.new.items result lanes entries }
{
    let number = number_of(packet);
    let idle = idle_behind(lasts[usize::from(lane)], number);
    if idle.is_none() {
        lasts[usize::from(lane)] = number;
    }
    idle
}

// Tells of a packet that does not count.
fn tell_idle(place: u64, lane: u8, idle: Option<Idle>, page: &mut Page)
    requires { HasFewLines 2 page.old }
    ensures adds { Adds (idle_lines place lane idle) page.old page.new }
    ensures grows { GrowsByALine page.old page.new }
{
    if let Some(idle) = idle {
        page.add(&idle_line(place, lane, idle));
    }
}
