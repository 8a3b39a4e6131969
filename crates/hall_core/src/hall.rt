//! The hall: lanes, places, ticks, and the end of a conference.

ghost use Rattle.std.specs.Prelude.{◌≡◌, ℕ, ◌<◌, ◌≤◌, ◌^◌, ◌&&◌, IfOk, IfErr, is_err, slice_index, if◌then◌else◌, None, Option, []};
ghost use Rattle.h261_pic.specs.Coded.{coding, IsFinished};
ghost use Rattle.pel_model.specs.declared.Format.TheVariants.{Qcif};
ghost use Rattle.pel_model.specs.History.{History, Post as Posted, Gap as Lost, Order as Ordered, Tick as Ticked, End as Closed};
ghost use Rattle.pel_model.specs.Legal.{IsPostable};
ghost use Rattle.pel_model.specs.Records.{Picture};
ghost use Rattle.hall_core.specs.Hall.{lanes_of, is_over, IsSameConference};
ghost use Rattle.hall_core.specs.Stands.{StandsFor, Steps, StepsOrStays, KeepsRules, TakesInto, IsQcifHand};
ghost use Rattle.hall_core.specs.Boxes.{IsQcifLane, ring_of};
ghost use Rattle.hall_core.specs.Taking.{behind_take, told_in, next_in, left_in, is_ring_at_loss, is_waited_at, is_waited_in, waiting_in};

use h261_pic::{Coded, Hand};
use lane_ring::Lane;
use pel_bits::NoMemory;
use pel_model::{Command, Format, Quad, Reply, Take, TickNote};
use stage_plan::{PerPlace, Plan};
use std::alloc::Global;
use std::marker::Model;

/// How many pictures a lane has: those that it holds, and the spare ones.
const ROOM: usize = 8;

/// The places, the lowest first.
const PLACES: [Quad; 4] = [Quad::One, Quad::Two, Quad::Three, Quad::Four];

/// No step may follow: the conference has ended, or made all its steps. What the call was given comes back.
#[derive(Drop)]
pub struct Ended<T>(pub T);

/// A conference of up to 16 lanes and four places.
#[derive(Drop)]
pub struct Hall {
    lanes: Vec<Lane<Box<Coded>>>,
    plan: Plan,
    /// The serial that each place's tenancy took last.
    last: PerPlace<Option<u64>>,
    /// The sum of the steps of all ticks.
    total: u64,
    steps: u64,
    limit: u64,
    ended: bool,
}

impl Model for Hall {
    ghost use Rattle.hall_core.specs.Hall.{HallView};

    ghost Value = { HallView };

    ghost use Rattle.hall_core.specs.Fields.{hall_view, IsHall};

    ghost view = { hall_view };

    ghost invariant = { IsHall };
}

/// A lane that holds nothing, with its eight pictures.
fn empty_lane(alloc: Global) -> Result<Lane<Box<Coded>>, NoMemory>
    ensures empty { IfOk result (λ lane. (lane.held ≡ []) × (lane.count ≡ 0)) }
    ensures format { IfOk result IsQcifLane }
{
    let mut boxes = Vec::new(alloc);
    while boxes.len() < ROOM {
        let Ok(()) = boxes.push(Coded::boxed(alloc, Format::Qcif)?) else {
            return Err(NoMemory);
        };
    }
    Lane::reserve(alloc, boxes)
}

/// The serial that was taken last, unless the tenancy has changed.
fn kept_unless(changed: bool, last: Option<u64>) -> Option<u64>
    ensures { result ≡ (if changed then None else last) }
{
    if changed { None } else { last }
}

/// Whether a lane's place cannot go on behind the serial taken last but by a refresh.
fn is_at_loss(lane: &Lane<Box<Coded>>, last: Option<u64>) -> bool
    ensures { result ≡ is_ring_at_loss last (ring_of lane.now) }
{
    match last {
        None => true,
        Some(last) => last < lane.count() && !lane.holds(last + 1),
    }
}

impl Hall {
    /// A hall of so many lanes, 1 to 16, whose conference may make so many steps, 1 to 2^45. It takes all its memory
    /// here, eight pictures for each lane; NoMemory where there is none.
    pub fn reserve(alloc: Global, lanes: u8, limit: u64) -> Result<Hall, NoMemory>
        requires lanes { (1 ≤ lanes) × (lanes ≤ 16) }
        requires limit { (1 ≤ limit) × (limit ≤ 2 ^ 45) }
        ensures lanes { IfOk result (λ hall. lanes_of hall ≡ lanes) }
        ensures limit { IfOk result (λ hall. hall.limit ≡ limit) }
        ensures stands { IfOk result (λ hall. StandsFor hall []) }
    {
        let mut rings = Vec::new(alloc);
        while rings.len() < usize::from(lanes) {
            let Ok(()) = rings.push(empty_lane(alloc)?) else {
                return Err(NoMemory);
            };
        }
        Ok(Hall {
            lanes: rings,
            plan: Plan::new(lanes),
            last: PerPlace::all(None),
            total: 0,
            steps: 0,
            limit,
            ended: false,
        })
    }

    /// Whether no step may follow.
    fn is_over(&self) -> bool
        ensures { result ≡ is_over self.now }
    {
        self.ended || self.limit <= self.steps
    }

    /// A picture of a lane comes, and gets the lane's next serial. Gives another box, for the next picture.
    pub fn post(&mut self, lane: u8, item: Box<Coded>) -> Result<Box<Coded>, Ended<Box<Coded>>>
        requires lane { lane < lanes_of self.old }
        requires format { item.value.format ≡ Qcif }
        requires finished { IsFinished item.value }
        ensures ended { is_err result ≡ is_over self.old }
        ensures kept { IfErr result (λ back. (back.0 ≡ item) × (self.new ≡ self.old)) }
        ensures same { IsSameConference self.old self.new }
        ensures stands { IfOk result (λ _. (p : Picture) → item.value ≡ coding Qcif p →
            IsPostable p → Steps self.old self.new (Posted lane p)) }
        ensures legal { IfOk result (λ _. (p : Picture) → item.value ≡ coding Qcif p →
            IsPostable p → KeepsRules self.old (Posted lane p)) }
        ensures format { IfOk result (λ given. given.value.format ≡ Qcif) }
    {
        if self.is_over() {
            return Err(Ended(item));
        }
        self.steps += 1;
        let refresh = item.is_refresh();
        Ok(self.lanes[usize::from(lane)].post(item, refresh))
    }

    /// One or more pictures of a lane were lost: the lane's next serial is given to nothing.
    pub fn gap(&mut self, lane: u8) -> Result<(), Ended<()>>
        requires { lane < lanes_of self.old }
        ensures { StepsOrStays self.old self.new result (λ _. Lost lane) }
    {
        if self.is_over() {
            return Err(Ended(()));
        }
        self.steps += 1;
        self.lanes[usize::from(lane)].gap();
        Ok(())
    }

    /// The conference ends.
    pub fn end(&mut self) -> Result<(), Ended<()>>
        ensures { StepsOrStays self.old self.new result (λ _. Closed) }
    {
        if self.is_over() {
            return Err(Ended(()));
        }
        self.steps += 1;
        self.ended = true;
        Ok(())
    }

    /// The chair gives a command. A refused one is a step too, and changes nothing else.
    pub fn command(&mut self, command: Command) -> Result<Reply, Ended<()>>
        ensures { StepsOrStays self.old self.new result (Ordered command) }
    {
        if self.is_over() {
            return Err(Ended(()));
        }
        self.steps += 1;
        let reply = self.plan.apply(command);
        let changed = self.plan.changed();
        self.last = PerPlace {
            one: kept_unless(changed[0], self.last.one),
            two: kept_unless(changed[1], self.last.two),
            three: kept_unless(changed[2], self.last.three),
            four: kept_unless(changed[3], self.last.four),
        };
        Ok(reply)
    }

    /// Takes in one place. The picture that is taken then stands in the slot.
    fn take(&mut self, place: Quad, slot: &mut Box<Coded>) -> Option<Take>
        requires { slot.old.value.format ≡ Qcif }
        ensures hall { self.new ≡ behind_take self.old place }
        ensures told { result ≡ told_in self.old place }
        ensures slot { slot.new.value ≡ left_in (next_in self.old place) slot.old.value }
        ensures format { slot.new.value.format ≡ Qcif }
    {
        let lane = self.plan.at(place)?;
        let last = self.last.of(place);
        let serial = self.lanes[usize::from(lane)].take(last, slot)?;
        self.last.set(place, Some(serial));
        Some(Take { lane, serial })
    }

    /// Whether the lane stands in this place, and cannot go on there but by a refresh.
    fn is_waited_for_in(&self, place: Quad, lane: u8) -> bool
        ensures { result ≡ is_waited_at self.now lane place }
    {
        self.plan.at(place) == Some(lane)
            && is_at_loss(&self.lanes[usize::from(lane)], self.last.of(place))
    }

    /// Whether the lane stands in a place, and cannot go on there but by a refresh.
    fn is_waited_for(&self, lane: u8) -> bool
        ensures { result ≡ is_waited_in self.now lane }
    {
        PLACES.iter().any(|q| self.is_waited_for_in(*q, lane))
    }

    /// A bit for each lane that is waited for.
    fn waiting(&self) -> u16
        ensures { result ≡ waiting_in self.now }
    {
        let mut waiting = 0;
        for lane in 0..self.lanes.len() as u8 {
            if self.is_waited_for(lane) {
                waiting += 1 << lane;
            }
        }
        waiting
    }

    /// A picture is to be written, of so many pictures at 29.97 Hz, 1 to 31. Each place with a lane takes the lane's first
    /// held picture that is a refresh or has the serial behind the one that its tenancy took last. The taken picture then
    /// stands in the hand's box of its place; the other boxes stay as they are.
    pub fn tick(&mut self, step: u8, hand: &mut Hand) -> Result<TickNote, Ended<()>>
        requires step { (1 ≤ step) × (step ≤ 31) }
        requires hand { IsQcifHand hand.old }
        ensures made { StepsOrStays self.old self.new result Ticked }
        ensures kept { IfErr result (λ _. hand.new ≡ hand.old) }
        ensures step { IfOk result (λ note. note.step ≡ step) }
        ensures taken { IfOk result (λ _. TakesInto self.old hand.old hand.new) }
        ensures hand { IsQcifHand hand.new }
    {
        if self.is_over() {
            return Err(Ended(()));
        }
        let taken_one = self.take(Quad::One, &mut hand.one);
        let taken_two = self.take(Quad::Two, &mut hand.two);
        let taken_three = self.take(Quad::Three, &mut hand.three);
        let taken_four = self.take(Quad::Four, &mut hand.four);
        self.steps += 1;
        self.total += u64::from(step);
        let waiting = self.waiting();
        Ok(TickNote {
            step,
            total: self.total,
            taken_one,
            taken_two,
            taken_three,
            taken_four,
            waiting,
        })
    }
}
