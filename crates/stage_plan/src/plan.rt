//! The plan: who stands in which place.

ghost use Rattle.std.specs.Prelude.{◌≡◌, ◌<◌, ◌≤◌, ℕ, false, [], ◌∷◌, List, map, not, ◌&&◌, ◌||◌, is_none, IfSome};
ghost use Rattle.std.specs.Option.{option_or};
ghost use Rattle.std.specs.List.{list_all};
ghost use Rattle.pel_model.specs.declared.Quad.{Quad};
ghost use Rattle.pel_model.specs.declared.chair.Command.{Command};
ghost use Rattle.pel_model.specs.Plan.{places, is_same, is_lane, without, answer, is_same_lane};
ghost use Rattle.stage_plan.specs.PerPlace.{in_place, in_all};

use crate::per_place::PerPlace;
use crate::ranks;
use pel_model::{Command, Quad, Reply};
use std::marker::Model;

/// The places, the lowest first.
const PLACES: [Quad; 4] = [Quad::One, Quad::Two, Quad::Three, Quad::Four];

/// Who stands in the four places, after the commands that were applied so far.
#[derive(Drop)]
pub struct Plan {
    lanes: u8,
    seats: PerPlace<Option<u8>>,
    pins: PerPlace<bool>,
    /// When each lane spoke last: 0 where it never did, and the greater the later.
    ranks: [u8; 16],
    /// The places whose lane the last command changed.
    changes: PerPlace<bool>,
}

impl Model for Plan {
    ghost use Rattle.stage_plan.specs.Places.{PlanView, IsPlan};

    ghost Value = { PlanView };

    ghost view = { λ a. record {
      lanes = a.lanes;
      seats = a.seats;
      pins = a.pins;
      ranks = a.ranks;
      changes = a.changes;
    } };

    ghost invariant = { λ a. IsPlan
        (record {
          lanes = a.lanes;
          seats = a.seats;
          pins = a.pins;
          ranks = a.ranks;
          changes = a.changes;
        }) };
}

/// Whether the places are one place.
fn is_same(p: Quad, q: Quad) -> bool
    ensures { result ≡ is_same p q }
{
    p == q
}

/// Whether this lane stands there.
fn is_lane(seat: Option<u8>, lane: u8) -> bool
    ensures { result ≡ is_lane lane seat }
{
    seat == Some(lane)
}

/// The seat, unless this lane has it.
fn without(seat: Option<u8>, lane: u8) -> Option<u8>
    ensures { result ≡ without lane seat }
{
    if is_lane(seat, lane) { None } else { seat }
}

/// All seats, without this lane.
fn all_without(seats: PerPlace<Option<u8>>, lane: u8) -> PerPlace<Option<u8>>
    ensures { (q : Quad) → in_place result q ≡ without lane (in_place seats q) }
{
    PerPlace {
        one: without(seats.one, lane),
        two: without(seats.two, lane),
        three: without(seats.three, lane),
        four: without(seats.four, lane),
    }
}

/// Whether another lane stands there now, or none in place of one.
fn is_changed(before: Option<u8>, after: Option<u8>) -> bool
    ensures { result ≡ not (is_same_lane after before) }
{
    before != after
}

/// The places whose lanes differ.
fn changes(before: PerPlace<Option<u8>>, after: PerPlace<Option<u8>>) -> PerPlace<bool>
    ensures { (q : Quad) → in_place result q ≡ not
        (is_same_lane (in_place after q) (in_place before q)) }
{
    PerPlace {
        one: is_changed(before.one, after.one),
        two: is_changed(before.two, after.two),
        three: is_changed(before.three, after.three),
        four: is_changed(before.four, after.four),
    }
}

impl Plan {
    ghost use Rattle.pel_model.specs.declared.chair.Command.TheVariants.{Place, Clear, Swap, Speaker, Pin, Unpin};
    ghost use Rattle.pel_model.specs.declared.chair.Reply.TheVariants.{Done};
    ghost use Rattle.pel_model.specs.Plan.{at, changed, is_standing, vacant_place, quietest_by, has_quieter, carried_out, is_done};
    ghost use Rattle.stage_plan.specs.Places.{lane_in, is_pinned, IsInOrder, IsUnmoved, IsPlanOf};
    ghost use Rattle.stage_plan.specs.Steps.{is_ranked_below, stage_of, Obeys};

    /// The plan of a conference of so many lanes, 1 to 16: all places are empty, and none is pinned.
    pub fn new(lanes: u8) -> Plan
        requires low { 1 ≤ lanes }
        requires high { lanes ≤ 16 }
        ensures lanes { result.lanes ≡ lanes }
        ensures stands { IsPlanOf result [] }
    {
        Plan {
            lanes,
            seats: PerPlace::all(None),
            pins: PerPlace::all(false),
            ranks: [0; 16],
            changes: PerPlace::all(false),
        }
    }

    /// The lane that stands in a place.
    pub fn at(&self, place: Quad) -> Option<u8>
        ensures lane { result ≡ lane_in self.now place }
        ensures stands { (H : List Command) → IsPlanOf self.now H
            → result ≡ at self.now.lanes H place }
    {
        self.seats.of(place)
    }

    /// Whether the last command changed the lane in each place, the lowest place first. All are false after a refusal,
    /// and in a new plan.
    pub fn changed(&self) -> [bool; 4]
        ensures changes { result ≡ map (in_place self.now.changes) places }
        ensures stands { (H : List Command) → IsPlanOf self.now H
            → result ≡ map (changed self.now.lanes H) places }
    {
        [
            self.changes.one,
            self.changes.two,
            self.changes.three,
            self.changes.four,
        ]
    }

    /// Whether the lane stands in a place.
    fn is_standing(&self, lane: u8) -> bool
        ensures { result ≡ is_standing (stage_of self.now []) lane }
    {
        PLACES.iter().any(|q| is_lane(self.seats.of(*q), lane))
    }

    /// Whether all four places are pinned.
    fn is_all_pinned(&self) -> bool
        ensures { result ≡ list_all (is_pinned self.now) places }
    {
        PLACES.iter().all(|q| self.pins.of(*q))
    }

    /// The lowest place that is empty and not pinned.
    fn vacant_place(&self) -> Option<Quad>
        ensures { result ≡ vacant_place (stage_of self.now []) }
    {
        PLACES
            .iter()
            .copied()
            .find(|q| !self.pins.of(*q) && self.seats.of(*q).is_none())
    }

    /// Whether the lane in the first place spoke less recently than the one in the second.
    fn spoke_before(&self, p: Quad, q: Quad) -> bool
        ensures { result ≡ is_ranked_below self.now p q }
    {
        match (self.seats.of(p), self.seats.of(q)) {
            (Some(c), Some(d)) => self.ranks[usize::from(c)] < self.ranks[usize::from(d)],
            _ => false,
        }
    }

    /// Whether a lane in an unpinned place spoke less recently than the one in this place.
    fn has_quieter(&self, place: Quad) -> bool
        ensures { result ≡ has_quieter (is_pinned self.now) (is_ranked_below self.now) place }
    {
        PLACES
            .iter()
            .any(|p| !self.pins.of(*p) && self.spoke_before(*p, place))
    }

    /// The unpinned place whose lane spoke least recently, the lowest of several.
    fn quietest_place(&self) -> Option<Quad>
        ensures { result ≡ quietest_by (is_pinned self.now) (is_ranked_below self.now) }
    {
        PLACES
            .iter()
            .copied()
            .find(|q| !self.pins.of(*q) && !self.has_quieter(*q))
    }

    /// The place that a speaker takes who stands in none.
    fn place_for_speaker(&self) -> Option<Quad>
        ensures { result ≡ option_or (vacant_place (stage_of self.now []))
            (quietest_by (is_pinned self.now) (is_ranked_below self.now)) }
    {
        self.vacant_place().or(self.quietest_place())
    }

    /// Puts the lane into the place.
    fn put(&mut self, place: Quad, lane: u8) -> Reply
        ensures { Obeys (Place place lane) self.old self.new result }
    {
        if lane >= self.lanes {
            return Reply::NoLane;
        }
        if is_lane(self.seats.of(place), lane) {
            return Reply::SamePlace;
        }
        let mut seats = all_without(self.seats, lane);
        seats.set(place, Some(lane));
        self.seats = seats;
        Reply::Done
    }

    /// Empties the place.
    fn clear(&mut self, place: Quad) -> Reply
        ensures { Obeys (Clear place) self.old self.new result }
    {
        if self.seats.of(place).is_none() {
            return Reply::SamePlace;
        }
        self.seats.set(place, None);
        Reply::Done
    }

    /// Whether an exchange of the two places would leave all as it is.
    fn is_idle_swap(&self, first: Quad, second: Quad) -> bool
        ensures { result ≡ (is_same first second ||
            (is_none (lane_in self.now first) && is_none (lane_in self.now second))) }
    {
        is_same(first, second)
            || (self.seats.of(first).is_none() && self.seats.of(second).is_none())
    }

    /// Exchanges what stands in the two places.
    fn swap(&mut self, first: Quad, second: Quad) -> Reply
        ensures { Obeys (Swap first second) self.old self.new result }
    {
        if self.is_idle_swap(first, second) {
            return Reply::SamePlace;
        }
        let mut seats = self.seats;
        seats.set(first, self.seats.of(second));
        seats.set(second, self.seats.of(first));
        self.seats = seats;
        Reply::Done
    }

    /// Whether the speaker stands in no place and all four are pinned.
    fn is_shut_out(&self, lane: u8) -> bool
        ensures { result ≡ (not (is_standing (stage_of self.now []) lane) && list_all
            (is_pinned self.now) places) }
    {
        !self.is_standing(lane) && self.is_all_pinned()
    }

    /// The seats, with one for this speaker: its own, or the one that is found for it.
    fn seats_with(&self, lane: u8) -> PerPlace<Option<u8>>
        requires { lane < self.now.lanes }
        ensures seats { (speakers : List ℕ) → IsInOrder self.now speakers → (q : Quad)
            → in_place result q
            ≡ (carried_out (stage_of self.now speakers) (Speaker lane)).lane_in q }
        ensures seated { (q : Quad) → IfSome (in_place result q) (λ c. c < self.now.lanes) }
    {
        let mut seats = self.seats;
        if self.is_standing(lane) {
            return seats;
        }
        let Some(place) = self.place_for_speaker() else {
            return seats;
        };
        seats.set(place, Some(lane));
        seats
    }

    /// Makes the lane the newest speaker, and finds it a place if it has none.
    fn hear(&mut self, lane: u8) -> Reply
        ensures { Obeys (Speaker lane) self.old self.new result }
    {
        if lane >= self.lanes {
            return Reply::NoLane;
        }
        if self.is_shut_out(lane) {
            return Reply::AllPinned;
        }
        self.seats = self.seats_with(lane);
        ranks::raise(&mut self.ranks, lane);
        Reply::Done
    }

    /// Pins the place.
    fn pin(&mut self, place: Quad) -> Reply
        ensures { Obeys (Pin place) self.old self.new result }
    {
        self.pins.set(place, true);
        Reply::Done
    }

    /// Takes the place's pin away.
    fn unpin(&mut self, place: Quad) -> Reply
        ensures { Obeys (Unpin place) self.old self.new result }
    {
        self.pins.set(place, false);
        Reply::Done
    }

    /// Does what the command says, or tells why not. The changes stay those of the command before.
    fn obey(&mut self, command: Command) -> Reply
        ensures { Obeys command self.old self.new result }
    {
        match command {
            Command::Place(place, lane) => self.put(place, lane),
            Command::Clear(place) => self.clear(place),
            Command::Swap(first, second) => self.swap(first, second),
            Command::Speaker(lane) => self.hear(lane),
            Command::Pin(place) => self.pin(place),
            Command::Unpin(place) => self.unpin(place),
        }
    }

    /// Applies a command. A refused one changes nothing.
    ///
    /// The reply is the first of the command's refusals that holds, else `Done`: `NoLane` where the lane is not below
    /// the number of lanes; `SamePlace` where the lane stands in that place, where the place to be cleared is empty, or
    /// where a swap names one place twice or two empty ones; `AllPinned` where a speaker stands in no place and all four
    /// are pinned.
    pub fn apply(&mut self, command: Command) -> Reply
        ensures lanes { self.new.lanes ≡ self.old.lanes }
        ensures reply { (H : List Command) → IsPlanOf self.old H
            → result ≡ answer self.old.lanes H command }
        ensures stands { (H : List Command) → IsPlanOf self.old H
            → IsPlanOf self.new (command ∷ H) }
        ensures refused { is_done result ≡ false → IsUnmoved self.old self.new
            × (self.new.changes ≡ in_all false) }
    {
        let before = self.seats;
        let reply = self.obey(command);
        self.changes = changes(before, self.seats);
        reply
    }
}
