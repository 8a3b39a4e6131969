//! A lane over two rings: the held items and the spare ones, eight together.

ghost use Rattle.std.specs.Prelude.{◌≡◌, ℕ, ◌+◌, ◌^◌, ◌<◌, ◌==◌, List, [], ◌∷◌, ◌++◌, length, vec_len, IfOk};
ghost use Rattle.std.specs.List.{list_any, after_first};
ghost use Rattle.circular_buffer.specs.Buffer.{buffer};
ghost use Rattle.pel_model.specs.declared.held.Held.{Held as TheHeld};
ghost use Rattle.pel_model.specs.Lanes.{lane_room, last_of, may_follow, first_to_show, low_after};

use circular_buffer::HeapCircularBuffer;
use pel_bits::NoMemory;
use pel_model::Held;
use std::alloc::Global;
use std::marker::Model;
use std::mem;

/// How many items a lane holds at most. Held and spare items together are as many.
const ROOM: usize = 8;

/// Adds a spare to a ring that has room for it.
fn keep<T>(spares: &mut HeapCircularBuffer<T>, spare: T)
    requires { length spares.old.items < spares.old.capacity }
    ensures { spares.new ≡ buffer (spares.old.items ++ spare ∷ []) spares.old.capacity }
{
    match spares.push_back(spare) {
        None => {}
        Some(_refused) => unreachable!(),
    }
}

/// The items of a lane that are held, and the boxes that are spare.
#[derive(Drop)]
pub struct Lane<T> {
    held: HeapCircularBuffer<Held<T>>,
    spares: HeapCircularBuffer<T>,
    count: u64,
}

impl<T> Model for Lane<T> {
    ghost use Rattle.lane_ring.specs.Ring.{LaneView, lane_code};

    ghost Value = { LaneView T };

    ghost coded = { lane_code T.code };

    ghost use Rattle.lane_ring.specs.LaneFields.{view_of, IsLane};

    ghost view = { view_of };

    ghost invariant = { IsLane };
}

/// Whether the item may be shown after the one with serial `last`, if one was shown: it needs nothing before it, or it
/// comes right behind that one.
fn may_follow<T>(held: &Held<T>, last: Option<u64>) -> bool
    ensures { result ≡ may_follow last held.now }
{
    held.refresh || last.is_some_and(|last| last < held.serial && held.serial - last == 1)
}

impl<T: Drop> Lane<T> {
    ghost use Rattle.lane_ring.specs.Taking.{spares_after, given_of, items_passed, former_item, slot_item, serial_of};
    ghost use Rattle.pel_model.specs.Lanes.{Arrival, Received, Missing};
    ghost use Rattle.lane_ring.specs.Arrivals.{HasArrivals};

    /// A lane that holds nothing and has given no serial. The eight boxes become its spares. At want of memory they are
    /// dropped.
    pub fn reserve(alloc: Global, boxes: Vec<T>) -> Result<Lane<T>, NoMemory>
        requires { vec_len boxes ≡ 8 }
        ensures empty { IfOk result (λ lane. lane ≡ record { held = []; spares = boxes.items; count = 0 }) }
        ensures arrivals { IfOk result (λ lane. HasArrivals lane 0 []) }
    {
        let held = HeapCircularBuffer::with_capacity(alloc, ROOM)?;
        let mut spares = HeapCircularBuffer::with_capacity(alloc, ROOM)?;
        for spare in boxes {
            keep(&mut spares, spare);
        }
        Ok(Lane {
            held,
            spares,
            count: 0,
        })
    }

    /// The serial that was given last, 0 where none was.
    pub fn count(&self) -> u64
        ensures { result ≡ self.now.count }
    {
        self.count
    }

    /// Whether the item with this serial is held.
    pub fn holds(&self, serial: u64) -> bool
        ensures { result ≡ list_any (λ (h : TheHeld T). h.serial == serial) self.now.held }
    {
        self.held.iter().any(|held| held.serial == serial)
    }

    /// Gives the next serial to nothing. The count has to be below 2^62.
    pub fn gap(&mut self)
        requires { self.old.count < 2 ^ 62 }
        ensures counts { self.new ≡ record self.old { count = self.old.count + 1 } }
        ensures arrivals { (low : ℕ) (xs : List (Arrival T)) → HasArrivals self.old low xs →
            HasArrivals self.new low (xs ++ Missing ∷ []) }
    {
        self.count += 1;
    }

    /// Holds an item under the next serial. Gives a spare, or the oldest held item where eight were held. The count has
    /// to be below 2^62.
    pub fn post(&mut self, item: T, refresh: bool) -> T
        requires { self.old.count < 2 ^ 62 }
        ensures held { self.new.held ≡ last_of lane_room (self.old.held
            ++ record { serial = self.old.count + 1; refresh = refresh; item = item } ∷ []) }
        ensures count { self.new.count ≡ self.old.count + 1 }
        ensures spares { self.new.spares ≡ spares_after self.old }
        ensures given { Some result ≡ given_of self.old }
        ensures arrivals { (low : ℕ) (xs : List (Arrival T)) → HasArrivals self.old low xs →
            HasArrivals self.new low (xs ++ Received refresh item ∷ []) }
    {
        let serial = self.count + 1;
        self.count = serial;
        let held = Held {
            serial,
            refresh,
            item,
        };
        match self.held.push_back(held) {
            Some(oldest) => oldest.item,
            None => match self.spares.pop_front() {
                Some(spare) => spare,
                None => unreachable!(),
            },
        }
    }

    /// Takes the first held item that may be shown after the one with serial `last`, if one was shown: the first that is
    /// a refresh or has the serial behind `last`. It then stands in the slot, and what stood there is a spare. The held
    /// items before it are passed, and become spares; where there is no such item, all are, and the slot stays as it is.
    pub fn take(&mut self, last: Option<u64>, slot: &mut T) -> Option<u64>
        ensures serial { result ≡ serial_of (first_to_show last self.old.held) }
        ensures held { self.new.held ≡ after_first (may_follow last) self.old.held }
        ensures slot { slot.new ≡ slot_item (first_to_show last self.old.held) slot.old }
        ensures spares { self.new.spares
            ≡ (self.old.spares ++ items_passed last self.old.held)
            ++ former_item (first_to_show last self.old.held) slot.old }
        ensures count { self.new.count ≡ self.old.count }
        ensures arrivals { (low : ℕ) (xs : List (Arrival T)) → HasArrivals self.old low xs →
            HasArrivals self.new (low_after last self.old.held low) xs }
    {
        while let Some(held) = self.held.pop_front() {
            if may_follow(&held, last) {
                let former = mem::replace(slot, held.item);
                keep(&mut self.spares, former);
                return Some(held.serial);
            }
            keep(&mut self.spares, held.item);
        }
        None
    }
}
