//! What a seat knows, and the table that lies under the lock: two words, `tickets` and `turn`, and a slot for the box.
use crate::machine::Machine;
use atomic_table::{Seat, Table, TableRule};
use std::alloc::Global;
use std::collections::LinkedList;
use std::marker::PhantomData;
use std::snapshot::Snapshot;

/// One turn of a machine. Contracts see histories as lists of turns; the program makes none.
pub struct Turn<C, R> {
    pub call: C,
    pub reply: R,
}

/// What one seat knows. Only contracts see it; the program makes none.
pub(crate) struct View<M, C, R> {
    /// The machine that the lock was opened with; none in a view that was joined into another.
    pub opening: Option<M>,
    /// The number of turns that the lock was made for.
    pub turns: u64,
    pub share: u64,
    /// The turns from the first one on, as far as the seat knows them.
    pub seen: LinkedList<Turn<C, R>>,
    /// The shorter one of the two histories that met at the last join.
    pub met: LinkedList<Turn<C, R>>,
    /// The places of its own turns.
    pub mine: LinkedList<u64>,
    /// The places of the seats that were joined into it.
    pub past: LinkedList<u64>,
    pub front: u64,
    pub ticket: Option<u64>,
    pub at_turn: bool,
    pub full: bool,
    pub looks: u64,
    pub spent: bool,
}

/// What the lock is told when it is made.
#[derive(Drop)]
pub(crate) struct Opening<M> {
    pub machine: Snapshot<M>,
    pub turns: u64,
}

pub(crate) struct LockRule<M> {
    machine: PhantomData<M>,
}

impl<M: Machine> TableRule<Option<Box<M>>, View<M, M::Call, M::Reply>, Opening<M>> for LockRule<M> {
    ghost use Rattle.hall_lock.specs.Rule.{IsKept};
    ghost use Rattle.hall_lock.specs.AtTable.{first_view};

    ghost holds = { λ key s. IsKept M.shape M.fits M.steps key.machine.value key.turns s };

    ghost first = { λ key. first_view key.machine.value key.turns };
}

pub(crate) type LockTable<M> = Table<
    Option<Box<M>>,
    View<M, <M as Machine>::Call, <M as Machine>::Reply>,
    Opening<M>,
    LockRule<M>,
    Global,
>;

pub(crate) type LockSeat<M> = Seat<
    Option<Box<M>>,
    View<M, <M as Machine>::Call, <M as Machine>::Reply>,
>;

/// The word that counts the turns drawn.
pub(crate) const TICKETS: usize = 0;

/// The word that counts the turns passed.
pub(crate) const TURN: usize = 1;

/// The slot of the box.
pub(crate) const BOX: usize = 0;
