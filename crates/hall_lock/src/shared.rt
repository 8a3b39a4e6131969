//! The lock, which threads share.
ghost use Rattle.std.specs.Prelude.{◌≡◌, ◌^◌, ◌<◌, ◌≤◌, true, IfOk, IfErr};
ghost use Rattle.hall_lock.specs.Seats.{IsOf, first_seat, part_of, left_of};
ghost use Rattle.hall_lock.specs.Own.{Sits, Glances};
ghost use Rattle.hall_lock.specs.Asking.{TakesTurn};
ghost use Rattle.hall_lock.specs.Joining.{TakesIn};
ghost use Rattle.hall_lock.specs.Closing.{Closes};

use crate::machine::Machine;
use crate::seat::{Past, Seat};
use crate::steps::{cut_as, glue, look};
use crate::turns::{draw_ticket, make_turn, wait_turn};
use crate::view::{BOX, LockTable, Opening, TURN};
use atomic_table::Table;
use pel_bits::NoMemory;
use std::alloc::Global;
use std::marker::{Brand, Model};
use std::snapshot::Snapshot;
use std::sync::Wait;

/// A machine under a turn lock. Threads share it by reference, and each calls with a seat of its own.
///
/// Contracts see of it, as a record `Lock` of `specs/Seats.antt`, which lock it is (`name`), the machine that it was
/// opened with (`opening`) and the number of turns that it was made for (`turns`).
#[derive(Drop)]
pub struct Shared<M: Machine> {
    table: LockTable<M>,
    turns: u64,
}

impl<M: Machine> Model for Shared<M> {
    ghost use Rattle.hall_lock.specs.Seats.{Lock, lock_code};
    ghost use Rattle.std.specs.Prelude.{◌≡◌};

    ghost Value = { Lock M };

    ghost coded = { lock_code M.code };

    ghost view = { λ s. record {
      name = s.table.shared.table_id;
      opening = s.table.shared.key.machine.value;
      turns = s.turns;
    } };

    ghost invariant = { λ s. (s.table.shared.table_id.words ≡ 2)
        × (s.table.shared.table_id.slots ≡ 1) × (s.turns ≡ s.table.shared.key.turns) };
}

/// All turns of the lock are drawn. The call comes back as it was handed in.
#[derive(Drop)]
pub struct Over<C>(pub C);

/// A lock that was closed: the machine, and the number of turns that it made.
#[derive(Drop)]
pub struct Closed<M: Machine> {
    pub machine: Box<M>,
    pub turns: u64,
    /// The seat that closed the lock, with its history. Only contracts see it.
    pub seat: Snapshot<Seat<M>>,
}

impl<M: Machine> Shared<M> {
    /// Puts the machine under a lock that makes up to so many turns, from 1 to 2^62. The seat has the whole share,
    /// 2^32. This is the one call that takes memory, and where there is none it answers `NoMemory`.
    pub fn reserve(alloc: Global, machine: M, turns: u64) -> Result<(Shared<M>, Seat<M>), NoMemory>
    where
        M: Drop,
        requires { (1 ≤ turns) × (turns ≤ 2 ^ 62) }
        ensures { IfOk result (λ l. (l.0.opening ≡ machine) × (l.0.turns ≡ turns)
            × (l.1 ≡ first_seat l.0)) }
    {
        let about = Opening {
            machine: Snapshot::of(&machine),
            turns,
        };
        let Ok(machine) = Box::new(alloc, machine) else {
            return Err(NoMemory);
        };
        let mut slots = Vec::new(alloc);
        let Ok(()) = slots.push(Some(machine)) else {
            return Err(NoMemory);
        };
        let Ok((table, seat)) = Table::new(alloc, &[0, 0], slots, &about) else {
            return Err(NoMemory);
        };
        Ok((Shared { table, turns }, Seat { seat }))
    }

    /// Draws the next turn, waits until all turns before it are made, and steps the machine by the call, which has to
    /// fit the shape of the opening machine. It answers `Over` exactly where its draw read that all turns were drawn.
    pub fn call(
        &self,
        rt: &impl Wait,
        seat: &mut Seat<M>,
        call: M::Call,
    ) -> Result<M::Reply, Over<M::Call>>
        requires seat { IsOf self.now seat.old }
        requires fits { M.fits (M.shape self.now.opening) call }
        ensures seat { Sits self.now seat.new }
        ensures turn { IfOk result (λ reply.
            TakesTurn M.shape M.fits M.steps self.now call reply seat.old seat.new) }
        ensures over { IfErr result (λ over. (over.0 ≡ call)
            × (seat.new ≡ record seat.old { full = true })) }
    {
        let Some(ticket) = draw_ticket(rt, &self.table, &mut seat.seat, self.turns) else {
            return Err(Over(call));
        };
        wait_turn(rt, &self.table, &mut seat.seat, ticket);
        Ok(make_turn(&self.table, &mut seat.seat, ticket, call))
    }

    /// The number of turns passed, read from the lock in this call. It waits for no one.
    pub fn glance(&self, seat: &mut Seat<M>) -> u64
        requires { IsOf self.now seat.old }
        ensures { Glances self.now seat.old result seat.new }
    {
        look(&self.table, &mut seat.seat)
    }

    /// Splits a part of the seat's share off, at least 1 and less than all, for a new seat that knows what this one
    /// knows and has made no turn.
    pub fn split(&self, seat: &mut Seat<M>, part: u64) -> Seat<M>
        requires seat { IsOf self.now seat.old }
        requires part { (1 ≤ part) × (part < seat.old.share) }
        ensures seats { Sits self.now seat.new × Sits self.now result }
        ensures parts { (seat.new ≡ left_of seat.old part) × (result ≡ part_of seat.old part) }
    {
        Seat {
            seat: cut_as::<M, Brand>(&self.table, &mut seat.seat, part),
        }
    }

    /// Joins the other seat into this one, which then knows what either knew and has both shares.
    pub fn join(&self, seat: &mut Seat<M>, other: Seat<M>) -> Past<M>
        requires { IsOf self.now seat.old × IsOf self.now other }
        ensures seat { Sits self.now seat.new }
        ensures takes { TakesIn seat.old other seat.new }
        ensures past { result.seat.value ≡ other }
    {
        let past = Past {
            seat: Snapshot::of(&other),
        };
        let Seat { seat: other } = other;
        glue(&self.table, &mut seat.seat, other);
        past
    }

    /// Ends the lock, where the seat has the whole share again. The machine comes back with every turn made.
    pub fn close(self, seat: Seat<M>) -> Closed<M>
        requires seat { IsOf self seat }
        requires whole { seat.share ≡ 2 ^ 32 }
        ensures closes { Closes M.shape M.fits M.steps self seat result.machine.value result.turns }
        ensures seat { result.seat.value ≡ seat }
    {
        let known = Snapshot::of(&seat);
        let Shared { table, turns: _ } = self;
        let Seat { seat } = seat;
        let mut closed = table.close_with(seat);
        let turns = closed.word(TURN);
        let Some(machine) = closed.take(BOX) else {
            unreachable!()
        };
        closed.free();
        Closed {
            machine,
            turns,
            seat: known,
        }
    }
}

fn is_shared<T: Sync>() {}

fn is_sent<T: Send>() {}

/// Threads may share a lock, and a seat, and what is left of one, may go to another thread, where the machine, its
/// calls and its replies may.
fn crosses_threads<M: Machine + Send>()
where
    M::Call: Send,
    M::Reply: Send,
{
    is_shared::<Shared<M>>();
    is_sent::<Shared<M>>();
    is_sent::<Seat<M>>();
    is_sent::<Past<M>>();
    is_sent::<Closed<M>>();
}
