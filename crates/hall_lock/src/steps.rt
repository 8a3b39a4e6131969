//! The steps of the lock, one function for each kind.
ghost use Rattle.std.specs.Prelude.{◌≡◌, ◌<◌, ◌≤◌, [], ◌∷◌, None, Some};
ghost use Rattle.hall_lock.specs.AtTable.{SitsAt, WaitsAt, MayDraw, KeepsSlot, RestsAt, MayPass, Becomes, Learns, DrawsOne, ReadsTurn, Recalls, TakesOut, Passes, Cuts, Glues, turn_of};

use crate::machine::Machine;
use crate::plays::{Adds, Cut, Draw, Glue, Look, Part, Pass, Recall, SeeTickets};
use crate::view::{BOX, LockSeat, LockTable, TICKETS, TURN};
use std::snapshot::Snapshot;

/// Loads `tickets`.
pub(crate) fn see_tickets<M: Machine>(table: &LockTable<M>, seat: &mut LockSeat<M>) -> u64
    requires { SitsAt table.now.shared.table_id seat.old }
    ensures { Learns seat.old result seat.new }
{
    table.shared.load::<SeeTickets>(seat, TICKETS)
}

/// Draws the ticket, where `tickets` stands at it.
pub(crate) fn draw<M: Machine>(table: &LockTable<M>, seat: &mut LockSeat<M>, ticket: u64) -> bool
    requires { MayDraw table.now.shared.table_id seat.old ticket }
    ensures { DrawsOne seat.old ticket result seat.new }
{
    table
        .shared
        .compare_exchange::<Draw>(seat, TICKETS, ticket, ticket + 1)
        == ticket
}

/// Loads `turn`, and takes the slot where it stands at the seat's ticket.
pub(crate) fn look<M: Machine>(table: &LockTable<M>, seat: &mut LockSeat<M>) -> u64
    requires { WaitsAt table.now.shared.table_id seat.old }
    ensures { ReadsTurn M.shape M.fits M.steps seat.old result seat.new }
{
    table.shared.load::<Look>(seat, TURN)
}

/// Loads `tickets` and lets the number go. It tells what the rule says of the seat's own lists.
pub(crate) fn recall<M: Machine>(table: &LockTable<M>, seat: &mut LockSeat<M>)
    requires { SitsAt table.now.shared.table_id seat.old }
    ensures { Recalls seat.old seat.new }
{
    table.shared.load::<Recall>(seat, TICKETS);
}

/// Takes the box out of the slot.
pub(crate) fn take_out<M: Machine>(table: &LockTable<M>, seat: &mut LockSeat<M>) -> Box<M>
    requires { (b : _) × KeepsSlot table.now.shared.table_id seat.old (Some b) }
    ensures { TakesOut seat.old result seat.new }
{
    match table.shared.exchange(seat, BOX, None) {
        Some(machine) => machine,
        None => unreachable!(),
    }
}

/// Puts the box home into the slot.
pub(crate) fn put_home<M: Machine>(table: &LockTable<M>, seat: &mut LockSeat<M>, machine: Box<M>)
    requires { KeepsSlot table.now.shared.table_id seat.old None }
    ensures { Becomes seat.old (seat.old.me.0, (0, Some machine) ∷ []) seat.new }
{
    match table.shared.exchange(seat, BOX, Some(machine)) {
        None => {}
        Some(_) => unreachable!(),
    }
}

/// Stores `turn`, which adds the turn to the history. The call of it picks `J`.
pub(crate) fn pass_as<M: Machine, J: Adds<M::Call, M::Reply>>(
    table: &LockTable<M>,
    seat: &mut LockSeat<M>,
    ticket: u64,
    call: &Snapshot<M::Call>,
    reply: &M::Reply,
)
    requires picked { J.added ≡ turn_of call.now.value reply.now ∷ [] }
    requires turn { MayPass M.shape M.fits M.steps table.now.shared.table_id seat.old ticket
        (turn_of call.now.value reply.now) }
    ensures { Passes seat.old (turn_of call.now.value reply.now) seat.new }
{
    table.shared.store::<Pass<J>>(seat, TURN, ticket + 1);
}

/// Gives a part of the share to a new seat. The call of it picks `J`.
pub(crate) fn cut_as<M: Machine, J: Part>(
    table: &LockTable<M>,
    seat: &mut LockSeat<M>,
    part: u64,
) -> LockSeat<M>
    requires picked { J.part ≡ part }
    requires rest { RestsAt table.now.shared.table_id seat.old }
    requires part { (1 ≤ part) × (part < seat.old.me.0.share) }
    ensures { Cuts seat.old part seat.new result }
{
    table.shared.split_seat::<Cut<J>>(seat)
}

/// Joins the other seat into this one.
pub(crate) fn glue<M: Machine>(table: &LockTable<M>, seat: &mut LockSeat<M>, other: LockSeat<M>)
    requires { RestsAt table.now.shared.table_id seat.old × RestsAt table.now.shared.table_id other }
    ensures { Glues seat.old other seat.new }
{
    table.shared.join_seat::<Glue>(seat, other);
    recall(table, seat);
}
