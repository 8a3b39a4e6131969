//! One call at the lock: a ticket is drawn, its turn is waited for, and the machine makes one step.
ghost use Rattle.std.specs.Prelude.{◌≡◌};
ghost use Rattle.hall_lock.specs.AtTable.{RestsAt, AwaitsTurn, HasTurn, IsSame, Draws, Arrives, MakesTurn, FitsFrom, turn_of};

use crate::machine::Machine;
use crate::steps::{draw, look, pass_as, put_home, see_tickets, take_out};
use crate::view::{LockSeat, LockTable, TICKETS, TURN};
use std::hint::spin_loop;
use std::marker::Brand;
use std::snapshot::Snapshot;
use std::sync::Wait;

/// How often a caller looks again for its turn before it sleeps.
const ROUNDS: u32 = 64;

/// Draws the next ticket, or answers `None` where all turns are drawn.
pub(crate) fn draw_ticket<M: Machine, R: Wait>(
    rt: &R,
    table: &LockTable<M>,
    seat: &mut LockSeat<M>,
    turns: u64,
) -> Option<u64>
    requires rest { RestsAt table.now.shared.table_id seat.old }
    requires turns { seat.old.me.0.turns ≡ turns }
    ensures { Draws seat.old turns result seat.new }
{
    for _ in rt.forever() {
        let ticket = see_tickets(table, seat);
        if ticket == turns {
            return None;
        }
        if draw(table, seat, ticket) {
            return Some(ticket);
        }
    }
    unreachable!()
}

/// Waits until `turn` is no longer what was found there: a few times by looking again at once, and then asleep.
fn wait_while<M: Machine, R: Wait>(rt: &R, table: &LockTable<M>, found: u64, rounds: u32)
    requires { table.now.shared.table_id.words ≡ 2 }
{
    if rounds < ROUNDS {
        spin_loop();
    } else {
        table
            .shared
            .park(rt, TURN, (found & u64::from(u32::MAX)) as u32);
    }
}

/// Waits until the ticket is at its turn, and takes the slot.
pub(crate) fn wait_turn<M: Machine, R: Wait>(
    rt: &R,
    table: &LockTable<M>,
    seat: &mut LockSeat<M>,
    ticket: u64,
)
    requires { AwaitsTurn table.now.shared.table_id seat.old ticket }
    ensures same { IsSame seat.old seat.new }
    ensures told { Arrives M.shape M.fits M.steps seat.old.me ticket seat.new.me }
{
    let mut rounds = 0;
    for _ in rt.forever() {
        let found = look(table, seat);
        if found == ticket {
            return;
        }
        wait_while(rt, table, found, rounds);
        rounds = rounds.saturating_add(1);
    }
    unreachable!()
}

/// One step of the machine in the box.
fn stepped<M: Machine>(mut machine: Box<M>, call: M::Call) -> (Box<M>, M::Reply)
    requires { M.fits (M.shape machine.value) call }
    ensures { M.steps machine.value call result.1 result.0.value }
{
    let reply = machine.step(call);
    (machine, reply)
}

/// Makes the turn: takes the box out of the slot, steps the machine, brings the box home, and adds the turn to the
/// history. Then it wakes whoever waits for the next one.
pub(crate) fn make_turn<M: Machine>(
    table: &LockTable<M>,
    seat: &mut LockSeat<M>,
    ticket: u64,
    call: M::Call,
) -> M::Reply
    requires turn { HasTurn M.shape M.fits M.steps table.now.shared.table_id seat.old ticket }
    requires call { FitsFrom M.shape M.fits M.steps seat.old.me.0.opening call }
    ensures { MakesTurn M.shape M.fits M.steps seat.old (turn_of call result) seat.new }
{
    let asked = Snapshot::of(&call);
    let machine = take_out(table, seat);
    let (machine, reply) = stepped(machine, call);
    put_home(table, seat, machine);
    pass_as::<M, Brand>(table, seat, ticket, &asked, &reply);
    if table.shared.peek(TICKETS) > ticket + 1 {
        table.shared.wake_all(TURN);
    }
    reply
}
