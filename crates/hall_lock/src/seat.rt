//! A seat at the lock, and what is left of a seat that was joined into another.
use crate::machine::Machine;
use crate::view::LockSeat;
use std::marker::Model;
use std::snapshot::Snapshot;

/// A seat at a lock, with which one thread calls. It has no bytes.
///
/// Contracts see of it, as a record `SeatState` of `specs/Seats.antt`:
/// - `lock`, the lock that it is of, and `share`, its part of the whole, which is 2^32;
/// - `seen`, a list of turns, each a call with its reply: a beginning of the lock's history;
/// - `mine`, the places in `seen` of its own turns, and `past`, those of the seats that were joined into it;
/// - `front`, the greatest number of turns passed that it, the seat that it was split from (before the split) or a
///   seat joined into it has read, and `full`, whether one of these read that all turns are drawn;
/// - `looks`, how often it read the number of turns passed itself.
///
/// The places in `mine` rise, and with those in `past` each stands once: every function says so by `Sits` of
/// `specs/Own.antt`, and none asks it.
#[derive(Drop)]
pub struct Seat<M: Machine> {
    pub(crate) seat: LockSeat<M>,
}

impl<M: Machine> Model for Seat<M> {
    ghost use Rattle.hall_lock.specs.Seats.{SeatState, seat_code};
    ghost use Rattle.hall_lock.specs.AtTable.{shown, IsSettled};

    ghost Value = { SeatState M M.Call M.Reply };

    ghost coded = { seat_code M.code M.Call.code M.Reply.code };

    ghost view = { λ s. shown s.seat.table_id s.seat.me.0 };

    ghost invariant = { λ s. IsSettled s.seat.me };
}

/// What a seat that was joined into another had seen and made. Only contracts see it.
#[derive(Drop)]
pub struct Past<M: Machine> {
    pub seat: Snapshot<Seat<M>>,
}
