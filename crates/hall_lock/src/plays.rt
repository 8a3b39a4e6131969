//! What each step on the table tells, how a view is cut in two, and how two become one.
ghost use Rattle.hall_lock.specs.Rule.{spent_view};
ghost use Rattle.hall_lock.specs.AtTable.{saw_tickets, recalled, drew, looked, passed, cut_left, cut_right, glued};

use crate::machine::Machine;
use crate::view::{Turn, View};
use atomic_table::{Join, Play, Split};
use std::marker::{Brand, PhantomData};

/// A load of `tickets`.
pub(crate) struct SeeTickets;

impl<M, C, R> Play<Option<Box<M>>, View<M, C, R>> for SeeTickets {
    ghost then = { saw_tickets };
}

/// A load of `tickets` whose number is let go.
pub(crate) struct Recall;

impl<M, C, R> Play<Option<Box<M>>, View<M, C, R>> for Recall {
    ghost then = { recalled };
}

/// A compare and exchange of `tickets`.
pub(crate) struct Draw;

impl<M, C, R> Play<Option<Box<M>>, View<M, C, R>> for Draw {
    ghost then = { drew };
}

/// A load of `turn`.
pub(crate) struct Look;

impl<M: Machine> Play<Option<Box<M>>, View<M, M::Call, M::Reply>> for Look {
    ghost then = { looked M.shape M.fits M.steps };
}

/// The turn that a store of `turn` adds to the history. The call picks it, for the store carries a number alone.
pub(crate) trait Adds<C, R> {
    ghost use Rattle.std.specs.Prelude.{List};
    ghost use Rattle.hall_lock.specs.declared.view.Turn.{Turn};

    ghost added: { List (Turn C R) };
}

impl<C, R> Adds<C, R> for Brand {
    ghost use Rattle.std.specs.Prelude.{[]};

    ghost added = { [] };
}

/// A store of `turn`.
pub(crate) struct Pass<J> {
    turn: PhantomData<J>,
}

impl<M, C, R, J: Adds<C, R>> Play<Option<Box<M>>, View<M, C, R>> for Pass<J> {
    ghost then = { passed J.added };
}

/// The part of a share that a split gives away. The call picks it.
pub(crate) trait Part {
    ghost use Rattle.std.specs.Prelude.{ℕ};

    ghost part: { ℕ };
}

impl Part for Brand {
    ghost part = { 0 };
}

pub(crate) struct Cut<J> {
    part: PhantomData<J>,
}

impl<M, C, R, J: Part> Split<View<M, C, R>> for Cut<J> {
    ghost left = { cut_left J.part };

    ghost right = { cut_right J.part };
}

pub(crate) struct Glue;

impl<M, C, R> Join<View<M, C, R>> for Glue {
    ghost both = { glued };

    ghost spent = { spent_view };
}
