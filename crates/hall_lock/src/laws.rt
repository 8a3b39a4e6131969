//! Laws of turns: functions without a body, whose contracts are the laws. They hold for every machine.
ghost use Rattle.hall_lock.specs.TurnLaws.{SortLaw, ShareLaw, JoinLaw, FinishLaw, TellLaw, StepLaw, PieceLaw, GatherLaw};

use crate::machine::Machine;
use crate::tale::Tale;

/// Where each place of a history is one of one worker's, each worker's turns in the history are those at its places, and
/// the history has as many turns as the workers have places.
pub fn turns_are_sorted<T>()
    ensures { SortLaw T }
{}

/// Where the seats of all workers are joined into one that accounts for every turn, the history is the workers' turns
/// and no others, each worker's in the order in which it made them.
pub fn history_is_shared_out<M: Machine>()
    ensures { ShareLaw M M.Call M.Reply }
{}

/// A seat that others are joined into one by one.
pub fn seats_join_one_by_one<M: Machine>()
    ensures { JoinLaw M M.Call M.Reply }
{}

/// A worker that alone ends the machine, by its last call, is never answered that the machine has ended.
pub fn finish_comes_last<M: Machine>()
    ensures { FinishLaw M.steps }
{}

/// Turns tell their items in their order, and turns that tell nothing make no difference.
pub fn turns_tell_items<T: Tale>()
    ensures { (tale : T) → TellLaw (T.tells tale) }
{}

/// What is picked out of the history of a machine is what its turns tell of it.
pub fn steps_are_told<T: Tale, Y>()
    ensures { (tale : T) → StepLaw (T.tells tale) Y }
{}

/// An output with a state is put together from the turns that put something out or change the state.
pub fn output_is_gathered<A, T, X>()
    ensures { PieceLaw A T X }
{}

/// Items that are read off each turn are those of the turns that have any.
pub fn items_are_gathered<T, X>()
    ensures { GatherLaw T X }
{}
