//! The hall as a machine that many workers call: each call is one step of its history, or is given back.
ghost use Rattle.std.specs.Prelude.{◌<◌};
ghost use Rattle.hall_core.specs.declared.machine.HallCall.TheVariants.{Post as AskPost, Gap as AskGap, Order as AskOrder, Tick as AskTick, Finish};
ghost use Rattle.hall_core.specs.Hall.{lanes_of};
ghost use Rattle.hall_core.specs.Machine.{Fits, HallSteps, keeps_lanes};

use crate::hall::{Ended, Hall};
use h261_pic::{Coded, Hand};
use hall_lock::Machine;
use pel_model::{Command, Reply, TickNote};

/// A call of the hall. Boxes go by move, so no picture is copied, and come back in the reply.
#[derive(Drop)]
pub enum HallCall {
    /// A picture of a lane comes.
    Post { lane: u8, item: Box<Coded> },
    /// Pictures of a lane were lost.
    Gap { lane: u8 },
    /// The chair gives a command.
    Order(Command),
    /// A picture is to be written, of so many pictures at 29.97 Hz, 1 to 31. What is taken is put into the hand.
    Tick { step: u8, hand: Hand },
    /// The conference ends.
    Finish,
}

/// What the hall answers.
#[derive(Drop)]
pub enum HallReply {
    /// To a post: a box for the next picture.
    Spare(Box<Coded>),
    /// To a gap.
    Counted,
    /// To a command: what the chair is answered.
    Ordered(Reply),
    /// To a tick: what was taken, and the hand.
    Ticked { note: TickNote, hand: Hand },
    /// To the end.
    Finished,
    /// No step may follow: the conference has ended, or made all its steps. The call comes back as it was.
    Ended(HallCall),
}

/// A post, or the call given back.
fn post(hall: &mut Hall, lane: u8, item: Box<Coded>) -> HallReply
    requires { Fits (lanes_of hall.old) (AskPost lane item) }
    ensures { HallSteps hall.old (AskPost lane item) result hall.new }
{
    match hall.post(lane, item) {
        Ok(spare) => HallReply::Spare(spare),
        Err(Ended(item)) => HallReply::Ended(HallCall::Post { lane, item }),
    }
}

/// A gap, or the call given back.
fn gap(hall: &mut Hall, lane: u8) -> HallReply
    requires { lane < lanes_of hall.old }
    ensures { HallSteps hall.old (AskGap lane) result hall.new }
{
    match hall.gap(lane) {
        Ok(()) => HallReply::Counted,
        Err(_ended) => HallReply::Ended(HallCall::Gap { lane }),
    }
}

/// A command, or the call given back.
fn order(hall: &mut Hall, command: Command) -> HallReply
    ensures { HallSteps hall.old (AskOrder command) result hall.new }
{
    match hall.command(command) {
        Ok(reply) => HallReply::Ordered(reply),
        Err(_ended) => HallReply::Ended(HallCall::Order(command)),
    }
}

/// A tick, or the call given back.
fn tick(hall: &mut Hall, step: u8, mut hand: Hand) -> HallReply
    requires { Fits (lanes_of hall.old) (AskTick step hand) }
    ensures { HallSteps hall.old (AskTick step hand) result hall.new }
{
    match hall.tick(step, &mut hand) {
        Ok(note) => HallReply::Ticked { note, hand },
        Err(_ended) => HallReply::Ended(HallCall::Tick { step, hand }),
    }
}

/// The end, or the call given back.
fn finish(hall: &mut Hall) -> HallReply
    ensures { HallSteps hall.old Finish result hall.new }
{
    match hall.end() {
        Ok(()) => HallReply::Finished,
        Err(_ended) => HallReply::Ended(HallCall::Finish),
    }
}

impl Machine for Hall {
    type Call = HallCall;

    type Reply = HallReply;

    type Shape = u8;

    ghost shape = { lanes_of };

    ghost fits = { Fits };

    ghost steps = { HallSteps };

    ghost keeps_shape = { keeps_lanes };

    fn step(&mut self, call: HallCall) -> HallReply {
        match call {
            HallCall::Post { lane, item } => post(self, lane, item),
            HallCall::Gap { lane } => gap(self, lane),
            HallCall::Order(command) => order(self, command),
            HallCall::Tick { step, hand } => tick(self, step, hand),
            HallCall::Finish => finish(self),
        }
    }
}

fn is_sent<T: Send>() {}

/// A hall, its calls and its replies may go from thread to thread.
fn crosses_threads() {
    is_sent::<Hall>();
    is_sent::<HallCall>();
    is_sent::<HallReply>();
}
