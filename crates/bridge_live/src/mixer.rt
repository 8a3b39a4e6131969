//! The worker of the mixer: it takes steps from its ticker, and writes the picture of a tick for each.
ghost use Rattle.std.specs.Prelude.{◌≡◌};
ghost use Rattle.hall_core.specs.declared.machine.HallReply.TheVariants.{Ticked};
ghost use Rattle.bridge_live.specs.Mixing.{TakesTickStep, HoldsTick, MayTick, MakesTick, MayWrite, WritesTick, MayFinish, Finishes, MixesOne, mix_stop_for, last_stop, StopsQuiet, MayStep, StepsOnce, MixBegins, RanMixer};

use crate::calls::{Halt, call};
use crate::ends::MixStop;
use crate::writer::PictureWriter;
use cif_pack::takes_in;
use h261_pic::Hand;
use hall_core::{Hall, HallCall, HallReply};
use hall_lock::{Seat, Shared};
use io_edge::{Failed, Sink, Ticker};
use pel_model::TickNote;
use std::sync::Wait;

/// What the mixer made and wrote.
#[derive(Clone, Copy, Debug, Default, PartialEq, Eq)]
pub struct MixCounts {
    /// The ticks.
    pub ticks: u64,
    /// The pictures that they took.
    pub taken: u64,
    /// The packets of the pictures that were written whole.
    pub packets: u64,
    /// Their octets, with the two of each frame's length.
    pub octets: u64,
}

/// What the mixer calls and writes with: its seat at the lock, what composes and sends its pictures, and its counts.
#[derive(Drop)]
pub struct Mixer {
    pub seat: Seat<Hall>,
    pub writer: PictureWriter,
    pub counts: MixCounts,
}

/// Why the ticker gave no step.
#[derive(Clone, Copy, Debug, PartialEq, Eq)]
pub enum Quiet {
    /// None is left.
    AtEnd,
    /// It failed.
    Failing,
}

/// What a tick told, and the hand with the pictures that it took.
#[derive(Drop)]
pub struct Taken {
    pub note: TickNote,
    pub hand: Hand,
}

/// Takes the next step of a tick.
fn next_step<C: Ticker>(ticker: &mut C) -> Result<u8, Quiet>
    ensures { TakesTickStep (C.tells ticker.old) (C.tells ticker.new) result }
{
    match ticker.next() {
        Ok(given) => given.ok_or(Quiet::AtEnd),
        Err(_failed) => Err(Quiet::Failing),
    }
}

/// The tick in a reply.
fn tick_in(reply: HallReply) -> Taken
    requires { HoldsTick reply }
    ensures { reply ≡ Ticked result.note result.hand }
{
    let HallReply::Ticked { note, hand } = reply else {
        unreachable!();
    };
    Taken { note, hand }
}

impl Mixer {
    /// A tick at the lock, which takes its pictures into the hand.
    fn take(
        &mut self,
        rt: &impl Wait,
        lock: &Shared<Hall>,
        step: u8,
        hand: Hand,
    ) -> Result<Taken, Halt>
        requires { MayTick lock.now step hand self.old }
        ensures { MakesTick lock.now step self.old self.new result }
    {
        let reply = call(rt, lock, &mut self.seat, HallCall::Tick { step, hand })?;
        let taken = tick_in(reply);
        self.counts.ticks += 1;
        self.counts.taken += takes_in(&taken.note);
        Ok(taken)
    }

    /// Writes the picture of a tick.
    fn write<K: Sink>(&mut self, taken: &Taken, sink: &mut K) -> Result<(), Failed>
        requires { MayWrite taken.now self.old }
        ensures { WritesTick taken.now (K.tells sink.old)
            (K.tells sink.new) self.old self.new result }
    {
        let sent = self.writer.write(&taken.note, &taken.hand, sink)?;
        self.counts.packets += sent.packets;
        self.counts.octets += sent.octets;
        Ok(())
    }

    /// The end, which the mixer alone calls for.
    fn finish(&mut self, rt: &impl Wait, lock: &Shared<Hall>) -> Result<(), Halt>
        requires { MayFinish lock.now self.old }
        ensures { Finishes lock.now self.old self.new result }
    {
        let _finished = call(rt, lock, &mut self.seat, HallCall::Finish)?;
        Ok(())
    }

    /// A tick of so many picture times, whose picture is written. Where the sink fails, the end is called for. Gives the hand
    /// for the next tick.
    fn tick<K: Sink>(
        &mut self,
        rt: &impl Wait,
        lock: &Shared<Hall>,
        step: u8,
        hand: Hand,
        sink: &mut K,
    ) -> Result<Hand, MixStop>
        requires { MayTick lock.now step hand self.old }
        ensures { MixesOne lock.now step (K.tells sink.old)
            (K.tells sink.new) self.old self.new result }
    {
        match self.take(rt, lock, step, hand) {
            Ok(taken) => match self.write(&taken, sink) {
                Ok(()) => Ok(taken.hand),
                Err(_failed) => {
                    let _ended = self.finish(rt, lock);
                    Err(MixStop::Sink)
                }
            },
            Err(back) => Err(stop_for(back)),
        }
    }

    /// The ticker gave no step: the end is called for.
    fn close(&mut self, rt: &impl Wait, lock: &Shared<Hall>, quiet: Quiet) -> MixStop
        requires { MayFinish lock.now self.old }
        ensures { StopsQuiet lock.now quiet self.old self.new result }
    {
        let ended = self.finish(rt, lock);
        match quiet {
            Quiet::AtEnd => last_stop(ended),
            Quiet::Failing => MixStop::Ticker,
        }
    }
}

/// The stop of a mixer whose tick was given back.
fn stop_for(back: Halt) -> MixStop
    ensures { result ≡ mix_stop_for back }
{
    match back {
        Halt::Ended => MixStop::Whole,
        Halt::Over => MixStop::Over,
    }
}

/// The stop of a mixer whose ticker had no step left, by what became of the end.
fn last_stop(ended: Result<(), Halt>) -> MixStop
    ensures { result ≡ last_stop ended }
{
    match ended {
        Ok(()) => MixStop::Whole,
        Err(back) => stop_for(back),
    }
}

/// Takes one step, and writes the picture of its tick. Gives the hand for the next tick.
fn take_step<C: Ticker, K: Sink>(
    rt: &impl Wait,
    lock: &Shared<Hall>,
    ticker: &mut C,
    sink: &mut K,
    mixer: &mut Mixer,
    hand: Hand,
) -> Result<Hand, MixStop>
    requires { MayStep lock.now hand mixer.old }
    ensures { StepsOnce lock.now (C.tells ticker.old) (C.tells ticker.new)
        (K.tells sink.old) (K.tells sink.new) mixer.old mixer.new result }
{
    match next_step(ticker) {
        Ok(step) => mixer.tick(rt, lock, step, hand, sink),
        Err(quiet) => Err(mixer.close(rt, lock, quiet)),
    }
}

/// Takes steps from the ticker, and writes the picture of a tick for each, until the ticker gives no step more, the sink
/// fails, or a call is given back; where none was, the end is called for. `hand` is for the pictures that ticks take, and the
/// lock is that of a hall which has made no step, of at most 2^45 turns and steps. No memory is taken, and pictures are
/// composed and sent outside of the lock.
pub fn run_mixer<C: Ticker, K: Sink>(
    rt: &impl Wait,
    lock: &Shared<Hall>,
    ticker: &mut C,
    sink: &mut K,
    mixer: &mut Mixer,
    hand: Hand,
) -> MixStop
    requires { MixBegins lock.now mixer.old hand }
    ensures { RanMixer lock.now (C.tells ticker.old) (C.tells ticker.new)
        (K.tells sink.old) (K.tells sink.new) mixer.old mixer.new result }
{
    let mut hand = hand;
    loop {
        match take_step(rt, lock, ticker, sink, mixer, hand) {
            Ok(filled) => hand = filled,
            Err(stop) => return stop,
        }
    }
}
