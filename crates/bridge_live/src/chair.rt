//! The worker of the chair: it takes lines from its source, and orders what they say.
ghost use Rattle.std.specs.Prelude.{◌≡◌};
ghost use Rattle.bridge_live.specs.Hearing.{MayHear, GivesOrder, HearsLine, StopsHearing, HasOrder, is_refusal, halted, last_stop, MayTakeLine, HearsNext, ChairBegins, RanChair};

use crate::calls::{Halt, call};
use crate::ends::ChairStop;
use crate::lane::MOST_TAKEN;
use crate::lines::{KEPT, next_line};
use arrayvec::ArrayVec;
use chair_words::{has_words, read_line};
use hall_core::{Command, Hall, HallCall, HallReply, Reply};
use hall_lock::{Seat, Shared};
use io_edge::{Allowance, Pause, Source};
use std::sync::Wait;

/// What the chair did.
#[derive(Clone, Copy, Debug, Default, PartialEq, Eq)]
pub struct ChairCounts {
    /// The commands.
    pub commands: u64,
    /// Those of them that were refused.
    pub refused: u64,
    /// The lines that were faulty.
    pub bad: u64,
}

/// What the chair calls with: its seat at the lock, and the counts of what it did.
#[derive(Drop)]
pub struct Chair {
    pub seat: Seat<Hall>,
    pub counts: ChairCounts,
}

impl Chair {
    /// A command of the chair.
    fn order(&mut self, rt: &impl Wait, lock: &Shared<Hall>, command: Command) -> Result<(), Halt>
        requires { MayHear 1 lock.now self.old }
        ensures { GivesOrder lock.now command self.old self.new result }
    {
        let reply = call(rt, lock, &mut self.seat, HallCall::Order(command))?;
        self.counts.commands += 1;
        self.counts.refused += u64::from(is_refusal(&reply));
        Ok(())
    }

    /// A line of the chair, of which the first 256 octets were kept.
    fn hear(&mut self, rt: &impl Wait, lock: &Shared<Hall>, line: &[u8]) -> Result<(), Halt>
        requires { MayHear 1 lock.now self.old }
        ensures { HearsLine lock.now line.now self.old self.new result }
    {
        if line.len() >= KEPT {
            self.counts.bad += 1;
            return Ok(());
        }
        if !has_words(line) {
            return Ok(());
        }
        match read_line(line) {
            Ok(command) => self.order(rt, lock, command),
            Err(_fault) => {
                self.counts.bad += 1;
                Ok(())
            }
        }
    }

    /// No whole line came. What came behind the last one is a line where the source ended.
    fn stop(&mut self, rt: &impl Wait, lock: &Shared<Hall>, pause: Pause, rest: &[u8]) -> ChairStop
        requires { MayHear 1 lock.now self.old }
        ensures { StopsHearing lock.now pause rest.now self.old self.new result }
    {
        match pause {
            Pause::End => last_stop(self.hear(rt, lock, rest)),
            Pause::Fault => ChairStop::Fault,
            Pause::Limit => ChairStop::Limit,
        }
    }
}

/// Whether the reply refuses a command.
fn is_refusal(reply: &HallReply) -> bool
    requires { HasOrder reply.now }
    ensures { result ≡ is_refusal reply.now }
{
    let HallReply::Ordered(reply) = reply else {
        unreachable!();
    };
    *reply != Reply::Done
}

/// A command that was given back stops the chair.
fn halted(heard: Result<(), Halt>) -> Result<(), ChairStop>
    ensures { result ≡ halted heard }
{
    match heard {
        Ok(()) => Ok(()),
        Err(Halt::Ended) => Err(ChairStop::Ended),
        Err(Halt::Over) => Err(ChairStop::Over),
    }
}

/// The stop of a chair whose source ended, by what became of the last line.
fn last_stop(heard: Result<(), Halt>) -> ChairStop
    ensures { result ≡ last_stop heard }
{
    match heard {
        Ok(()) => ChairStop::Whole,
        Err(Halt::Ended) => ChairStop::Ended,
        Err(Halt::Over) => ChairStop::Over,
    }
}

/// Takes one line and makes the call for it, before the source is asked again.
fn take_line<S: Source>(
    rt: &impl Wait,
    lock: &Shared<Hall>,
    source: &mut S,
    line: &mut ArrayVec<u8, KEPT>,
    allowance: &mut Allowance,
    chair: &mut Chair,
) -> Result<(), ChairStop>
    requires { MayTakeLine lock.now allowance.old chair.old }
    ensures { HearsNext lock.now (S.tells source.old) (S.tells source.new)
        allowance.old allowance.new chair.old chair.new result }
{
    match next_line(source, line, allowance) {
        Ok(()) => halted(chair.hear(rt, lock, line.as_slice())),
        Err(pause) => Err(chair.stop(rt, lock, pause, line.as_slice())),
    }
}

/// Takes lines and makes their calls until the source gives no line more, or a call is given back. No memory is taken.
pub fn run_chair<S: Source>(
    rt: &impl Wait,
    lock: &Shared<Hall>,
    source: &mut S,
    chair: &mut Chair,
) -> ChairStop
    requires { ChairBegins lock.now chair.old }
    ensures { RanChair lock.now (S.tells source.old) (S.tells source.new)
        chair.old chair.new result }
{
    let mut line = ArrayVec::new();
    let mut allowance = Allowance::new(MOST_TAKEN);
    loop {
        if let Err(stop) = take_line(rt, lock, source, &mut line, &mut allowance, chair) {
            return stop;
        }
    }
}
