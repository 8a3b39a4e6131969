//! The worker of a lane: it takes packets from its source, and posts what they give.
ghost use Rattle.std.specs.Prelude.{◌≡◌, ◌≤◌, List, [], ◌∷◌, Some, length};
ghost use Rattle.hall_core.specs.Machine.{Holds};
ghost use Rattle.h261_pic.specs.Coded.{IsFinished};
ghost use Rattle.pel_model.specs.History.{Step, Post as Posted, Gap as Missed};
ghost use Rattle.pel_model.specs.Records.{Picture};
ghost use Rattle.pel_model.specs.Valid.{limit};
ghost use Rattle.bridge_live.specs.Posting.{MayPost, Posts, HasSpare, lost_steps, AreUnitSteps, AreSteps, stop_after, halted, ClosesLane, MayRead, TakesPacket, LaneBegins, RanLane};

use crate::calls::{Halt, call};
use crate::ends::LaneStop;
use crate::qcif::QcifBox;
use h261_pic::Coded;
use hall_core::{Hall, HallCall, HallReply};
use hall_lock::{Seat, Shared};
use io_edge::Source;
use rtp_h261::{Fed, Unit, UnitReader};
use rtp_wire::FrameEnd;
use std::sync::Wait;

/// The most octets that a lane or the chair takes.
pub(crate) const MOST_TAKEN: u64 = 0x4000_0000_0000_0000;

/// The steps that a lane made.
#[derive(Clone, Copy, Debug, Default, PartialEq, Eq)]
pub struct Counts {
    /// The pictures.
    pub posts: u64,
    /// The gaps: losses, units that were no pictures, and the end of a source that ended otherwise than between two frames.
    pub gaps: u64,
}

/// What a lane calls with: its number, its seat at the lock, and the counts of its calls.
#[derive(Drop)]
pub struct Lane {
    pub number: u8,
    pub seat: Seat<Hall>,
    pub counts: Counts,
}

impl Lane {
    /// Pictures of the lane were lost.
    fn gap(&mut self, rt: &impl Wait, lock: &Shared<Hall>) -> Result<(), Halt>
        requires { MayPost 1 lock.now self.old }
        ensures { Posts lock.now (Missed self.old.number ∷ []) self.old self.new result }
    {
        let lane = self.number;
        let _counted = call(rt, lock, &mut self.seat, HallCall::Gap { lane })?;
        self.counts.gaps += 1;
        Ok(())
    }

    /// A gap, where packets are missing before one.
    fn lose(&mut self, rt: &impl Wait, lock: &Shared<Hall>, lost: bool) -> Result<(), Halt>
        requires { MayPost 1 lock.now self.old }
        ensures { Posts lock.now (lost_steps self.old.number lost) self.old self.new result }
    {
        if lost { self.gap(rt, lock) } else { Ok(()) }
    }

    /// A picture of the lane comes. Gives a box for the next one.
    fn post(&mut self, rt: &impl Wait, lock: &Shared<Hall>, item: QcifBox) -> Result<QcifBox, Halt>
        requires ready { MayPost 1 lock.now self.old }
        requires holds { (picture : Picture) × Holds item.item.value picture × IsFinished item.item.value }
        ensures { (picture : Picture) → Holds item.item.value picture →
            Posts lock.now (Posted self.old.number picture ∷ []) self.old self.new result }
    {
        let lane = self.number;
        let QcifBox { item } = item;
        let reply = call(rt, lock, &mut self.seat, HallCall::Post { lane, item })?;
        self.counts.posts += 1;
        Ok(spare_in(reply))
    }

    /// A unit of the lane ended, whose picture, where it is one, stands in `item`. Gives a box for the next one.
    fn end_unit(
        &mut self,
        rt: &impl Wait,
        lock: &Shared<Hall>,
        unit: Unit,
        item: QcifBox,
    ) -> Result<QcifBox, Halt>
        requires ready { MayPost 1 lock.now self.old }
        requires gives { (more : List Step) × AreUnitSteps self.old.number (Some unit) item.item.value more }
        ensures { (more : List Step) → AreUnitSteps self.old.number (Some unit) item.item.value more →
            Posts lock.now more self.old self.new result }
    {
        match unit {
            Unit::Picture => self.post(rt, lock, item),
            Unit::Gap(_fault) => {
                self.gap(rt, lock)?;
                Ok(item)
            }
        }
    }

    /// What a unit gives, if one ended. Gives a box for the next one.
    fn take_unit(
        &mut self,
        rt: &impl Wait,
        lock: &Shared<Hall>,
        unit: Option<Unit>,
        item: QcifBox,
    ) -> Result<QcifBox, Halt>
        requires ready { MayPost 1 lock.now self.old }
        requires gives { (more : List Step) × AreUnitSteps self.old.number unit item.item.value more }
        ensures { (more : List Step) → AreUnitSteps self.old.number unit item.item.value more →
            Posts lock.now more self.old self.new result }
    {
        match unit {
            None => Ok(item),
            Some(unit) => self.end_unit(rt, lock, unit, item),
        }
    }

    /// The calls for what a packet gave: a gap where packets are missing before it, then the unit that ends with it.
    fn give(
        &mut self,
        rt: &impl Wait,
        lock: &Shared<Hall>,
        fed: Fed,
        item: QcifBox,
    ) -> Result<QcifBox, Halt>
        requires ready { MayPost 2 lock.now self.old }
        requires gives { (more : List Step) × AreSteps self.old.number fed item.item.value more }
        ensures { (more : List Step) → AreSteps self.old.number fed item.item.value more →
            Posts lock.now more self.old self.new result }
    {
        self.lose(rt, lock, fed.lost)?;
        self.take_unit(rt, lock, fed.unit, item)
    }

    /// The call for the end of the source: a gap, where it is not between two frames.
    fn close(&mut self, rt: &impl Wait, lock: &Shared<Hall>, end: FrameEnd) -> LaneStop
        requires { MayPost 1 lock.now self.old }
        ensures { ClosesLane lock.now end self.old self.new result }
    {
        match end {
            FrameEnd::End => LaneStop::Whole,
            FrameEnd::Cut { place: _ } => stop_after(LaneStop::Cut, self.gap(rt, lock)),
            FrameEnd::Fault => stop_after(LaneStop::Fault, self.gap(rt, lock)),
            FrameEnd::Limit => stop_after(LaneStop::Limit, self.gap(rt, lock)),
        }
    }
}

/// The box in the reply to a post.
fn spare_in(reply: HallReply) -> QcifBox
    requires { HasSpare reply }
{
    let HallReply::Spare(item) = reply else {
        unreachable!();
    };
    QcifBox { item }
}

/// The stop of a lane whose last gap was answered so.
fn stop_after(stop: LaneStop, last: Result<(), Halt>) -> LaneStop
    ensures { result ≡ stop_after stop last }
{
    match last {
        Ok(()) => stop,
        Err(Halt::Ended) => LaneStop::Ended,
        Err(Halt::Over) => LaneStop::Over,
    }
}

/// Takes one packet and makes its calls. Gives a box for the next one.
fn take_packet<S: Source>(
    rt: &impl Wait,
    lock: &Shared<Hall>,
    source: &mut S,
    reader: &mut UnitReader,
    lane: &mut Lane,
    item: QcifBox,
) -> Result<QcifBox, LaneStop>
    requires { MayRead lock.now (S.tells source.old) reader.old lane.old }
    ensures { TakesPacket lock.now (S.tells source.old) (S.tells source.new)
        reader.old reader.new lane.old lane.new result }
{
    let QcifBox { mut item } = item;
    match reader.next(source, &mut item) {
        Ok(fed) => {
            tell_length(&item);
            halted(lane.give(rt, lock, fed, QcifBox { item }))
        }
        Err(end) => Err(lane.close(rt, lock, end)),
    }
}

/// A call that was given back stops the lane.
fn halted(given: Result<QcifBox, Halt>) -> Result<QcifBox, LaneStop>
    ensures { result ≡ halted given }
{
    match given {
        Ok(spare) => Ok(spare),
        Err(Halt::Ended) => Err(LaneStop::Ended),
        Err(Halt::Over) => Err(LaneStop::Over),
    }
}

/// Tells that a picture's text is within the limit.
fn tell_length(picture: &Coded)
    ensures { length picture.now.bits ≤ limit picture.now.format }
{
    let _bits = picture.bits();
}

/// Takes packets and makes their calls until the source gives no packet more, or a call is given back. `item` is a box for
/// the first picture. No memory is taken, and packets are parsed outside of the lock.
pub fn run_lane<S: Source>(
    rt: &impl Wait,
    lock: &Shared<Hall>,
    source: &mut S,
    reader: &mut UnitReader,
    lane: &mut Lane,
    item: QcifBox,
) -> LaneStop
    requires { LaneBegins lock.now reader.old lane.old }
    ensures { RanLane lock.now (S.tells source.old) (S.tells source.new)
        lane.old lane.new result }
{
    let mut item = item;
    loop {
        match take_packet(rt, lock, source, reader, lane, item) {
            Ok(spare) => item = spare,
            Err(stop) => return stop,
        }
    }
}
