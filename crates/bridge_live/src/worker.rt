//! The workers of a live conference in one list, and their work in a thread each.
ghost use Rattle.bridge_live.specs.Crew.{IsReadyToWork, Worked, EachWorked, LaneIsReady, LaneDid, ChairIsReady, ChairDid, MixIsReady, MixDid};
ghost use Rattle.std.specs.Prelude.{◌<◌, All, length};

use crate::chair::{Chair, run_chair};
use crate::ends::{ChairStop, LaneStop, MixStop};
use crate::lane::{Lane, run_lane};
use crate::mixer::{Mixer, run_mixer};
use crate::qcif::QcifBox;
use h261_pic::Hand;
use hall_core::Hall;
use hall_lock::Shared;
use io_edge::{Sink, Source, Ticker};
use rtp_h261::UnitReader;
use std::sync::Wait;
use std::thread;
use std::thread::Threads;

/// The worker of a lane, with what it works on. Before its work it has a picture to begin with.
pub(crate) struct LaneWorker<S> {
    pub source: S,
    pub reader: UnitReader,
    pub lane: Lane,
    pub item: Option<QcifBox>,
    pub stop: LaneStop,
}

/// The worker of the chair, with what it works on.
pub(crate) struct ChairWorker<S> {
    pub source: S,
    pub chair: Chair,
    pub stop: ChairStop,
}

/// The worker of the mixer, with what it works on. Before its work it has a hand for the pictures that ticks take.
pub(crate) struct MixWorker<C, K> {
    pub ticker: C,
    pub sink: K,
    pub mixer: Mixer,
    pub hand: Option<Hand>,
    pub stop: MixStop,
}

/// A worker of a conference.
pub(crate) enum Worker<S, C, K> {
    Lane(LaneWorker<S>),
    Chair(ChairWorker<S>),
    Mixer(MixWorker<C, K>),
}

impl<S: Source> LaneWorker<S> {
    /// Takes packets and posts what they give, to the stop.
    fn work(&mut self, rt: &impl Wait, lock: &Shared<Hall>)
        requires { LaneIsReady lock.now self.old }
        ensures { LaneDid S.tells lock.now self.old.lane.number
            (S.tells self.old.source) self.old.lane.seat self.new }
    {
        let Some(item) = self.item.take() else {
            unreachable!();
        };
        self.stop = run_lane(
            rt,
            lock,
            &mut self.source,
            &mut self.reader,
            &mut self.lane,
            item,
        );
    }
}

impl<S: Source> ChairWorker<S> {
    /// Takes lines and orders what they say, to the stop.
    fn work(&mut self, rt: &impl Wait, lock: &Shared<Hall>)
        requires { ChairIsReady lock.now self.old }
        ensures { ChairDid S.tells lock.now
            (S.tells self.old.source) self.old.chair.seat self.new }
    {
        self.stop = run_chair(rt, lock, &mut self.source, &mut self.chair);
    }
}

impl<C: Ticker, K: Sink> MixWorker<C, K> {
    /// Takes steps and writes the pictures of ticks, to the stop.
    fn work(&mut self, rt: &impl Wait, lock: &Shared<Hall>)
        requires { MixIsReady lock.now self.old }
        ensures { MixDid C.tells K.tells lock.now
            self.old.mixer.writer.settings (C.tells self.old.ticker)
            (K.tells self.old.sink) self.old.mixer.seat self.new }
    {
        let Some(hand) = self.hand.take() else {
            unreachable!();
        };
        self.stop = run_mixer(
            rt,
            lock,
            &mut self.ticker,
            &mut self.sink,
            &mut self.mixer,
            hand,
        );
    }
}

impl<S: Source, C: Ticker, K: Sink> Worker<S, C, K> {
    /// Works to its stop.
    fn work(&mut self, rt: &impl Wait, lock: &Shared<Hall>)
        requires { IsReadyToWork lock.now self.old }
        ensures { Worked S.tells C.tells
            K.tells lock.now self.old self.new }
    {
        match self {
            Worker::Lane(worker) => worker.work(rt, lock),
            Worker::Chair(worker) => worker.work(rt, lock),
            Worker::Mixer(worker) => worker.work(rt, lock),
        }
    }
}

/// All workers work to their stops, each in a thread of its own where one can be made. No memory is taken.
pub(crate) fn work_all<
    R: Threads + Wait + Sync,
    S: Source + Send,
    C: Ticker + Send,
    K: Sink + Send,
>(rt: &R, lock: &Shared<Hall>, workers: &mut Vec<Worker<S, C, K>>)
    requires some { 0 < length workers.old.items }
    requires ready { All (IsReadyToWork lock.now) workers.old.items }
    ensures { EachWorked S.tells C.tells K.tells lock.now workers.old.items workers.new.items }
{
    let threads = workers.len();
    thread::for_each_mut(
        rt,
        workers.as_mut_slice(),
        threads,
        &|_, worker| { worker.work(rt, lock) },
    );
}
