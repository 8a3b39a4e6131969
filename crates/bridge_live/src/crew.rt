//! The workers of a live conference are lined up: all memory is taken, and then each has its seat and what it works on.
ghost use Rattle.bridge_live.specs.Lining.{IsReserved, Reserves, IsKit, HasKits, HasLists, LaneUp, ChairUp, MayMixWith, MixUp, MayLine, LinesLanes, IsLinedUp, new_seat, seat_behind};
ghost use Rattle.hall_core.specs.Hall.{HallView, lanes_of};
ghost use Rattle.hall_lock.specs.Seats.{Lock};
ghost use Rattle.std.specs.Prelude.{◌≡◌, ℕ, ◌+◌, ◌^◌, ◌<◌, ◌≤◌, length, IfOk, vec_capacity};

use crate::chair::{Chair, ChairCounts};
use crate::ends::{ChairStop, LaneEnd, LaneStop, MixStop};
use crate::lane::{Counts, Lane, MOST_TAKEN};
use crate::mixer::{MixCounts, Mixer};
use crate::qcif::QcifBox;
use crate::worker::{ChairWorker, LaneWorker, MixWorker, Worker};
use crate::writer::PictureWriter;
use cif_pack::Settings;
use h261_pic::Hand;
use hall_core::Hall;
use hall_lock::{Seat, Shared};
use pel_bits::NoMemory;
use pel_model::Format;
use rtp_h261::UnitReader;
use std::alloc::Global;
use std::collections::VecDeque;

/// The workers that are not of lanes: those of the chair and of the mixer.
pub(crate) const OTHERS: usize = 2;

/// What a lane needs beside its source and its seat.
#[derive(Drop)]
pub(crate) struct Kit {
    pub reader: UnitReader,
    pub item: QcifBox,
}

/// All that a conference takes memory for. The lists are empty, with room for the workers and for the ends of the lanes.
pub(crate) struct Reserved<S, C, K> {
    pub lock: Shared<Hall>,
    pub seat: Seat<Hall>,
    pub kits: Vec<Kit>,
    pub writer: PictureWriter,
    pub hand: Hand,
    pub lists: Lists<S, C, K>,
}

/// The list of the workers, and that of the ends of the lanes.
pub(crate) struct Lists<S, C, K> {
    pub workers: Vec<Worker<S, C, K>>,
    pub ends: Vec<LaneEnd<S>>,
}

/// A conference that can begin: its hall under a lock, the seat that is left for the end, and the workers.
pub(crate) struct Crew<S, C, K> {
    pub lock: Shared<Hall>,
    pub seat: Seat<Hall>,
    pub lists: Lists<S, C, K>,
}

impl Kit {
    /// A kit for a new lane.
    fn reserve(alloc: Global) -> Result<Kit, NoMemory>
        ensures { IfOk result IsKit }
    {
        Ok(Kit {
            reader: UnitReader::reserve(alloc, Format::Qcif, MOST_TAKEN)?,
            item: QcifBox::reserve(alloc)?,
        })
    }
}

/// A kit for each lane.
fn reserve_kits(alloc: Global, lanes: u8) -> Result<Vec<Kit>, NoMemory>
    ensures { IfOk result (λ kits. HasKits lanes kits.items) }
{
    let mut kits = Vec::new(alloc);
    for _ in 0..lanes {
        let Ok(()) = kits.push(Kit::reserve(alloc)?) else {
            return Err(NoMemory);
        };
    }
    Ok(kits)
}

impl<S, C, K> Lists<S, C, K> {
    /// Empty lists for a conference of so many lanes.
    fn reserve(alloc: Global, lanes: u8) -> Result<Lists<S, C, K>, NoMemory>
        ensures { IfOk result (HasLists lanes) }
    {
        let lanes = usize::from(lanes);
        match Vec::with_capacity(alloc, lanes + OTHERS) {
            Err(_failed) => Err(NoMemory),
            Ok(workers) => match Vec::with_capacity(alloc, lanes) {
                Ok(ends) => Ok(Lists { workers, ends }),
                Err(_failed) => {
                    workers.destroy_empty();
                    Err(NoMemory)
                }
            },
        }
    }
}

/// Takes all memory of a conference of so many lanes, 1 to 16, which may make so many turns, 1 to 2^45.
pub(crate) fn reserve<S, C, K>(
    alloc: Global,
    lanes: u8,
    settings: Settings,
    turns: u64,
) -> Result<Reserved<S, C, K>, NoMemory>
    requires lanes { (1 ≤ lanes) × (lanes ≤ 16) }
    requires mtu { (1000 ≤ settings.mtu) × (settings.mtu ≤ 9000) }
    requires turns { (1 ≤ turns) × (turns ≤ 2 ^ 45) }
    ensures reserves { IfOk result (Reserves settings turns lanes) }
    ensures seq { IfOk result (λ reserved. reserved.writer.settings.seq < 2 ^ 16) }
{
    let hall = Hall::reserve(alloc, lanes, turns)?;
    let (lock, seat) = Shared::reserve(alloc, hall, turns)?;
    let kits = reserve_kits(alloc, lanes)?;
    let writer = PictureWriter::reserve(alloc, settings)?;
    let hand = Hand::reserve(alloc)?;
    let lists = Lists::reserve(alloc, lanes)?;
    Ok(Reserved {
        lock,
        seat,
        kits,
        writer,
        hand,
        lists,
    })
}

/// A seat for one worker more.
fn next_seat(lock: &Shared<Hall>, seat: &mut Seat<Hall>) -> Seat<Hall>
    requires { (n : ℕ) × (n < 2 ^ 31) × (seat.old ≡ seat_behind lock.now n) }
    ensures new { result ≡ new_seat lock.now }
    ensures left { (n : ℕ) → seat.old ≡ seat_behind lock.now n → seat.new ≡ seat_behind lock.now (n + 1) }
{
    lock.split(seat, 1)
}

/// The worker of a lane, with a new seat.
fn lane_worker<S>(seat: Seat<Hall>, kit: Kit, number: u8, source: S) -> LaneWorker<S>
    requires { IsKit kit }
    ensures { (lock : Lock HallView) → seat ≡ new_seat lock → number < lanes_of lock.opening →
        LaneUp lock number source result }
{
    LaneWorker {
        source,
        reader: kit.reader,
        lane: Lane {
            number,
            seat,
            counts: Counts { posts: 0, gaps: 0 },
        },
        item: Some(kit.item),
        stop: LaneStop::Whole,
    }
}

/// The worker of the chair, with a new seat.
fn chair_worker<S>(seat: Seat<Hall>, source: S) -> ChairWorker<S>
    ensures { (lock : Lock HallView) → seat ≡ new_seat lock → ChairUp lock source result }
{
    ChairWorker {
        source,
        chair: Chair {
            seat,
            counts: ChairCounts {
                commands: 0,
                refused: 0,
                bad: 0,
            },
        },
        stop: ChairStop::Whole,
    }
}

/// The worker of the mixer, with a new seat.
fn mix_worker<C, K>(
    seat: Seat<Hall>,
    writer: PictureWriter,
    hand: Hand,
    ticker: C,
    sink: K,
) -> MixWorker<C, K>
    ensures { (lock : Lock HallView) → MayMixWith lock seat writer hand →
        MixUp lock writer.settings ticker sink result }
{
    MixWorker {
        ticker,
        sink,
        mixer: Mixer {
            seat,
            writer,
            counts: MixCounts {
                ticks: 0,
                taken: 0,
                packets: 0,
                octets: 0,
            },
        },
        hand: Some(hand),
        stop: MixStop::Whole,
    }
}

/// Lines up a worker for each lane, in their order.
fn line_lanes<S, C, K>(
    lock: &Shared<Hall>,
    seat: &mut Seat<Hall>,
    kits: Vec<Kit>,
    lanes: Vec<S>,
    workers: &mut Vec<Worker<S, C, K>>,
)
    requires { MayLine lock.now seat.old kits.items lanes.items workers.old.items (vec_capacity workers.old) }
    ensures lines { LinesLanes lock.now seat.new lanes.items workers.new.items }
    ensures room { vec_capacity workers.new ≡ vec_capacity workers.old }
{
    let mut lanes = VecDeque::from_vec(lanes);
    for kit in kits {
        let Some(source) = lanes.pop_front() else {
            unreachable!();
        };
        let number = workers.len() as u8;
        let worker = lane_worker(next_seat(lock, seat), kit, number, source);
        workers.push_reserved(Worker::Lane(worker));
    }
    lanes.destroy_empty();
}

/// Lines up the workers: the lanes in their order, then the chair, then the mixer.
pub(crate) fn line_up<S, C, K>(
    reserved: Reserved<S, C, K>,
    lanes: Vec<S>,
    chair: S,
    ticker: C,
    sink: K,
) -> Crew<S, C, K>
    requires reserved { IsReserved (length lanes.items) reserved }
    requires seq { reserved.writer.settings.seq < 2 ^ 16 }
    ensures turns { result.lock.turns ≡ reserved.lock.turns }
    ensures lined_up { IsLinedUp reserved.writer.settings lanes.items chair ticker sink result }
{
    let Reserved {
        lock,
        mut seat,
        kits,
        writer,
        hand,
        mut lists,
    } = reserved;
    line_lanes(&lock, &mut seat, kits, lanes, &mut lists.workers);
    let chair = chair_worker(next_seat(&lock, &mut seat), chair);
    lists.workers.push_reserved(Worker::Chair(chair));
    let mixer = mix_worker(next_seat(&lock, &mut seat), writer, hand, ticker, sink);
    lists.workers.push_reserved(Worker::Mixer(mixer));
    Crew { lock, seat, lists }
}
