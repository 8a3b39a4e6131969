//! A live conference from its beginning to its end.
ghost use Rattle.bridge_live.specs.Ending.{JoinsWorker, CrewDid, LanesJoined, MayEnd, MayJoin, EndsLane, EndsChair, together, GathersFrom};
ghost use Rattle.bridge_live.specs.Endings.{HandedIn};
ghost use Rattle.bridge_live.specs.Handed.{given_of, ending_of};
ghost use Rattle.bridge_live.specs.Serve.{Serves, IsServedWhole};
ghost use Rattle.hall_core.specs.Hall.{lanes_of};
ghost use Rattle.cif_pack.specs.declared.packer.Settings.{Settings as Packing};
ghost use Rattle.bridge_live.specs.declared.worker.Worker.{Worker};
ghost use Rattle.bridge_live.specs.declared.worker.Worker.TheVariants.{Lane as OfLane, Chair as OfChair, Mixer as OfMixer};
ghost use Rattle.hall_lock.specs.Seats.{IsOf};
ghost use Rattle.std.specs.Prelude.{◌≡◌, ◌^◌, ◌<◌, ◌≤◌, List, [], ◌∷◌, length, sum_by, vec_capacity, IfOk, IfErr};

use crate::chair::{Chair, ChairCounts};
use crate::crew::{Crew, Lists, OTHERS, line_up, reserve};
use crate::ends::{ChairEnd, LaneEnd, ServeEnd, Unserved};
use crate::lane::Lane;
use crate::laws::workers_make_the_conference;
use crate::mixer::{MixCounts, Mixer};
use crate::worker::{ChairWorker, LaneWorker, MixWorker, Worker, work_all};
use cif_pack::{Settings, Tally};
use hall_core::Hall;
use hall_lock::{Past, Seat, Shared, history_is_shared_out};
use io_edge::{Sink, Source, Ticker};
use std::alloc::Global;
use std::collections::VecDeque;
use std::sync::Wait;
use std::thread::Threads;

/// The first worker, which is a lane's.
fn pop_lane<S, C, K>(workers: &mut VecDeque<Worker<S, C, K>>) -> LaneWorker<S>
    requires { (worker : _) × (rest : List (Worker S C K)) × (workers.old.items ≡ OfLane worker ∷ rest) }
    ensures { workers.old.items ≡ OfLane result ∷ workers.new.items }
{
    let Some(worker) = workers.pop_front() else {
        unreachable!();
    };
    let Worker::Lane(worker) = worker else {
        unreachable!();
    };
    worker
}

/// The first worker, which is the chair's.
fn pop_chair<S, C, K>(workers: &mut VecDeque<Worker<S, C, K>>) -> ChairWorker<S>
    requires { (worker : _) × (rest : List (Worker S C K)) × (workers.old.items ≡ OfChair worker ∷ rest) }
    ensures { workers.old.items ≡ OfChair result ∷ workers.new.items }
{
    let Some(worker) = workers.pop_front() else {
        unreachable!();
    };
    let Worker::Chair(worker) = worker else {
        unreachable!();
    };
    worker
}

/// The last worker, which is the mixer's.
fn pop_mixer<S, C, K>(workers: VecDeque<Worker<S, C, K>>) -> MixWorker<C, K>
    requires { (worker : _) × (workers.items ≡ OfMixer worker ∷ []) }
    ensures { workers.items ≡ OfMixer result ∷ [] }
{
    let mut workers = workers;
    let Some(worker) = workers.pop_front() else {
        unreachable!();
    };
    workers.destroy_empty();
    let Worker::Mixer(worker) = worker else {
        unreachable!();
    };
    worker
}

/// Joins a worker's seat into the one that is to end the lock. Only contracts see what is left of it.
fn take_in(lock: &Shared<Hall>, seat: &mut Seat<Hall>, other: Seat<Hall>) -> Past<Hall>
    requires { IsOf lock.now seat.old × IsOf lock.now other }
    ensures { JoinsWorker lock.now other result.seat.value seat.old seat.new }
{
    lock.join(seat, other)
}

/// The end of a lane, whose seat is joined.
fn join_lane<S>(lock: &Shared<Hall>, seat: &mut Seat<Hall>, worker: LaneWorker<S>) -> LaneEnd<S>
    requires { IsOf lock.now seat.old × IsOf lock.now worker.lane.seat }
    ensures { EndsLane lock.now worker result seat.old seat.new }
{
    let LaneWorker {
        source,
        reader: _,
        lane,
        item: _,
        stop,
    } = worker;
    let Lane {
        number: _,
        seat: other,
        counts,
    } = lane;
    let past = take_in(lock, seat, other);
    LaneEnd {
        source,
        stop,
        counts,
        past,
    }
}

/// The end of the chair, whose seat is joined.
fn join_chair<S>(lock: &Shared<Hall>, seat: &mut Seat<Hall>, worker: ChairWorker<S>) -> ChairEnd<S>
    requires { IsOf lock.now seat.old × IsOf lock.now worker.chair.seat }
    ensures { EndsChair lock.now worker result seat.old seat.new }
{
    let ChairWorker {
        source,
        chair,
        stop,
    } = worker;
    let Chair {
        seat: other,
        counts,
    } = chair;
    let past = take_in(lock, seat, other);
    ChairEnd {
        source,
        stop,
        counts,
        past,
    }
}

/// The ends of the lanes in their order, whose seats are joined one by one. The chair and the mixer are left.
fn join_lanes<S: Source, C: Ticker, K: Sink>(
    lock: &Shared<Hall>,
    seat: &mut Seat<Hall>,
    workers: &mut VecDeque<Worker<S, C, K>>,
    ends: &mut Vec<LaneEnd<S>>,
)
    requires { MayJoin S.tells C.tells K.tells lock.now seat.old workers.old.items ends.old.items
        (vec_capacity ends.old) }
    ensures { (set : Packing) (given : HandedIn) →
        CrewDid S.tells C.tells K.tells lock.now set given 0 given.lanes workers.old.items →
        LanesJoined S.tells C.tells K.tells lock.now set given seat.old seat.new [] ends.new.items workers.new.items }
{
    while workers.len() > OTHERS {
        let worker = pop_lane(workers);
        let end = join_lane(lock, seat, worker);
        ends.push_reserved(end);
    }
}

/// What the workers counted, together.
fn count_together<S>(lanes: &[LaneEnd<S>], chair: ChairCounts, mixer: MixCounts) -> Tally
    requires pictures { sum_by (λ lane. lane.counts.posts) lanes.now < 2 ^ 64 }
    requires gaps { sum_by (λ lane. lane.counts.gaps) lanes.now < 2 ^ 64 }
    ensures { result ≡ together lanes.now chair mixer }
{
    let mut pictures = 0;
    let mut gaps = 0;
    for lane in lanes {
        pictures += lane.counts.posts;
        gaps += lane.counts.gaps;
    }
    Tally {
        ticks: mixer.ticks,
        pictures,
        gaps,
        commands: chair.commands,
        refused: chair.refused,
        taken: mixer.taken,
        packets: mixer.packets,
        octets: mixer.octets,
    }
}

/// The end of a conference whose workers came to their stops. Their seats are joined, in the order of the workers, and the
/// lock is ended.
fn end_all<S: Source, C: Ticker, K: Sink>(crew: Crew<S, C, K>) -> ServeEnd<S, C, K>
    requires { MayEnd S.tells C.tells K.tells crew }
    ensures { (set : Packing) (given : HandedIn) → lanes_of crew.lock.opening ≡ length given.lanes →
        CrewDid S.tells C.tells K.tells crew.lock set given 0 given.lanes crew.lists.workers.items →
        GathersFrom set crew.lock given (ending_of S.tells C.tells K.tells result) result.tally }
{
    history_is_shared_out::<Hall>();
    let Crew {
        lock,
        mut seat,
        lists,
    } = crew;
    let Lists { workers, mut ends } = lists;
    let mut workers = VecDeque::from_vec(workers);
    join_lanes(&lock, &mut seat, &mut workers, &mut ends);
    let worker = pop_chair(&mut workers);
    let chair = join_chair(&lock, &mut seat, worker);
    let MixWorker {
        ticker,
        sink,
        mixer,
        hand: _,
        stop,
    } = pop_mixer(workers);
    let Mixer {
        seat: other,
        writer: _,
        counts,
    } = mixer;
    let mixer = take_in(&lock, &mut seat, other);
    let hall = lock.close(seat);
    let tally = count_together(ends.as_slice(), chair.counts, counts);
    ServeEnd {
        stop,
        ticker,
        sink,
        chair,
        lanes: ends,
        hall,
        mixer,
        tally,
    }
}

/// Serves a live conference of 1 to 16 lanes. Each lane posts the pictures of its source, which gives packets in frames; the
/// chair's source gives lines with its commands; for each step that the ticker gives, of 1 to 31 picture times, a picture
/// with what the places show then is written to the sink, as packets in frames. Each of them works in a thread of its own,
/// where one can be made, and waits for nothing but its own source, ticker or sink, and for its turn.
///
/// `set` has the mtu from 1,000 to 9,000 octets, and `turns`, 1 to 2^45, is how many steps the conference may make in all.
/// All memory is taken before any worker begins: where there is none, all that was handed in comes back in `Unserved` as it
/// was.
pub fn serve<S: Source + Send, C: Ticker + Send, K: Sink + Send>(
    rt: &(impl Threads + Wait + Sync),
    alloc: Global,
    lanes: Vec<S>,
    chair: S,
    ticker: C,
    sink: K,
    set: Settings,
    turns: u64,
) -> Result<ServeEnd<S, C, K>, Unserved<S, C, K>>
    requires lanes { (1 ≤ length lanes.items) × (length lanes.items ≤ 16) }
    requires mtu { (1000 ≤ set.mtu) × (set.mtu ≤ 9000) }
    requires turns { (1 ≤ turns) × (turns ≤ 2 ^ 45) }
    ensures serves { IfOk result (λ end. Serves set turns
        (given_of S.tells C.tells K.tells lanes.items chair ticker sink)
        (ending_of S.tells C.tells K.tells end) end.tally) }
    ensures complete { IfOk result (λ end. IsServedWhole turns
        (given_of S.tells C.tells K.tells lanes.items chair ticker sink)
        (ending_of S.tells C.tells K.tells end)) }
    ensures back { IfErr result (λ back. back ≡ record { lanes = lanes; chair = chair; ticker = ticker; sink = sink }) }
{
    workers_make_the_conference();
    match reserve(alloc, lanes.len() as u8, set, turns) {
        Ok(reserved) => {
            let mut crew = line_up(reserved, lanes, chair, ticker, sink);
            work_all(rt, &crew.lock, &mut crew.lists.workers);
            Ok(end_all(crew))
        }
        Err(_no_memory) => Err(Unserved {
            lanes,
            chair,
            ticker,
            sink,
        }),
    }
}
