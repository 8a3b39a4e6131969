//! The job `replay`: from a conference file to the packets of its ticks.
ghost use Rattle.std.specs.Prelude.{◌≡◌, ℕ, ◌≤◌, ◌^◌, is_some, true};
ghost use Rattle.bridge_replay.specs.ReadsFile.{replay_stop, IsReplaying, ReplaysOn, StepsOn};
ghost use Rattle.bridge_replay.specs.Replays.{ReplayEnds, DoneOnWholeFile, IsReadBack, Replays};
ghost use Rattle.cif_pack.specs.declared.packer.Settings.{Settings as Set};
ghost use Rattle.cif_pack.specs.Tallies.{nothing_counted};
ghost use Rattle.io_edge.specs.Outside.{Outside, outside};

use crate::conference::Conference;
use crate::ends::{ReplayEnd, ReplayStop};
use crate::laws::packets_are_read_back;
use crate::spare::Spare;
use cif_pack::{Settings, Tally};
use conf_file::{EntryEnd, EntryReader, files_are_read, fronts_decide, one_reading};
use io_edge::{Failed, Sink, Source};
use std::alloc::Global;

/// Reads a conference file from `source`, up to its end entry and no further, and writes the framed packets of every tick to
/// `sink`. The mtu is 1,000 to 9,000, and the budget, the most octets that are taken, 2^40 at most. All memory is taken
/// before the first entry is read; NoMemory where there is not enough.
pub fn replay<S: Source, K: Sink>(
    alloc: Global,
    source: &mut S,
    sink: &mut K,
    set: Settings,
    budget: u64,
) -> ReplayEnd
    requires mtu { (1000 ≤ set.mtu) × (set.mtu ≤ 9000) }
    requires budget { budget ≤ 2 ^ 40 }
    ensures ends { ReplayEnds set budget (outside (S.tells source.old) (K.tells sink.old))
        (outside (S.tells source.new) (K.tells sink.new)) result }
    ensures complete { DoneOnWholeFile budget (outside (S.tells source.old) (K.tells sink.old))
        (outside (S.tells source.new) (K.tells sink.new)) result }
    ensures read_back { IsReadBack set }
{
    // what is said of valid files rests on these laws, and on the third what is said of reading back
    one_reading();
    fronts_decide();
    packets_are_read_back();
    run(alloc, source, sink, set, budget)
}

/// The same, of which alone is told how it ends.
fn run<S: Source, K: Sink>(
    alloc: Global,
    source: &mut S,
    sink: &mut K,
    set: Settings,
    budget: u64,
) -> ReplayEnd
    requires mtu { (1000 ≤ set.mtu) × (set.mtu ≤ 9000) }
    requires budget { budget ≤ 2 ^ 40 }
    ensures { ReplayEnds set budget (outside (S.tells source.old) (K.tells sink.old))
        (outside (S.tells source.new) (K.tells sink.new)) result }
{
    let Ok(mut reader) = EntryReader::reserve(alloc, budget) else {
        return stopped_early(ReplayStop::NoMemory);
    };
    let lanes = match reader.start(source) {
        Ok(lanes) => lanes,
        Err(end) => return stopped_early(replay_stop(end)),
    };
    let Ok(mut conference) = Conference::reserve(alloc, lanes, set) else {
        return stopped_early(ReplayStop::NoMemory);
    };
    let Ok(spare) = Spare::reserve(alloc) else {
        return stopped_early(ReplayStop::NoMemory);
    };
    let stop = read_on(&mut conference, &mut reader, spare, source, sink);
    ReplayEnd {
        stop,
        tally: conference.tally,
    }
}

/// A replay that stopped before the first entry.
fn stopped_early(stop: ReplayStop) -> ReplayEnd
    ensures { result ≡ record { stop = stop; tally = nothing_counted } }
{
    ReplayEnd {
        stop,
        tally: Tally::default(),
    }
}

/// Why a replay stops where its reader ended so.
pub fn replay_stop(end: EntryEnd) -> ReplayStop
    ensures { result ≡ replay_stop end }
{
    match end {
        EntryEnd::Bad { place, why } => ReplayStop::BadRecord { place, why },
        EntryEnd::Cut { place } => ReplayStop::Cut { place },
        EntryEnd::Fault => ReplayStop::ReadFault,
        EntryEnd::Limit => ReplayStop::Limit,
    }
}

/// Takes the next entry into the conference. Gives a box for the next picture, or why no further entry is taken.
fn step<S: Source, K: Sink>(
    conference: &mut Conference,
    reader: &mut EntryReader,
    spare: Spare,
    source: &mut S,
    sink: &mut K,
) -> Result<Spare, ReplayStop>
    requires reading { is_some reader.old.lanes ≡ true }
    requires stands { IsReplaying (outside (S.tells source.old) (K.tells sink.old))
        reader.old conference.old }
    ensures { StepsOn (outside (S.tells source.old) (K.tells sink.old))
        (outside (S.tells source.new) (K.tells sink.new))
        reader.old reader.new conference.old conference.new result }
{
    // what the reader gives is what its source says as a file
    files_are_read();
    let entry = match reader.next(source) {
        Ok(entry) => entry,
        Err(end) => return Err(replay_stop(end)),
    };
    match conference.enter(entry, spare, sink) {
        Ok(given) => Ok(given),
        Err(Failed) => Err(ReplayStop::WriteFault),
    }
}

/// Takes one entry after another into the conference, and tells why it stopped.
fn read_on<S: Source, K: Sink>(
    conference: &mut Conference,
    reader: &mut EntryReader,
    spare: Spare,
    source: &mut S,
    sink: &mut K,
) -> ReplayStop
    requires { IsReplaying (outside (S.tells source.old) (K.tells sink.old))
        reader.old conference.old }
    ensures { (set : Set) (budget : ℕ) (before : Outside) → ReplaysOn set budget before
        (outside (S.tells source.old) (K.tells sink.old)) reader.old conference.old
        → Replays set budget before (outside (S.tells source.new) (K.tells sink.new))
        (record { stop = result; tally = conference.new.tally }) }
{
    let mut spare = spare;
    while reader.is_reading() {
        match step(conference, reader, spare, source, sink) {
            Ok(given) => spare = given,
            Err(stop) => return stop,
        }
    }
    ReplayStop::Done
}
