//! The job `history`: from a conference file to the lines of its history.
ghost use Rattle.std.specs.Prelude.{◌≡◌, ℕ, ◌≤◌, ◌^◌, is_some, true, []};
ghost use Rattle.bridge_replay.specs.ReadsFile.{replay_stop};
ghost use Rattle.bridge_replay.specs.Recounting.{IsTelling, TellsFurther, ToldSoFar};
ghost use Rattle.bridge_replay.specs.Replays.{DoneWhereWhole};
ghost use Rattle.bridge_replay.specs.Telling.{HistoryEnds, TellsHistory, counted_lines};
ghost use Rattle.io_edge.specs.Outside.{Outside, outside};

use crate::account::{Account, Page};
use crate::ends::ReplayStop;
use crate::job::replay_stop;
use crate::spare::Spare;
use conf_file::{EntryReader, files_are_read, fronts_decide, one_reading};
use io_edge::{Failed, Sink, Source, put_all};
use std::alloc::Global;

/// What was written of a history.
#[derive(Clone, Copy, Debug, PartialEq, Eq)]
pub struct LineTally {
    /// The lines of the entries of which all was written.
    pub lines: u64,
    /// Their octets.
    pub octets: u64,
}

/// How the telling of a history ended: why no further entry was told, as a replay tells it, and what was written.
#[derive(Clone, Copy, Debug, PartialEq, Eq)]
pub struct HistoryEnd {
    pub stop: ReplayStop,
    pub tally: LineTally,
}

/// Reads a conference file from `source`, up to its end entry and no further, and writes to `sink` a line for each step of
/// its history, and for each packet that does not count. The budget, the most octets that are taken, is 2^40 at most. All
/// memory is taken before the first entry is read; NoMemory where there is not enough.
pub fn history<S: Source, K: Sink>(
    alloc: Global,
    source: &mut S,
    sink: &mut K,
    budget: u64,
) -> HistoryEnd
    requires { budget ≤ 2 ^ 40 }
    ensures ends { HistoryEnds budget (outside (S.tells source.old) (K.tells sink.old))
        (outside (S.tells source.new) (K.tells sink.new)) result }
    ensures complete { DoneWhereWhole budget (outside (S.tells source.old) (K.tells sink.old))
        (outside (S.tells source.new) (K.tells sink.new)) result.stop }
{
    // what is said of valid files rests on these laws
    one_reading();
    fronts_decide();
    tell(alloc, source, sink, budget)
}

/// The same, of which alone is told how it ends.
fn tell<S: Source, K: Sink>(alloc: Global, source: &mut S, sink: &mut K, budget: u64) -> HistoryEnd
    requires { budget ≤ 2 ^ 40 }
    ensures { HistoryEnds budget (outside (S.tells source.old) (K.tells sink.old))
        (outside (S.tells source.new) (K.tells sink.new)) result }
{
    let Ok(mut reader) = EntryReader::reserve(alloc, budget) else {
        return nothing_told(ReplayStop::NoMemory);
    };
    let lanes = match reader.start(source) {
        Ok(lanes) => lanes,
        Err(end) => return nothing_told(replay_stop(end)),
    };
    let Ok(mut account) = Account::reserve(alloc, lanes) else {
        return nothing_told(ReplayStop::NoMemory);
    };
    let Ok(spare) = Spare::reserve(alloc) else {
        return nothing_told(ReplayStop::NoMemory);
    };
    tell_on(&mut account, &mut reader, spare, source, sink)
}

/// A history of which nothing was told.
fn nothing_told(stop: ReplayStop) -> HistoryEnd
    ensures { result ≡ record { stop = stop; tally = counted_lines [] } }
{
    HistoryEnd {
        stop,
        tally: no_lines(),
    }
}

/// No line was written.
fn no_lines() -> LineTally
    ensures { result ≡ counted_lines [] }
{
    LineTally {
        lines: 0,
        octets: 0,
    }
}

/// Takes the next entry into the account and writes its lines. Gives a box for the next picture, or why no further entry is
/// told.
fn tell_entry<S: Source, K: Sink>(
    account: &mut Account,
    reader: &mut EntryReader,
    spare: Spare,
    tally: &mut LineTally,
    source: &mut S,
    sink: &mut K,
) -> Result<Spare, ReplayStop>
    requires reading { is_some reader.old.lanes ≡ true }
    requires telling { IsTelling (outside (S.tells source.old) (K.tells sink.old))
        reader.old account.old tally.old }
    ensures { TellsFurther (outside (S.tells source.old) (K.tells sink.old))
        (outside (S.tells source.new) (K.tells sink.new))
        reader.old reader.new account.old account.new tally.old tally.new result }
{
    // what the reader gives is what its source says as a file
    files_are_read();
    let place = reader.taken();
    let entry = match reader.next(source) {
        Ok(entry) => entry,
        Err(end) => return Err(replay_stop(end)),
    };
    let mut page = Page::new();
    let given = account.enter(place, entry, spare, &mut page);
    let Ok(()) = put_all(sink, page.text.as_str().as_bytes()) else {
        return Err(ReplayStop::WriteFault);
    };
    tally.lines += page.lines;
    tally.octets += page.text.len() as u64;
    Ok(given)
}

/// Tells one entry after another, and how it ended.
fn tell_on<S: Source, K: Sink>(
    account: &mut Account,
    reader: &mut EntryReader,
    spare: Spare,
    source: &mut S,
    sink: &mut K,
) -> HistoryEnd
    requires { IsTelling (outside (S.tells source.old) (K.tells sink.old)) reader.old account.old (counted_lines []) }
    ensures { (budget : ℕ) (before : Outside) → ToldSoFar budget before
        (outside (S.tells source.old) (K.tells sink.old)) reader.old account.old (counted_lines [])
        → TellsHistory budget before (outside (S.tells source.new) (K.tells sink.new)) result }
{
    let mut spare = spare;
    let mut tally = no_lines();
    while reader.is_reading() {
        match tell_entry(account, reader, spare, &mut tally, source, sink) {
            Ok(given) => spare = given,
            Err(stop) => return HistoryEnd { stop, tally },
        }
    }
    HistoryEnd {
        stop: ReplayStop::Done,
        tally,
    }
}
