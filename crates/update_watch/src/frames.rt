//! A watch over a stream of packets: a line for each picture at which macroblocks are overdue.
ghost use Rattle.std.specs.Prelude.{◌≡◌, ◌^◌, ◌≤◌, [], ◌∷◌, IfOk, refl};
ghost use Rattle.io_edge.specs.Causes.{HasCause};
ghost use Rattle.io_edge.specs.Outside.{outside};
ghost use Rattle.rtp_h261.specs.Tellers.{PutsHere};
ghost use Rattle.update_watch.specs.WatchEnds.{WatchesFrames};

use crate::counts::Counts;
use crate::line::{Line, overdue_line};
use h261_pic::Coded;
use io_edge::{Failed, Sink, Source};
use pel_model::{Fault, Format};
use rtp_h261::{Teller, UnitEnd, nothing_read, put_piece, read_units};
use std::alloc::Global;
use std::marker::Model;

/// How a watch over a stream ended: why the reading stopped, what was read and written until then, and the lines of overdue
/// macroblocks that were written whole.
#[derive(Clone, Copy, Debug, PartialEq, Eq)]
pub struct WatchEnd {
    pub end: UnitEnd,
    pub overdue: u64,
}

/// Reads framed packets from `source`, `budget` octets of them at most (2^40 or less), and writes to `sink` a line for each
/// picture of `format` at which macroblocks are overdue for forced updating, as they come. It takes all its memory before it
/// reads.
pub fn watch_frames<S: Source, K: Sink>(
    alloc: Global,
    format: Format,
    source: &mut S,
    sink: &mut K,
    budget: u64,
) -> WatchEnd
    requires { budget ≤ 2 ^ 40 }
    ensures { WatchesFrames format budget (outside (S.tells source.old) (K.tells sink.old))
        (outside (S.tells source.new) (K.tells sink.new)) result }
{
    let Ok(counts) = Counts::reserve(alloc, format) else {
        return WatchEnd {
            end: nothing_read(),
            overdue: 0,
        };
    };
    let mut watcher = Watcher { counts, lines: 0 };
    let end = read_units(alloc, format, &mut watcher, source, sink, budget);
    // there are no more lines than pictures, whose number fits 64 bits: so does theirs
    let _ = pictures_of(&end);
    WatchEnd {
        end,
        overdue: watcher.lines,
    }
}

/// How many pictures were read.
fn pictures_of(end: &UnitEnd) -> u64
    ensures { result ≡ end.now.tally.pictures }
{
    end.tally.pictures
}

/// Writes a line of each picture at which macroblocks are overdue.
#[derive(Drop)]
struct Watcher {
    counts: Counts,
    lines: u64,
}

impl Teller for Watcher {
    ghost use Rattle.update_watch.specs.Counting.{watch_duty};

    ghost duty = { λ w. watch_duty w.counts w.lines };

    fn loss<K: Sink>(&mut self, _number: u64, _sink: &mut K) -> Result<u64, Failed> {
        self.counts.clear();
        Ok(0)
    }

    fn picture<K: Sink>(
        &mut self,
        number: u64,
        picture: &Coded,
        sink: &mut K,
    ) -> Result<u64, Failed> {
        let Some(overdue) = self.counts.count(picture) else {
            return Ok(0);
        };
        let octets = put_line(&overdue_line(number, &overdue), sink)?;
        self.lines = self.lines.saturating_add(1);
        Ok(octets)
    }

    fn gap<K: Sink>(&mut self, _number: u64, _fault: Fault, _sink: &mut K) -> Result<u64, Failed> {
        self.counts.clear();
        Ok(0)
    }

    ghost nothing_more = { λ w number. refl };
}

/// Writes a line.
fn put_line<K: Sink>(line: &Line, sink: &mut K) -> Result<u64, Failed>
    ensures put { PutsHere (line.now.bytes ∷ []) (K.tells sink.old).written (K.tells sink.new).written result }
    ensures short { IfOk result (λ octets. octets ≤ 160) }
    ensures cause { HasCause (K.tells sink.old).faults (K.tells sink.new).faults result }
{
    put_piece(line.as_str().as_bytes(), sink)
}
