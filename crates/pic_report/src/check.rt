//! The report of a stream of packets: a line for each event.
ghost use Rattle.std.specs.Prelude.{◌≡◌, ◌^◌, ◌≤◌, [], ◌∷◌, IfOk, refl};
ghost use Rattle.io_edge.specs.Causes.{HasCause};
ghost use Rattle.io_edge.specs.Outside.{outside};
ghost use Rattle.pic_report.specs.Report.{lines, report_duty};
ghost use Rattle.rtp_h261.specs.Tellers.{PutsHere};
ghost use Rattle.rtp_h261.specs.UnitEnds.{ReadsUnits};

use crate::lines::{Line, gap_line, lost_line, picture_line};
use h261_pic::Coded;
use io_edge::{Failed, Sink, Source};
use pel_model::{Fault, Format};
use rtp_h261::{Teller, UnitEnd, put_piece, read_units};
use std::alloc::Global;

/// Reads framed packets from `source`, `budget` octets of them at most (2^40 or less), and writes to `sink` a line for each
/// picture, each loss and each unit that is no picture, as they come. It takes all its memory before it reads.
pub fn check_frames<S: Source, K: Sink>(
    alloc: Global,
    format: Format,
    source: &mut S,
    sink: &mut K,
    budget: u64,
) -> UnitEnd
    requires { budget ≤ 2 ^ 40 }
    ensures { ReadsUnits format budget (lines format) (outside (S.tells source.old) (K.tells sink.old))
        (outside (S.tells source.new) (K.tells sink.new)) result }
{
    let mut reporter = Reporter { format };
    read_units(alloc, format, &mut reporter, source, sink, budget)
}

/// Writes a line of each event.
#[derive(Drop)]
struct Reporter {
    format: Format,
}

impl Teller for Reporter {
    ghost duty = { λ r. report_duty r.format };

    fn loss<K: Sink>(&mut self, number: u64, sink: &mut K) -> Result<u64, Failed> {
        put_line(&lost_line(number), sink)
    }

    fn picture<K: Sink>(
        &mut self,
        number: u64,
        picture: &Coded,
        sink: &mut K,
    ) -> Result<u64, Failed> {
        put_line(&picture_line(number, picture), sink)
    }

    fn gap<K: Sink>(&mut self, number: u64, fault: Fault, sink: &mut K) -> Result<u64, Failed> {
        put_line(&gap_line(number, &fault), sink)
    }

    ghost nothing_more = { λ r number. refl };
}

/// Writes a line.
fn put_line<K: Sink>(line: &Line, sink: &mut K) -> Result<u64, Failed>
    ensures put { PutsHere (line.now.bytes ∷ []) (K.tells sink.old).written (K.tells sink.new).written result }
    ensures short { IfOk result (λ octets. octets ≤ 160) }
    ensures cause { HasCause (K.tells sink.old).faults (K.tells sink.new).faults result }
{
    put_piece(line.as_str().as_bytes(), sink)
}
