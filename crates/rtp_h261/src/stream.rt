//! A stream of framed packets, read to its end: each loss, each picture and each unit that is no picture is told to a
//! teller before the next packet is read.
ghost use Rattle.std.specs.Prelude.{◌≡◌, ◌+◌, ◌^◌, ◌<◌, ◌≤◌, ℕ, List, []};
ghost use Rattle.h261_pic.specs.Coded.{Coding};
ghost use Rattle.io_edge.specs.Outside.{outside};
ghost use Rattle.rtp_h261.specs.Events.{Event, lost_events};
ghost use Rattle.rtp_h261.specs.ReadSoFar.{IsEventIn, IsEventOf, Told};
ghost use Rattle.rtp_h261.specs.Tellers.{TellsEvent};
ghost use Rattle.rtp_h261.specs.TellerEnds.{TellsUnits};
ghost use Rattle.rtp_h261.specs.ToldSoFar.{CanTell, CountsEvents, LeavesEvents, LeavesUnit, TellsOn, TellsPacket, TellsRead, stop_for};
ghost use Rattle.rtp_h261.specs.UnitEnds.{no_units};
ghost use Rattle.rtp_h261.specs.UnitReader.{reading_after};

use crate::depack::{Fed, Unit};
use crate::teller::Teller;
use crate::unit_end::{UnitEnd, UnitStop, UnitTally};
use crate::unit_reader::UnitReader;
use h261_pic::Coded;
use io_edge::{Failed, Sink, Source};
use pel_bits::NoMemory;
use pel_model::Format;
use rtp_wire::{FrameEnd, one_stream};
use std::alloc::Global;

/// Reads framed packets from `source`, `budget` octets of them at most (2^40 or less), and tells `teller` of each picture,
/// each loss and each unit that is no picture, as they come, numbered from 1. It takes all its memory before it reads.
pub fn read_units<T: Teller, S: Source, K: Sink>(
    alloc: Global,
    format: Format,
    teller: &mut T,
    source: &mut S,
    sink: &mut K,
    budget: u64,
) -> UnitEnd
    requires budget { budget ≤ 2 ^ 40 }
    requires format { (T.duty teller.old).format ≡ format }
    ensures { TellsUnits format budget (T.duty teller.old) (T.duty teller.new)
        (outside (S.tells source.old) (K.tells sink.old)) (outside (S.tells source.new) (K.tells sink.new)) result }
{
    one_stream();
    let Ok(mut reader) = UnitReader::reserve(alloc, format, budget) else {
        return nothing_read();
    };
    let Ok(mut picture) = Coded::reserve(alloc, format) else {
        return nothing_read();
    };
    read_each(&mut reader, &mut picture, teller, source, sink)
}

/// How a reading ends for which there was no memory to begin.
pub fn nothing_read() -> UnitEnd
    ensures { result ≡ record { stop = UnitStop.NoMemory; tally = no_units } }
{
    UnitEnd {
        stop: UnitStop::NoMemory,
        tally: no_units(),
    }
}

// Nothing was counted yet.
fn no_units() -> UnitTally
    ensures { result ≡ no_units }
{
    UnitTally {
        pictures: 0,
        gaps: 0,
        octets: 0,
    }
}

// Reads and tells all packets, with the picture of the last unit in `into`.
fn read_each<T: Teller, S: Source, K: Sink>(
    reader: &mut UnitReader,
    into: &mut Coded,
    teller: &mut T,
    source: &mut S,
    sink: &mut K,
) -> UnitEnd
    requires reader { reader.old ≡ reading_after into.old.format reader.old.framer.allowance.budget [] }
    requires few { reader.old.framer.allowance.budget ≤ 2 ^ 40 }
    requires format { (T.duty teller.old).format ≡ into.old.format }
    ensures { TellsRead into.old.format reader.old.framer.allowance.budget (T.duty teller.old) (T.duty teller.new)
        (outside (S.tells source.old) (K.tells sink.old)) (outside (S.tells source.new) (K.tells sink.new)) result }
{
    let mut tally = no_units();
    loop {
        match reader.next(source, into) {
            Ok(fed) => {
                if let Err(Failed) = tell(&fed, into, teller, &mut tally, sink) {
                    return UnitEnd {
                        stop: UnitStop::WriteFault,
                        tally,
                    };
                }
            }
            Err(end) => {
                return UnitEnd {
                    stop: stop_for(end),
                    tally,
                };
            }
        }
    }
}

// Why the reading stopped, by how the framer ended.
fn stop_for(end: FrameEnd) -> UnitStop
    ensures { result ≡ stop_for end }
{
    match end {
        FrameEnd::End => UnitStop::Done,
        FrameEnd::Cut { place } => UnitStop::Cut { place },
        FrameEnd::Fault => UnitStop::ReadFault,
        FrameEnd::Limit => UnitStop::Limit,
    }
}

// Counts what a packet gave, and tells it: the loss comes before the unit.
fn tell<T: Teller, K: Sink>(
    fed: &Fed,
    coded: &Coded,
    teller: &mut T,
    tally: &mut UnitTally,
    sink: &mut K,
) -> Result<(), Failed>
    requires { CanTell fed.now coded.now (T.duty teller.old) tally.old }
    ensures { (events : List Event) → Told fed.now coded.now events →
        TellsPacket (T.duty teller.old) (T.duty teller.new) tally.old tally.new events
        (K.tells sink.old) (K.tells sink.new) result }
{
    let number = tally.pictures + tally.gaps + 1;
    count(fed, tally);
    let octets = &mut tally.octets;
    tell_loss(fed.lost, number, teller, octets, sink)?;
    let number = number + u64::from(fed.lost);
    tell_unit(fed.unit, coded, number, teller, octets, sink)
}

// Counts what a packet gave.
fn count(fed: &Fed, tally: &mut UnitTally)
    requires few { tally.old.pictures + tally.old.gaps < 2 ^ 60 }
    ensures counted { (coded : Coding) (events : List Event) → Told fed.now coded events →
        CountsEvents tally.old tally.new events }
    ensures few { tally.new.pictures + tally.new.gaps ≤ tally.old.pictures + tally.old.gaps + 2 }
    ensures octets { tally.new.octets ≡ tally.old.octets }
{
    if fed.lost {
        tally.gaps += 1;
    }
    match fed.unit {
        Some(Unit::Picture) => tally.pictures += 1,
        Some(Unit::Gap(_)) => tally.gaps += 1,
        None => {}
    }
}

// Tells a loss, if there is one.
fn tell_loss<T: Teller, K: Sink>(
    lost: bool,
    number: u64,
    teller: &mut T,
    octets: &mut u64,
    sink: &mut K,
) -> Result<(), Failed>
    requires short { octets.old < 2 ^ 61 }
    ensures { TellsOn (T.duty teller.old) (T.duty teller.new) number (lost_events lost)
        (K.tells sink.old) (K.tells sink.new) octets.old octets.new result }
{
    if lost {
        *octets += teller.loss(number, sink)?;
    }
    Ok(())
}

// Tells a unit, if one ended.
fn tell_unit<T: Teller, K: Sink>(
    unit: Option<Unit>,
    coded: &Coded,
    number: u64,
    teller: &mut T,
    octets: &mut u64,
    sink: &mut K,
) -> Result<(), Failed>
    requires leaves { LeavesEvents unit coded.now (T.duty teller.old) }
    requires short { octets.old < 2 ^ 61 }
    ensures { (events : List Event) → IsEventOf unit coded.now events →
        TellsOn (T.duty teller.old) (T.duty teller.new) number events
        (K.tells sink.old) (K.tells sink.new) octets.old octets.new result }
{
    if let Some(unit) = unit {
        *octets += tell_ended(unit, coded, number, teller, sink)?;
    }
    Ok(())
}

// Tells a unit, with the picture that it left.
fn tell_ended<T: Teller, K: Sink>(
    unit: Unit,
    coded: &Coded,
    number: u64,
    teller: &mut T,
    sink: &mut K,
) -> Result<u64, Failed>
    requires { LeavesUnit unit coded.now (T.duty teller.old) }
    ensures { (event : Event) → IsEventIn unit coded.now event →
        TellsEvent (T.duty teller.old) (T.duty teller.new) number event (K.tells sink.old) (K.tells sink.new) result }
{
    match unit {
        Unit::Picture => teller.picture(number, coded, sink),
        Unit::Gap(fault) => teller.gap(number, fault, sink),
    }
}
