//! The lines of small conferences, written down by hand.

ghost use Rattle.std.specs.Prelude.{◌≤◌, ◌<◌};

use crate::tests::File;
use crate::tests::Sample::{Grey, Small};
use crate::{HistoryEnd, LineTally, ReplayStop, history};
use conf_file::EntryWhy;
use io_edge::{MemSink, MemSource};
use std::alloc::{AllocError, Global};
use std::test::Fail;

/// A picture start code, as bits one to each octet: what follows it is missing.
const START: [u8; 20] = [0, 0, 0, 0, 0, 0, 0, 0, 0, 0, 0, 0, 0, 0, 0, 1, 0, 0, 0, 0];

/// The budget where no other is said.
const BUDGET: u64 = 0x100_0000;

// A conference of two lanes that has each kind of line.
fn each_kind(alloc: Global) -> Result<File, AllocError> {
    let mut file = File::new(alloc, 2)?;
    for line in [b"place 1 0".as_slice(), b"place 2 7", b"clear 3"] {
        file.order(line)?;
    }
    file.picture(0, 1, Grey)?;
    file.picture(0, 1, Small)?;
    file.picture(0, 0, Small)?;
    file.octets.extend_from_slice(b"P\x01\x00\x00")?;
    file.tick(3)?;
    file.picture(0, 3, Small)?;
    file.tick(1)?;
    file.part(0, 4, true, 0, &START)?;
    file.order(b"speaker 1")?;
    file.tick(31)?;
    for line in [
        b"  swap 001\t2".as_slice(),
        b"clear 2",
        b"pin 1",
        b"pin 2",
        b"pin 3",
        b"pin 4",
        b"speaker 0",
    ] {
        file.order(line)?;
    }
    file.end()?;
    Ok(file)
}

/// Its lines, each behind the place of its entry: a packet has 20 octets and its bits, 819 of a grey picture and 15 of a
/// small one.
const EACH_KIND: [&str; 22] = [
    "10 command place 1 0 Done\n",
    "21 command place 2 7 NoLane\n",
    "32 command clear 3 SamePlace\n",
    "41 picture lane 0 serial 1 refresh bits 6545 macroblocks 99\n",
    "880 packet lane 0 repeated\n",
    "915 packet lane 0 late\n",
    "950 packet lane 1 unusable\n",
    "954 tick step 3 total 3 taken 0:1 - - - waiting -\n",
    "956 gap lane 0 serial 2 lost\n",
    "956 picture lane 0 serial 3 change bits 120 macroblocks 1\n",
    "991 tick step 1 total 4 taken - - - - waiting 0\n",
    "993 gap lane 0 serial 4 Cut at 20\n",
    "1016 command speaker 1 Done\n",
    "1027 tick step 31 total 35 taken - - - - waiting 0 1\n",
    "1029 command swap 1 2 Done\n",
    "1043 command clear 2 Done\n",
    "1052 command pin 1 Done\n",
    "1059 command pin 2 Done\n",
    "1066 command pin 3 Done\n",
    "1073 command pin 4 Done\n",
    "1080 command speaker 0 AllPinned\n",
    "1091 end\n",
];

// How a history ended, and what was written.
#[derive(Drop)]
struct Outcome {
    end: HistoryEnd,
    text: Vec<u8>,
}

// Tells the history of octets, where source and sink fail at the calls with these numbers, and give and take so many octets in a
// call.
fn told(
    alloc: Global,
    octets: &[u8],
    budget: u64,
    fails: (u64, u64),
    piece: usize,
) -> Result<Outcome, Fail>
    requires budget { budget ≤ 16777216 }
    requires piece { 0 < piece }
{
    let mut copy = Vec::new(alloc);
    copy.extend_from_slice(octets)?;
    let mut source = MemSource::new(copy, vec![in alloc; fails.0]?, piece);
    let mut sink = MemSink::reserve(alloc, 4000, vec![in alloc; fails.1]?, piece)?;
    let end = history(alloc, &mut source, &mut sink, budget);
    let mut text = Vec::new(alloc);
    text.extend_from_slice(sink.bytes())?;
    Ok(Outcome { end, text })
}

// The octets of lines.
fn joined(alloc: Global, lines: &[&str]) -> Result<Vec<u8>, AllocError> {
    let mut octets = Vec::new(alloc);
    for line in lines {
        octets.extend_from_slice(line.as_bytes())?;
    }
    Ok(octets)
}

// An end at which these lines were written.
fn ended(alloc: Global, stop: ReplayStop, lines: &[&str]) -> Result<HistoryEnd, AllocError> {
    let octets = joined(alloc, lines)?.len() as u64;
    let lines = lines.len() as u64;
    Ok(HistoryEnd {
        stop,
        tally: LineTally { lines, octets },
    })
}

#[test]
fn each_kind_of_line(rt: HostRuntime) -> Result<(), Fail> {
    let alloc = rt.alloc();
    let file = each_kind(alloc)?;
    let got = told(alloc, &file.octets, BUDGET, (0, 0), 997)?;
    assert_eq!(rt; got.text, joined(alloc, &EACH_KIND)?);
    assert_eq!(rt; got.end, ended(alloc, ReplayStop::Done, &EACH_KIND)?);
    Ok(())
}

// The octets up to a place, and another one there: how that ends, and how many lines were written.
#[test]
fn ends_behind_whole_entries(rt: HostRuntime) -> Result<(), Fail> {
    let alloc = rt.alloc();
    let file = each_kind(alloc)?;
    let bad = |place, why| ReplayStop::BadRecord { place, why };
    let table = [
        (0, b"".as_slice(), 0, ReplayStop::Cut { place: 0 }),
        (10, b"", 0, ReplayStop::Cut { place: 10 }),
        (10, b"C", 0, ReplayStop::Cut { place: 11 }),
        (21, b"Z", 1, bad(21, EntryWhy::Kind)),
        (954, b"P\x02", 7, bad(954, EntryWhy::Lane)),
        (991, b"T\x20", 10, bad(991, EntryWhy::Step)),
        (1091, b"", 21, ReplayStop::Cut { place: 1091 }),
        (1091, b"EZ", 22, ReplayStop::Done),
    ];
    for (place, last, count, stop) in table {
        let mut octets = Vec::new(alloc);
        octets.extend_from_slice(&file.octets[..place.min(file.octets.len())])?;
        octets.extend_from_slice(last)?;
        let got = told(alloc, &octets, BUDGET, (0, 0), 997)?;
        let lines = &EACH_KIND[..count.min(22)];
        assert_eq!(rt; got.end, ended(alloc, stop, lines)?);
        assert_eq!(rt; got.text, joined(alloc, lines)?);
    }
    Ok(())
}

#[test]
fn budget_up_to_the_end(rt: HostRuntime) -> Result<(), Fail> {
    let alloc = rt.alloc();
    let file = each_kind(alloc)?;
    let table = [
        (9, 0, ReplayStop::Limit),
        (21, 1, ReplayStop::Limit),
        (1091, 21, ReplayStop::Limit),
        (1092, 22, ReplayStop::Done),
    ];
    for (budget, count, stop) in table {
        let got = told(alloc, &file.octets, budget, (0, 0), 997)?;
        let lines = &EACH_KIND[..count.min(22)];
        assert_eq!(rt; got.end, ended(alloc, stop, lines)?);
        assert_eq!(rt; got.text, joined(alloc, lines)?);
    }
    Ok(())
}

// Writes of at most 30 octets: the lines of 26, 28 and 29 octets take one each, and that of a picture, of 60, two. A packet
// that is a gap and a picture has its two lines, of 29 and 58 octets, written as one, in three.
#[test]
fn some_writes_fail(rt: HostRuntime) -> Result<(), Fail> {
    let alloc = rt.alloc();
    let file = each_kind(alloc)?;
    let table = [
        (1, 0, 0),
        (2, 1, 0),
        (4, 3, 0),
        (5, 3, 30),
        (6, 4, 0),
        (11, 8, 0),
        (12, 8, 30),
        (13, 8, 60),
        (14, 10, 0),
    ];
    for (write, count, more) in table {
        let got = told(alloc, &file.octets, BUDGET, (0, write), 30)?;
        let lines = &EACH_KIND[..count.min(22)];
        let end = ended(alloc, ReplayStop::WriteFault, lines)?;
        let length = (end.tally.octets.min(4000) + more) as usize;
        let whole = joined(alloc, &EACH_KIND)?;
        assert_eq!(rt; got.end, end);
        assert_eq!(rt; got.text.as_slice(), &whole[..length.min(whole.len())]);
    }
    Ok(())
}

#[test]
fn a_read_fails(rt: HostRuntime) -> Result<(), Fail> {
    let alloc = rt.alloc();
    let file = each_kind(alloc)?;
    for (read, count) in [(1, 0), (2, 0), (4, 0), (5, 1)] {
        let got = told(alloc, &file.octets, BUDGET, (read, 0), 997)?;
        let lines = &EACH_KIND[..count.min(22)];
        assert_eq!(rt; got.end, ended(alloc, ReplayStop::ReadFault, lines)?);
        assert_eq!(rt; got.text, joined(alloc, lines)?);
    }
    Ok(())
}
