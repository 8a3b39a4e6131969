//! Live conferences over sources, tickers and sinks in memory: the status, what was written, and the line of notes.

use crate::live::{LiveEnd, live};
use crate::status::Status;
use io_edge::{MemHouse, MemSink, MemSource, MemTicker};
use std::alloc::{AllocError, Global};
use std::sync::Wait;
use std::test::Fail;
use std::thread::Threads;

// A house of sources with no octets.
fn house_of(alloc: Global, names: &[&str]) -> Result<MemHouse, AllocError> {
    let mut sources = Vec::new(alloc);
    for name in names {
        let source = MemSource::new(Vec::new(alloc), Vec::new(alloc), 9);
        sources.push((String::from_str(alloc, name)?, source))?;
    }
    Ok(MemHouse::new(sources))
}

// The status of a call with these words over a house of empty sources, a ticker of one step that fails at once, and a sink
// that was given so much.
fn called(
    rt: &(impl Threads + Wait + Sync),
    alloc: Global,
    line: &str,
    notes: &mut MemSink,
) -> Result<(Status, usize), Fail> {
    let mut words = Vec::new(alloc);
    for word in line.split_whitespace() {
        words.push(String::from_str(alloc, word)?)?;
    }
    let mut house = house_of(alloc, &["a", "b"])?;
    let ticker = MemTicker::new(vec![in alloc; 1]?, vec![in alloc; 1]?);
    let sink = MemSink::reserve(alloc, 100, Vec::new(alloc), 100)?;
    match live(rt, alloc, words.as_slice(), &mut house, ticker, sink, notes) {
        LiveEnd::Refused { status, sink, .. } => Ok((status, sink.bytes().len())),
        LiveEnd::Served { status, end } => Ok((status, end.sink.bytes().len())),
    }
}

#[test]
fn each_end_before_the_first_tick(rt: HostRuntime) -> Result<(), Fail> {
    // the words; the status; the line
    let rows = [
        ("replay", Status::Usage, "fault usage\n"),
        ("live --lanes=a", Status::Usage, "fault usage\n"),
        (
            "live --lanes=c,a --chair=b",
            Status::OpenFault { lane: 0 },
            "fault open 0\n",
        ),
        (
            "live --lanes=a,a --chair=c",
            Status::OpenFault { lane: 1 },
            "fault open 1\n",
        ),
        (
            "live --lanes=b,a --chair=a",
            Status::OpenFault { lane: 16 },
            "fault open 16\n",
        ),
        (
            "live --lanes=a --chair=b",
            Status::ReadFault,
            "fault read\n",
        ),
    ];
    for (line, status, told) in rows {
        let mut notes = MemSink::reserve(rt.alloc(), 256, Vec::new(rt.alloc()), 256)?;
        let (ended, written) = called(&rt, rt.alloc(), line, &mut notes)?;
        assert_eq!(rt; ended, status, "{line}");
        assert_eq!(rt; written, 0, "{line}");
        assert_eq!(rt; notes.bytes(), told.as_bytes());
    }
    Ok(())
}
