//! Runs of the top call over sources and sinks in memory: the status, what is written, and the line of notes.

use crate::run::run;
use crate::status::Status;
use io_edge::{MemSink, MemSource};
use std::alloc::Global;
use std::test::Fail;

/// A conference of one lane with one tick of one step.
const ONE_TICK: &[u8] = b"H261CONF\x01\x01T\x01E";

/// What is written for it: a CIF picture of TR 1 whose twelve groups send nothing.
const EMPTY_PICTURE: &[u8] = b"\x00\x3B\x80\x9F\x00\x00\x00\x00\x0B\xBBH261\x01\x00\x00\x00\
\x00\x01\x00\x8E\x00\x01\x10\x80\x00\x48\x20\x00\x13\x08\x00\x05\x02\x00\x01\x50\x80\x00\x58\x20\
\x00\x17\x08\x00\x06\x02\x00\x01\x90\x80\x00\x68\x20\x00\x1B\x08\x00\x07\x02";

/// The same, cut off before its end.
const CUT: &[u8] = b"H261CONF\x01\x01T\x01";

const NOTHING: &[u8] = b"";

/// What a run gave.
#[derive(Drop)]
struct Run {
    status: Status,
    output: MemSink,
    notes: MemSink,
}

// Runs words over an input.
fn run_in_memory(alloc: Global, line: &str, input: &[u8]) -> Result<Run, Fail> {
    let mut words = Vec::new(alloc);
    for word in line.split_whitespace() {
        words.push(String::from_str(alloc, word)?)?;
    }
    let mut source = MemSource::new(Vec::from_slice(alloc, input)?, Vec::new(alloc), 7);
    let mut output = MemSink::reserve(alloc, 1_000, Vec::new(alloc), 1_000)?;
    let mut notes = MemSink::reserve(alloc, 256, Vec::new(alloc), 256)?;
    let status = run(alloc, &words, &mut source, &mut output, &mut notes);
    Ok(Run {
        status,
        output,
        notes,
    })
}

#[test]
fn a_run_of_each_command(rt: HostRuntime) -> Result<(), Fail> {
    let done = "done ticks 1 pictures 0 gaps 0 commands 0 refused 0 taken 0 packets 1 octets 61\n";
    // the words; the input; the number of the status; what is written; the line
    let rows = [
        ("replay --mtu=1000", ONE_TICK, 0, EMPTY_PICTURE, done),
        ("replay", CUT, 5, EMPTY_PICTURE, "fault cut at 12\n"),
        (
            "history",
            ONE_TICK,
            0,
            b"10 tick step 1 total 1 taken - - - - waiting -\n12 end\n".as_slice(),
            "done lines 2 octets 54\n",
        ),
        ("check", NOTHING, 0, NOTHING, "done pictures 0 gaps 0\n"),
        (
            "decode",
            b"\x00\x01".as_slice(),
            5,
            NOTHING,
            "fault cut at 2\n",
        ),
        (
            "make --ticks=0 --lanes=1",
            NOTHING,
            0,
            b"H261CONF\x01\x01C\x09place 1 0E".as_slice(),
            "done ticks 0 records 2 octets 22\n",
        ),
        (
            "live --lanes=a --chair=b",
            ONE_TICK,
            2,
            NOTHING,
            "fault usage\n",
        ),
    ];
    for (words, input, number, written, line) in rows {
        let ran = run_in_memory(rt.alloc(), words, input)?;
        assert_eq!(rt; ran.status.number(), number, "{words}");
        assert_eq!(rt; ran.output.bytes(), written, "{words}");
        assert_eq!(rt; ran.notes.bytes(), line.as_bytes());
    }
    Ok(())
}
