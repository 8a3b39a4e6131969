//! Made files, whose octets another program made, and sinks that fail.

use super::{MakeEnd, MakeStop, MakeTally, make};
use io_edge::MemSink;
use std::alloc::Global;
use std::test::Fail;

/// Makes a file, where the sink has room for so many octets, takes 100 a call and fails a call.
fn made(
    alloc: Global,
    seed: u64,
    ticks: u32,
    lanes: u8,
    room: usize,
    fails: u64,
) -> Result<(MakeEnd, Vec<u8>), Fail> {
    let mut sink = MemSink::reserve(alloc, room, vec![in alloc; fails]?, 100)?;
    let end = make(alloc, seed, ticks, lanes.max(1).min(16), &mut sink);
    let mut file = Vec::new(alloc);
    file.extend_from_slice(sink.bytes())?;
    Ok((end, file))
}

fn ended(stop: MakeStop, records: u64, octets: u64) -> MakeEnd {
    MakeEnd {
        stop,
        tally: MakeTally { records, octets },
    }
}

const SMALL: &[u8; 22] = b"H261CONF\x01\x01C\x09place 1 0E";

#[test]
fn make_without_ticks(rt: HostRuntime) -> Result<(), Fail> {
    let (end, file) = made(rt.alloc(), 1, 0, 1, 99, 0)?;
    assert_eq!(rt; file.as_slice(), SMALL.as_slice());
    assert_eq!(rt; end, ended(MakeStop::Done, 2, 22));
    let (end, file) = made(rt.alloc(), 1, 0, 16, 99, 0)?;
    let placed = b"C\x09place 1 0C\x09place 2 1C\x09place 3 2C\x09place 4 3E";
    assert!(rt; file.as_slice().ends_with(placed.as_slice()), "{end:?}");
    assert_eq!(rt; end, ended(MakeStop::Done, 5, 55));
    Ok(())
}

/// What stands behind the grey pictures of the first tick, for seed 7, two lanes and three ticks: of ticks 2 and 3 each
/// lane's packet, and T.
const TAIL: &[u8; 159] = b"T\x03\
P\x00\x00\x24\x80\x9f\x00\x01\x00\x00\x46\x62\x00\x00\x00\x00\x19\x00\x00\x00\x00\x01\x03\x06\x00\x01\x14\x27\
\x00\x01\x34\x3a\xae\xaa\x70\x00\x15\x42\x79\xc0\
P\x01\x00\x20\x80\x9f\x00\x01\x00\x00\x46\x62\x00\x00\x00\x01\x09\x00\x00\x00\x00\x01\x03\x06\x00\x01\x14\x00\
\x00\x4d\x0e\xb8\x00\x05\x50\x9c\
T\x03\
P\x00\x00\x23\x80\x9f\x00\x02\x00\x00\x69\x93\x00\x00\x00\x00\x01\x00\x00\x00\x00\x01\x04\x86\x00\x01\x14\x3a\
\xa9\xfa\xe0\x00\x13\x42\x7e\xa8\x00\x05\x50\
P\x01\x00\x21\x80\x9f\x00\x02\x00\x00\x69\x93\x00\x00\x00\x01\x19\x00\x00\x00\x00\x01\x04\x86\x00\x01\x14\x3a\
\xa0\x00\x13\x40\x00\x05\x50\xeb\x80\
T\x03E";

#[test]
fn three_ticks_of_two_lanes(rt: HostRuntime) -> Result<(), Fail> {
    let (end, file) = made(rt.alloc(), 7, 3, 2, 2000, 0)?;
    assert_eq!(rt; end, ended(MakeStop::Done, 12, 1869));
    assert!(rt; file.as_slice().ends_with(TAIL.as_slice()));
    let grey = b"\x80\x9f\x00\x00\x00\x00\x23\x31\x00\x00\x00\x00\x1d\x00\x00\x00\x00\x01\x01\x86";
    assert!(rt; file.get(32..56).is_some_and(|front| front.ends_with(grey)));
    Ok(())
}

#[test]
fn as_many_entries_and_octets_as_another_program_makes(rt: HostRuntime) -> Result<(), Fail> {
    let alloc = rt.alloc();
    let (end, file) = made(alloc, 5, 25, 3, 9000, 0)?;
    assert_eq!(rt; end, ended(MakeStop::Done, 104, 7779));
    assert!(rt;
        file.as_slice()
            .ends_with(b"C\x09speaker 2T\x03E".as_slice())
    );
    for (seed, ticks, lanes, records, octets) in [
        (1, 1000, 4, 4965, 311_383),
        (2, 120, 2, 364, 19_052),
        (7, 200, 6, 1392, 95_684),
        (4_294_967_295, 75, 16, 1269, 103_573),
    ] {
        let (end, file) = made(alloc, seed, ticks, lanes, 400_000, 0)?;
        assert_eq!(rt; end, ended(MakeStop::Done, records, octets));
        assert_eq!(rt; file.len() as u64, octets);
    }
    Ok(())
}

#[test]
fn sinks_that_fail(rt: HostRuntime) -> Result<(), Fail> {
    let alloc = rt.alloc();
    for (room, fails, records, octets, len) in [
        (99, 1, 0, 0, 0),
        (4, 0, 0, 0, 4),
        (10, 0, 0, 10, 10),
        (15, 0, 0, 10, 15),
        (21, 0, 1, 21, 21),
        (99, 3, 1, 21, 21),
    ] {
        let (end, file) = made(alloc, 1, 0, 1, room, fails)?;
        assert_eq!(rt; end, ended(MakeStop::WriteFault, records, octets));
        assert_eq!(rt; file.len(), len);
        assert!(rt; SMALL.starts_with(file.as_slice()));
    }
    Ok(())
}
