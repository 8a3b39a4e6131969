//! What the objects do in a row of calls, with the answers counted by hand.
use super::{
    Allowance, Failed, FileHouse, LineTicker, MemHouse, MemSink, MemSource, MemTicker, Opener,
    Pause, ReadEdge, Shortfall, Sink, Source, Ticker, WriteEdge, put_all,
};
use std::io;
use std::io::{ErrorKind, Read, Write};
use std::test::Fail;

#[test]
fn a_source_gives_pieces_and_fails_the_listed_calls(rt: HostRuntime) -> Result<(), Fail> {
    let alloc = rt.alloc();
    let bytes = vec![in alloc; 1, 2, 3, 4, 5]?;
    let fails = vec![in alloc; 2, 5]?;
    let mut source = MemSource::new(bytes, fails, 2);
    let mut buf = [0; 3];
    let wants = [Ok(2), Err(Failed), Ok(2), Ok(1), Err(Failed), Ok(0), Ok(0)];
    for want in wants {
        assert_eq!(rt; source.read(&mut buf), want);
    }
    assert_eq!(rt; buf, [5, 4, 0]);
    assert_eq!(rt; source.left().len(), 0);
    Ok(())
}

#[test]
fn fetching_stops_at_the_first_reason(rt: HostRuntime) -> Result<(), Fail> {
    let alloc = rt.alloc();
    // piece, the call that fails, budget; how many octets of the four asked for, and why no more
    let rows = [
        (1, 9, 9, 4, None),
        (3, 9, 4, 4, None),
        (3, 9, 3, 3, Some(Pause::Limit)),
        (3, 1, 0, 0, Some(Pause::Limit)),
        (3, 2, 9, 3, Some(Pause::Fault)),
        (3, 1, 9, 0, Some(Pause::Fault)),
    ];
    for (piece, fails, budget, count, pause) in rows {
        let bytes = vec![in alloc; 1, 2, 3, 4, 5]?;
        let fails = vec![in alloc; fails]?;
        let mut source = MemSource::new(bytes, fails, piece);
        let mut allowance = Allowance::new(budget);
        let mut buf = [0; 4];
        let short = allowance.fetch(&mut source, &mut buf).err();
        assert_eq!(rt;
            short,
            pause.map(|pause| Shortfall { count, pause }),
            "piece {piece}, budget {budget}"
        );
        assert_eq!(rt;
            (allowance.taken(), source.left().len() + count),
            (count as u64, 5)
        );
    }
    Ok(())
}

#[test]
fn octets_come_one_by_one(rt: HostRuntime) -> Result<(), Fail> {
    let alloc = rt.alloc();
    let bytes = vec![in alloc; 7, 8, 9]?;
    let fails = vec![in alloc; 2]?;
    let mut source = MemSource::new(bytes, fails, 9);
    let mut allowance = Allowance::new(2);
    let wants = [Ok(7), Err(Pause::Fault), Ok(8), Err(Pause::Limit)];
    for want in wants {
        assert_eq!(rt; allowance.octet(&mut source), want);
    }
    let mut rest = Allowance::new(9);
    let mut buf = [0; 4];
    let short = rest.fetch(&mut source, &mut buf).err();
    assert_eq!(rt;
        short,
        Some(Shortfall {
            count: 1,
            pause: Pause::End
        })
    );
    assert_eq!(rt; buf, [9, 0, 0, 0]);
    Ok(())
}

#[test]
fn a_piece_is_put_whole_or_its_front(rt: HostRuntime) -> Result<(), Fail> {
    let alloc = rt.alloc();
    // room, piece, the call that fails; whether all goes in, and how many octets do
    let rows = [
        (5, 2, 9, Ok(()), 5),
        (5, 9, 2, Ok(()), 5),
        (4, 3, 9, Err(Failed), 4),
        (5, 2, 2, Err(Failed), 2),
        (5, 9, 1, Err(Failed), 0),
        (0, 1, 9, Err(Failed), 0),
    ];
    for (room, piece, fails, want, count) in rows {
        let fails = vec![in alloc; fails]?;
        let mut sink = MemSink::reserve(alloc, room, fails, piece)?;
        assert_eq!(rt;
            put_all(&mut sink, &[1, 2, 3, 4, 5]),
            want,
            "room {room}, piece {piece}"
        );
        assert_eq!(rt; sink.bytes().len(), count);
        assert!(rt; [1, 2, 3, 4, 5].starts_with(sink.bytes()));
    }
    Ok(())
}

/// A reader and a writer of `std::io` that always fail.
#[derive(Drop)]
struct Broken;

impl Read for Broken {
    fn read(&mut self, _buf: &mut [u8]) -> io::Result<usize> {
        Err(io::Error::from(ErrorKind::TimedOut))
    }
}

impl Write for Broken {
    fn write(&mut self, _buf: &[u8]) -> io::Result<usize> {
        Err(io::Error::from(ErrorKind::TimedOut))
    }

    fn flush(&mut self) -> io::Result<()> {
        Err(io::Error::from(ErrorKind::TimedOut))
    }
}

#[test]
fn a_reader_is_a_source(rt: HostRuntime) {
    let mut source = ReadEdge::new(b"abc".as_slice());
    let mut buf = [0; 2];
    assert_eq!(rt; source.read(&mut buf), Ok(2));
    assert_eq!(rt; &buf, b"ab");
    assert_eq!(rt; source.read(&mut buf), Ok(1));
    assert_eq!(rt; source.read(&mut buf), Ok(0));
    assert_eq!(rt; ReadEdge::new(Broken).read(&mut buf), Err(Failed));
}

#[test]
fn a_writer_is_a_sink(rt: HostRuntime) {
    let mut written = Vec::new(rt.alloc());
    let mut sink = WriteEdge::new(&mut written);
    assert_eq!(rt; put_all(&mut sink, b"abc"), Ok(()));
    assert_eq!(rt; sink.flush(), Ok(()));
    assert_eq!(rt; written.as_slice(), b"abc".as_slice());
    let mut full = [0; 2];
    let mut sink = WriteEdge::new(full.as_mut_slice());
    assert_eq!(rt;
        put_all(&mut sink, b"abc"),
        Err(Failed),
        "a write that takes nothing"
    );
    assert_eq!(rt; &full, b"ab");
    let mut broken = WriteEdge::new(Broken);
    assert_eq!(rt; broken.write(b"abc"), Err(Failed));
    assert_eq!(rt; broken.flush(), Err(Failed));
}

#[test]
fn a_ticker_gives_its_steps_and_fails_the_listed_calls(rt: HostRuntime) -> Result<(), Fail> {
    let alloc = rt.alloc();
    let steps = vec![in alloc; 1, 31, 3]?;
    let fails = vec![in alloc; 2, 5]?;
    let mut ticker = MemTicker::new(steps, fails);
    let wants = [
        Ok(Some(1)),
        Err(Failed),
        Ok(Some(31)),
        Ok(Some(3)),
        Err(Failed),
        Ok(None),
        Ok(None),
    ];
    for want in wants {
        assert_eq!(rt; ticker.next(), want);
    }
    Ok(())
}

#[test]
fn lines_of_one_or_two_digits_are_steps(rt: HostRuntime) {
    // what the reader has; the first three answers
    let rows = [
        ("1\n31\n", [Ok(Some(1)), Ok(Some(31)), Ok(None)]),
        ("09\n7", [Ok(Some(9)), Ok(Some(7)), Ok(None)]),
        ("12", [Ok(Some(12)), Ok(None), Ok(None)]),
        ("0\n5", [Err(Failed), Ok(Some(5)), Ok(None)]),
        ("00\n5", [Err(Failed), Err(Failed), Ok(Some(5))]),
        ("32\n5", [Err(Failed), Err(Failed), Ok(Some(5))]),
        ("100\n", [Err(Failed), Err(Failed), Ok(None)]),
        ("\n5\n", [Err(Failed), Ok(Some(5)), Ok(None)]),
        (" 5", [Err(Failed), Ok(Some(5)), Ok(None)]),
        ("3\r\n", [Err(Failed), Err(Failed), Ok(None)]),
    ];
    for (lines, wants) in rows {
        let mut ticker = LineTicker::new(lines.as_bytes());
        for want in wants {
            assert_eq!(rt; ticker.next(), want, "{lines:?}");
        }
    }
    assert_eq!(rt; LineTicker::new(Broken).next(), Err(Failed));
}

#[test]
fn a_house_gives_each_source_of_a_name_once(rt: HostRuntime) -> Result<(), Fail> {
    let alloc = rt.alloc();
    let mut sources = Vec::new(alloc);
    for (name, octet) in [("a", 1), ("b", 2), ("a", 3)] {
        let bytes = vec![in alloc; octet]?;
        let source = MemSource::new(bytes, Vec::new(alloc), 9);
        sources.push((String::from_str(alloc, name)?, source))?;
    }
    let mut house = MemHouse::new(sources);
    for (name, octet) in [("a", 1), ("a", 3), ("b", 2)] {
        match house.reach(name) {
            Ok(source) => assert_eq!(rt; source.left(), [octet].as_slice()),
            Err(Failed) => assert!(rt; false, "{name} is not there"),
        }
    }
    for name in ["a", "b", "c", ""] {
        assert!(rt; house.reach(name).is_err());
    }
    Ok(())
}

#[test]
fn a_house_of_files_gives_their_octets(rt: HostRuntime) {
    let mut house = FileHouse::new(&rt);
    let mut buf = [1; 4];
    match house.reach("/dev/zero") {
        Ok(mut source) => assert_eq!(rt; source.read(&mut buf), Ok(4)),
        Err(Failed) => assert!(rt; false, "the file is not there"),
    }
    assert_eq!(rt; buf, [0; 4]);
    assert!(rt; house.reach("/dev/no such file").is_err());
}
