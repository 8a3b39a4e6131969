//! Lines of overdue macroblocks, with numbers counted by hand, and a watch that sees pictures one by one.

ghost use Rattle.std.specs.Prelude.{◌≡◌, IfOk};
ghost use Rattle.h261_pic.specs.Coded.{IsFinished};
ghost use Rattle.pel_model.specs.declared.Format.TheVariants.{Qcif};

use super::{Overdue, Watch, WatchEnd, watch_frames};
use h261_pic::{Coded, parse};
use io_edge::{MemSink, MemSource};
use pel_bits::Bits;
use pel_model::Format::{self, Cif, Qcif};
use rtp_h261::{UnitEnd, UnitStop, UnitTally};
use std::alloc::{AllocError, Global};
use std::test::Fail;

/// The headers of a QCIF and of a CIF picture with TR 1.
const QCIF_HEADER: &str = "00000000000000010000000010000110";

const CIF_HEADER: &str = "00000000000000010000000010001110";

/// A macroblock that is Intra, each block with INTRADC 255 alone, with the address behind the last one.
const GREY: &str = "10001111111111011111111101111111110111111111011111111101111111110";

/// A macroblock that is Inter, with one coefficient, behind its address.
const INTER: &str = "110101010";

/// The addresses 1 and 33.
const FIRST: &str = "1";

const LAST: &str = "00000011000";

/// Which bits a packet has.
#[derive(Clone, Copy)]
enum Brings {
    /// A QCIF picture of 99 grey macroblocks, 6,545 bits.
    Grey,
    /// A picture with one Inter macroblock, in this group at this address.
    One(Format, u8, &'static str),
    /// A QCIF picture with an Inter macroblock at address 33 of group 1 and one at address 1 of group 3.
    Two,
    /// A picture start code and nothing behind it.
    Start,
}

use Brings::{Grey, One, Start, Two};

/// A QCIF picture whose only macroblock is Inter and the first, 120 bits.
const SMALL: Brings = One(Qcif, 1, FIRST);

/// Its octets.
const SMALL_OCTETS: [u8; 15] = [
    0x00, 0x01, 0x00, 0x86, 0x00, 0x01, 0x14, 0x3a, 0xa0, 0x00, 0x13, 0x40, 0x00, 0x05, 0x50,
];

/// Appends bits that are written as digits, behind `len` others.
fn push_digits(octets: &mut Vec<u8>, len: &mut u32, digits: &str) -> Result<(), AllocError> {
    for digit in digits.bytes().filter(|digit| matches!(digit, b'0' | b'1')) {
        if *len % 8 == 0 {
            octets.push(0)?;
        }
        if let Some(last) = octets.last_mut() {
            *last |= (digit - b'0') << (7 - *len % 8);
        }
        *len = len.wrapping_add(1);
    }
    Ok(())
}

/// Appends a group's header, with quantiser 8.
fn push_group(octets: &mut Vec<u8>, len: &mut u32, group: u8) -> Result<(), AllocError> {
    push_digits(octets, len, "0000000000000001")?;
    for place in [3, 2, 1, 0] {
        push_digits(octets, len, if group >> place & 1 == 1 { "1" } else { "0" })?;
    }
    push_digits(octets, len, "010000")
}

/// Appends the macroblocks of a group.
fn push_macroblocks(
    octets: &mut Vec<u8>,
    len: &mut u32,
    brings: Brings,
    group: u8,
) -> Result<(), AllocError> {
    match brings {
        Grey => {
            for _ in 0..33 {
                push_digits(octets, len, GREY)?;
            }
        }
        One(_, place, address) if place == group => {
            push_digits(octets, len, address)?;
            push_digits(octets, len, INTER)?;
        }
        Two if group == 1 => {
            push_digits(octets, len, LAST)?;
            push_digits(octets, len, INTER)?;
        }
        Two if group == 3 => {
            push_digits(octets, len, FIRST)?;
            push_digits(octets, len, INTER)?;
        }
        _ => {}
    }
    Ok(())
}

/// Appends the bits, and tells their number.
fn push_bits(octets: &mut Vec<u8>, brings: Brings) -> Result<u32, AllocError> {
    let mut len = 0;
    let is_cif = matches!(brings, One(Cif, _, _));
    if matches!(brings, Start) {
        push_digits(octets, &mut len, "00000000000000010000")?;
        return Ok(len);
    }
    push_digits(
        octets,
        &mut len,
        if is_cif { CIF_HEADER } else { QCIF_HEADER },
    )?;
    for group in 1..=12 {
        if is_cif || matches!(group, 1 | 3 | 5) {
            push_group(octets, &mut len, group)?;
            push_macroblocks(octets, &mut len, brings, group)?;
        }
    }
    Ok(len)
}

/// A packet of one picture with this sequence number, behind its length.
fn framed(alloc: Global, number: u16, brings: Brings) -> Result<Vec<u8>, AllocError> {
    let mut octets = Vec::new(alloc);
    let [high, low] = number.to_be_bytes();
    octets.extend_from_slice(&[0, 0, 0x80, 0x9f, high, low, 0, 0, high, low])?;
    octets.extend_from_slice(&[0, 0, 0, 1, 1, 0, 0, 0])?;
    let len = push_bits(&mut octets, brings)?;
    let size = octets.len().wrapping_sub(2);
    if let Some(octet) = octets.get_mut(0) {
        *octet = (size >> 8 & 0xff) as u8;
    }
    if let Some(octet) = octets.get_mut(1) {
        *octet = (size & 0xff) as u8;
    }
    if let Some(octet) = octets.get_mut(14) {
        *octet = ((8 - len % 8) % 8 * 4 + 1) as u8;
    }
    Ok(octets)
}

/// Packets that bring these, each so many times, one behind the other; where it brings nothing, so many are missing.
fn stream(alloc: Global, parts: &[(u16, Option<Brings>)]) -> Result<Vec<u8>, AllocError> {
    let mut octets = Vec::new(alloc);
    let mut number = 0u16;
    for (count, brings) in parts {
        for _ in 0..*count {
            if let Some(brings) = brings {
                octets.extend_from_slice(framed(alloc, number, *brings)?.as_slice())?;
            }
            number = number.wrapping_add(1);
        }
    }
    Ok(octets)
}

/// Watches a stream, read and written in pieces of 1 to 100 octets, and gives how it ended and what was written.
fn watched(
    alloc: Global,
    format: Format,
    parts: &[(u16, Option<Brings>)],
    write_fails: u64,
) -> Result<(WatchEnd, Vec<u8>), Fail> {
    let mut source = MemSource::new(stream(alloc, parts)?, vec![in alloc; 0]?, 100);
    let mut sink = MemSink::reserve(alloc, 500, vec![in alloc; write_fails]?, 30)?;
    let end = watch_frames(alloc, format, &mut source, &mut sink, 1_000_000);
    let mut written = Vec::new(alloc);
    written.extend_from_slice(sink.bytes())?;
    Ok((end, written))
}

/// How a watch ends that was told so much.
fn ended(stop: UnitStop, pictures: u64, gaps: u64, octets: u64, overdue: u64) -> WatchEnd {
    WatchEnd {
        end: UnitEnd {
            stop,
            tally: UnitTally {
                pictures,
                gaps,
                octets,
            },
        },
        overdue,
    }
}

#[test]
fn a_refresh_and_132_transmissions(rt: HostRuntime) -> Result<(), Fail> {
    let alloc = rt.alloc();
    let (end, written) = watched(alloc, Qcif, &[(1, Some(Grey)), (132, Some(SMALL))], 0)?;
    assert_eq!(rt;
        written.as_slice(),
        b"overdue 133 group 1 address 1 places 1\n".as_slice()
    );
    assert_eq!(rt; end, ended(UnitStop::Done, 133, 0, 39, 1));
    let parts = [
        (1, Some(Grey)),
        (131, Some(SMALL)),
        (1, Some(Grey)),
        (1, Some(SMALL)),
    ];
    let (end, written) = watched(alloc, Qcif, &parts, 0)?;
    assert_eq!(rt; written.as_slice(), b"".as_slice());
    assert_eq!(rt; end, ended(UnitStop::Done, 134, 0, 0, 0));
    Ok(())
}

#[test]
fn the_132nd_at_each_corner_is_told_once(rt: HostRuntime) -> Result<(), Fail> {
    let alloc = rt.alloc();
    for (format, group, address, line) in [
        (
            Qcif,
            1,
            FIRST,
            b"overdue 132 group 1 address 1 places 1\n".as_slice(),
        ),
        (
            Qcif,
            5,
            LAST,
            b"overdue 132 group 5 address 33 places 1\n".as_slice(),
        ),
        (
            Cif,
            1,
            FIRST,
            b"overdue 132 group 1 address 1 places 1\n".as_slice(),
        ),
        (
            Cif,
            2,
            LAST,
            b"overdue 132 group 2 address 33 places 1\n".as_slice(),
        ),
        (
            Cif,
            11,
            FIRST,
            b"overdue 132 group 11 address 1 places 1\n".as_slice(),
        ),
        (
            Cif,
            12,
            LAST,
            b"overdue 132 group 12 address 33 places 1\n".as_slice(),
        ),
    ] {
        for (count, lines) in [(131, 0), (132, 1), (400, 1)] {
            let parts = [(count, Some(One(format, group, address)))];
            let (end, written) = watched(alloc, format, &parts, 0)?;
            assert_eq!(rt; end.overdue, lines);
            assert_eq!(rt; end.end.tally.pictures, u64::from(count));
            let told = if lines == 0 { b"".as_slice() } else { line };
            assert_eq!(rt; written.as_slice(), told);
        }
    }
    Ok(())
}

#[test]
fn a_gap_ends_a_stretch(rt: HostRuntime) -> Result<(), Fail> {
    let alloc = rt.alloc();
    for gap in [None, Some(Start), Some(One(Cif, 1, FIRST))] {
        let parts = [(131, Some(SMALL)), (1, gap), (131, Some(SMALL))];
        let (end, written) = watched(alloc, Qcif, &parts, 0)?;
        assert_eq!(rt; written.as_slice(), b"".as_slice());
        assert_eq!(rt; end, ended(UnitStop::Done, 262, 1, 0, 0));
        let parts = [(131, Some(SMALL)), (1, gap), (132, Some(SMALL))];
        let (end, written) = watched(alloc, Qcif, &parts, 0)?;
        assert_eq!(rt;
            written.as_slice(),
            b"overdue 264 group 1 address 1 places 1\n".as_slice()
        );
        assert_eq!(rt; end, ended(UnitStop::Done, 263, 1, 39, 1));
    }
    Ok(())
}

#[test]
fn what_is_not_sent_does_not_count(rt: HostRuntime) -> Result<(), Fail> {
    let alloc = rt.alloc();
    let other = One(Qcif, 1, LAST);
    let parts = [(131, Some(SMALL)), (50, Some(other)), (1, Some(SMALL))];
    let (end, written) = watched(alloc, Qcif, &parts, 0)?;
    assert_eq!(rt;
        written.as_slice(),
        b"overdue 182 group 1 address 1 places 1\n".as_slice()
    );
    assert_eq!(rt; end, ended(UnitStop::Done, 182, 0, 39, 1));
    Ok(())
}

#[test]
fn the_first_of_two_places(rt: HostRuntime) -> Result<(), Fail> {
    let alloc = rt.alloc();
    let (end, written) = watched(alloc, Qcif, &[(140, Some(Two))], 0)?;
    assert_eq!(rt;
        written.as_slice(),
        b"overdue 132 group 1 address 33 places 2\n".as_slice()
    );
    assert_eq!(rt; end, ended(UnitStop::Done, 140, 0, 40, 1));
    Ok(())
}

#[test]
fn lines_that_were_written_whole_are_counted(rt: HostRuntime) -> Result<(), Fail> {
    let alloc = rt.alloc();
    // a line takes two writes: 30 octets, and the 9 or 10 others
    for (write_fails, stop, octets, overdue, len) in [
        (1, UnitStop::WriteFault, 0, 0, 0),
        (2, UnitStop::WriteFault, 0, 0, 30),
        (3, UnitStop::WriteFault, 39, 1, 39),
        (4, UnitStop::WriteFault, 39, 1, 69),
        (5, UnitStop::Done, 79, 2, 79),
    ] {
        let parts = [(132, Some(SMALL)), (140, Some(One(Qcif, 1, LAST)))];
        let (end, written) = watched(alloc, Qcif, &parts, write_fails)?;
        assert_eq!(rt;
            (end.end.stop, end.end.tally.octets, end.overdue),
            (stop, octets, overdue)
        );
        assert_eq!(rt; written.len(), len);
    }
    Ok(())
}

/// The picture with the only macroblock at address 1 of group 1, as it was parsed.
fn small(alloc: Global) -> Result<Coded, Fail>
    ensures format { IfOk result (λ coded. coded.format ≡ Qcif) }
    ensures finished { IfOk result (λ coded. IsFinished coded) }
{
    let mut coded = Coded::reserve(alloc, Qcif)?;
    parse(Bits::new(&SMALL_OCTETS, 0, 120), Qcif, &mut coded)?;
    Ok(coded)
}

/// What is told at the last of so many pictures that are alike, if nothing is told before it; else what was told first.
fn last_told(watch: &mut Watch, picture: &Coded, count: u32) -> Option<Overdue>
    requires format { picture.now.format ≡ watch.old.format }
    requires finished { IsFinished picture.now }
    ensures { watch.new.format ≡ watch.old.format }
{
    for _i in 1..count {
        if let Some(overdue) = watch.see(picture) {
            return Some(overdue);
        }
    }
    watch.see(picture)
}

#[test]
fn a_watch_sees_and_knows(rt: HostRuntime) -> Result<(), Fail> {
    let alloc = rt.alloc();
    let small = small(alloc)?;
    let first = Overdue {
        group: 1,
        address: 1,
        places: 1,
    };
    let mut watch = Watch::reserve(alloc, Qcif)?;
    assert_eq!(rt; last_told(&mut watch, &small, 131), None);
    watch.gap();
    assert_eq!(rt; last_told(&mut watch, &small, 131), None);
    assert!(rt; watch.kept(), "two stretches of 131");
    assert_eq!(rt; watch.see(&small), Some(first));
    assert!(rt; !watch.kept());
    assert_eq!(rt; watch.see(&small), None);
    watch.gap();
    assert!(rt; !watch.kept(), "a stretch that is over counts");
    Ok(())
}
