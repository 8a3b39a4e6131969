//! Reports of each kind, and how the reading ends, with lines counted by hand.

use super::check_frames;
use io_edge::{MemSink, MemSource};
use pel_model::Format::{self, Cif, Qcif};
use rtp_h261::{UnitEnd, UnitStop, UnitTally};
use std::alloc::{AllocError, Global};
use std::test::Fail;

/// The headers of a QCIF picture with TR 1 and of its groups with quantiser 8.
const HEADER: &str = "00000000000000010000000010000110";

const GROUPS: [&str; 3] = [
    "00000000000000010001010000",
    "00000000000000010011010000",
    "00000000000000010101010000",
];

/// A macroblock that is Intra, each block with INTRADC 255 alone.
const GREY: &str = "10001111111111011111111101111111110111111111011111111101111111110";

/// A macroblock that is Inter, with one coefficient.
const INTER: &str = "1110101010";

/// A picture start code and nothing behind it.
const START: &str = "00000000000000010000";

/// Which bits a packet has.
#[derive(Clone, Copy)]
enum Brings {
    /// All 99 macroblocks grey, 6,545 bits.
    Grey,
    /// One Inter macroblock, 120 bits.
    Small,
    Start,
}

use Brings::{Grey, Small, Start};

/// Appends bits that are written as digits, behind `len` others.
fn push_digits(octets: &mut Vec<u8>, len: &mut u32, digits: &str) -> Result<(), AllocError> {
    for digit in digits.bytes().filter(|digit| matches!(digit, b'0' | b'1')) {
        if *len % 8 == 0 {
            octets.push(0)?;
        }
        if let Some(last) = octets.last_mut() {
            *last |= (digit - b'0') << (7 - *len % 8);
        }
        *len = len.wrapping_add(1);
    }
    Ok(())
}

/// Appends the bits, and tells their number.
fn push_bits(octets: &mut Vec<u8>, brings: Brings) -> Result<u32, AllocError> {
    let mut len = 0;
    if matches!(brings, Start) {
        push_digits(octets, &mut len, START)?;
        return Ok(len);
    }
    push_digits(octets, &mut len, HEADER)?;
    for group in GROUPS {
        push_digits(octets, &mut len, group)?;
        if matches!(brings, Grey) {
            for _ in 0..33 {
                push_digits(octets, &mut len, GREY)?;
            }
        } else if len == 58 {
            push_digits(octets, &mut len, INTER)?;
        }
    }
    Ok(len)
}

/// A packet of one picture with this sequence number, behind its length.
fn framed(alloc: Global, number: u8, brings: Brings) -> Result<Vec<u8>, AllocError> {
    let mut octets = Vec::new(alloc);
    octets.extend_from_slice(&[0, 0, 0x80, 0x9f, 0, number, 0, 0, 0, number])?;
    octets.extend_from_slice(&[0, 0, 0, 1, 1, 0, 0, 0])?;
    let len = push_bits(&mut octets, brings)?;
    let size = octets.len().wrapping_sub(2);
    if let Some(octet) = octets.get_mut(0) {
        *octet = (size >> 8 & 0xff) as u8;
    }
    if let Some(octet) = octets.get_mut(1) {
        *octet = (size & 0xff) as u8;
    }
    if let Some(octet) = octets.get_mut(14) {
        *octet = ((8 - len % 8) % 8 * 4 + 1) as u8;
    }
    Ok(octets)
}

/// Packets with these numbers, one behind the other.
fn stream(alloc: Global, packets: &[(u8, Brings)]) -> Result<Vec<u8>, AllocError> {
    let mut octets = Vec::new(alloc);
    for (number, brings) in packets {
        octets.extend_from_slice(framed(alloc, *number, *brings)?.as_slice())?;
    }
    Ok(octets)
}

/// Checks a stream, read and written in pieces of 1 to 100 octets, and gives how it ended and what was written.
fn report(
    alloc: Global,
    format: Format,
    octets: Vec<u8>,
    read_fails: u64,
    write_fails: u64,
    budget: u32,
) -> Result<(UnitEnd, Vec<u8>), Fail> {
    let mut source = MemSource::new(octets, vec![in alloc; read_fails]?, 100);
    let mut sink = MemSink::reserve(alloc, 500, vec![in alloc; write_fails]?, 30)?;
    let end = check_frames(alloc, format, &mut source, &mut sink, u64::from(budget));
    let mut written = Vec::new(alloc);
    written.extend_from_slice(sink.bytes())?;
    Ok((end, written))
}

/// How a reading ends that told so much.
fn ended(stop: UnitStop, pictures: u64, gaps: u64, octets: u64) -> UnitEnd {
    UnitEnd {
        stop,
        tally: UnitTally {
            pictures,
            gaps,
            octets,
        },
    }
}

const LINE: &[u8; 46] = b"picture 1 tr 1 bits 120 macroblocks 1 intra 0\n";

#[test]
fn decode_and_check_qcif(rt: HostRuntime) -> Result<(), Fail> {
    let alloc = rt.alloc();
    let octets = stream(alloc, &[(0, Grey), (1, Small)])?;
    assert_eq!(rt; octets.len(), 837 + 33);
    let (end, written) = report(alloc, Qcif, octets, 0, 0, 2000)?;
    let text = b"picture 1 tr 1 bits 6545 macroblocks 99 intra 99\n\
                 picture 2 tr 1 bits 120 macroblocks 1 intra 0\n";
    assert_eq!(rt; written.as_slice(), text.as_slice());
    assert_eq!(rt; end, ended(UnitStop::Done, 2, 0, 95));
    Ok(())
}

#[test]
fn a_line_for_each_event(rt: HostRuntime) -> Result<(), Fail> {
    let alloc = rt.alloc();
    let octets = stream(alloc, &[(7, Small), (9, Small), (10, Start), (10, Small)])?;
    let (end, written) = report(alloc, Qcif, octets, 0, 0, 2000)?;
    let text = b"picture 1 tr 1 bits 120 macroblocks 1 intra 0\n\
                 gap 2 lost\n\
                 picture 3 tr 1 bits 120 macroblocks 1 intra 0\n\
                 gap 4 Cut at 20\n";
    assert_eq!(rt;
        written.as_slice(),
        text.as_slice(),
        "the loss before the unit, nothing of a repeated packet"
    );
    assert_eq!(rt; end, ended(UnitStop::Done, 2, 2, 119));
    let octets = stream(alloc, &[(7, Small)])?;
    let (end, written) = report(alloc, Cif, octets, 0, 0, 2000)?;
    assert_eq!(rt; written.as_slice(), b"gap 1 WrongFormat at 25\n".as_slice());
    assert_eq!(rt; end, ended(UnitStop::Done, 0, 1, 24));
    Ok(())
}

#[test]
fn ends_of_the_input(rt: HostRuntime) -> Result<(), Fail> {
    let alloc = rt.alloc();
    for (len, read_fails, budget, stop, pictures) in [
        (33, 0, 34, UnitStop::Done, 1),
        (33, 0, 33, UnitStop::Limit, 1),
        (33, 0, 32, UnitStop::Limit, 0),
        (32, 0, 99, UnitStop::Cut { place: 32 }, 0),
        (1, 0, 99, UnitStop::Cut { place: 1 }, 0),
        (0, 0, 99, UnitStop::Done, 0),
        (33, 1, 99, UnitStop::ReadFault, 0),
        (33, 3, 99, UnitStop::ReadFault, 1),
    ] {
        let mut octets = framed(alloc, 7, Small)?;
        octets.truncate(len);
        let (end, written) = report(alloc, Qcif, octets, read_fails, 0, budget)?;
        assert_eq!(rt; end, ended(stop, pictures, 0, pictures.wrapping_mul(46)));
        assert_eq!(rt; written.len() as u64, end.tally.octets);
    }
    Ok(())
}

#[test]
fn a_sink_that_fails(rt: HostRuntime) -> Result<(), Fail> {
    let alloc = rt.alloc();
    // a line of 46 octets takes two writes, one of 11 octets takes one
    for (write_fails, pictures, gaps, octets, len) in [
        (1, 1, 0, 0, 0),
        (2, 1, 0, 0, 30),
        (3, 2, 1, 46, 46),
        (4, 2, 1, 57, 57),
        (5, 2, 1, 57, 87),
    ] {
        let stream = stream(alloc, &[(7, Small), (9, Small), (10, Small)])?;
        let (end, written) = report(alloc, Qcif, stream, 0, write_fails, 2000)?;
        assert_eq!(rt; end, ended(UnitStop::WriteFault, pictures, gaps, octets));
        assert_eq!(rt; written.len(), len);
        if len >= 46 {
            assert!(rt; written.as_slice().starts_with(LINE));
        }
    }
    Ok(())
}
