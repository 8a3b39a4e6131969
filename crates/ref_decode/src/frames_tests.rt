//! Streams of packets decoded: which planes come of them, and how the reading ends.

use crate::decode_frames;
use crate::pictures::{
    CIF_HEADER, GREY, GROUP_1, GROUP_3, GROUP_5, GROUP_12, QCIF_HEADER, SMALL, Sent,
};
use io_edge::{MemSink, MemSource};
use pel_model::Format::{self, Cif, Qcif};
use rtp_h261::{UnitEnd, UnitStop, UnitTally};
use std::alloc::{AllocError, Global};
use std::test::Fail;

/// Groups 1, 3 and 5 are grey: all of QCIF, and the top left quarter of CIF.
const ALL_GREY: [(&str, u32); 7] = [
    (QCIF_HEADER, 1),
    (GROUP_1, 1),
    (GREY, 33),
    (GROUP_3, 1),
    (GREY, 33),
    (GROUP_5, 1),
    (GREY, 33),
];

const QUARTER_GREY: [(&str, u32); 9] = [
    (CIF_HEADER, 1),
    (GROUP_1, 1),
    (GREY, 33),
    (GROUP_3, 1),
    (GREY, 33),
    (GROUP_5, 1),
    (GREY, 33),
    (GROUP_12, 1),
    (SMALL, 1),
];

const SMALL_ALONE: [(&str, u32); 3] = [(QCIF_HEADER, 1), (GROUP_1, 1), (SMALL, 1)];

/// A picture start code and nothing behind it.
const START: [(&str, u32); 1] = [("00000000000000010000", 1)];

// Puts a packet of one picture with this sequence number behind others, its length before it.
fn put_packet(
    alloc: Global,
    stream: &mut Vec<u8>,
    number: u8,
    pieces: &[(&str, u32)],
) -> Result<(), AllocError> {
    let sent = Sent::of(alloc, pieces)?;
    let size = sent.octets.len().min(60_000) + 16;
    stream.extend_from_slice(&[(size / 256) as u8, (size % 256) as u8])?;
    stream.extend_from_slice(&[0x80, 0x9f, 0, number, 0, 0, 0, number, 0, 0, 0, 1])?;
    let spare_bits = (8 - sent.len % 8) % 8;
    stream.extend_from_slice(&[spare_bits as u8 * 4 + 1, 0, 0, 0])?;
    stream.extend_from_slice(sent.octets.as_slice())
}

// Decodes a stream, and gives how the reading ended and what was written. The sink takes 20,000 octets a call.
fn decode(
    alloc: Global,
    format: Format,
    octets: Vec<u8>,
    write_fails: u64,
    budget: u32,
) -> Result<(UnitEnd, Vec<u8>), Fail> {
    let mut source = MemSource::new(octets, Vec::new(alloc), 1000);
    let mut sink = MemSink::reserve(alloc, 160_000, vec![in alloc; write_fails]?, 20_000)?;
    let end = decode_frames(alloc, format, &mut source, &mut sink, u64::from(budget));
    let mut written = Vec::new(alloc);
    written.extend_from_slice(sink.bytes())?;
    Ok((end, written))
}

fn ended(stop: UnitStop, pictures: u64, gaps: u64, octets: u64) -> UnitEnd {
    UnitEnd {
        stop,
        tally: UnitTally {
            pictures,
            gaps,
            octets,
        },
    }
}

#[test]
fn decode_grey_and_small(rt: HostRuntime) -> Result<(), Fail> {
    let alloc = rt.alloc();
    let mut stream = Vec::new(alloc);
    put_packet(alloc, &mut stream, 0, &ALL_GREY)?;
    put_packet(alloc, &mut stream, 1, &SMALL_ALONE)?;
    let (end, written) = decode(alloc, Qcif, stream, 0, 2000)?;
    assert_eq!(rt; end, ended(UnitStop::Done, 2, 0, 76_032));
    assert_eq!(rt; written.len(), 76_032);
    for (k, sample) in written.as_slice().iter().enumerate() {
        let place = k % 38_016;
        let raised = k >= 38_016 && place / 176 < 8 && place % 176 < 8;
        assert_eq!(rt; *sample, if raised { 131 } else { 128 }, "at {k}");
    }
    Ok(())
}

#[test]
fn decode_a_quarter_of_cif(rt: HostRuntime) -> Result<(), Fail> {
    let alloc = rt.alloc();
    let mut stream = Vec::new(alloc);
    put_packet(alloc, &mut stream, 0, &QUARTER_GREY)?;
    let (end, written) = decode(alloc, Cif, stream, 0, 2000)?;
    assert_eq!(rt; end, ended(UnitStop::Done, 1, 0, 152_064));
    assert_eq!(rt; written.len(), 152_064);
    let planes = written.as_slice();
    for (sample, count) in [(128, 38_016), (3, 64), (0, 152_064 - 38_016 - 64)] {
        assert_eq!(rt;
            planes.iter().filter(|other| **other == sample).count(),
            count
        );
    }
    for (x, y, sample) in [(175, 143, 128), (176, 144, 0), (176, 240, 3), (183, 247, 3)] {
        assert_eq!(rt; planes.get(352 * y + x), Some(&sample), "at {x}, {y}");
    }
    Ok(())
}

#[test]
fn nothing_at_a_loss_or_a_gap(rt: HostRuntime) -> Result<(), Fail> {
    let alloc = rt.alloc();
    let mut stream = Vec::new(alloc);
    put_packet(alloc, &mut stream, 7, &SMALL_ALONE)?;
    put_packet(alloc, &mut stream, 9, &START)?;
    put_packet(alloc, &mut stream, 10, &SMALL_ALONE)?;
    let (end, written) = decode(alloc, Qcif, stream, 0, 2000)?;
    assert_eq!(rt; end, ended(UnitStop::Done, 2, 2, 76_032));
    assert_eq!(rt; written.len(), 76_032);
    assert_eq!(rt;
        (written.first(), written.get(38_016)),
        (Some(&3), Some(&6)),
        "the second picture is added to the first"
    );
    Ok(())
}

#[test]
fn ends_of_the_reading(rt: HostRuntime) -> Result<(), Fail> {
    let alloc = rt.alloc();
    // two packets of 27 octets; the planes of a picture take two writes
    for (len, write_fails, budget, stop, pictures, octets, written_len) in [
        (54, 0, 99, UnitStop::Done, 2, 76_032, 76_032),
        (53, 0, 99, UnitStop::Cut { place: 53 }, 1, 38_016, 38_016),
        (0, 0, 99, UnitStop::Done, 0, 0, 0),
        (54, 0, 54, UnitStop::Limit, 2, 76_032, 76_032),
        (54, 0, 53, UnitStop::Limit, 1, 38_016, 38_016),
        (54, 1, 99, UnitStop::WriteFault, 1, 0, 0),
        (54, 2, 99, UnitStop::WriteFault, 1, 0, 20_000),
        (54, 3, 99, UnitStop::WriteFault, 2, 38_016, 38_016),
        (54, 4, 99, UnitStop::WriteFault, 2, 38_016, 58_016),
    ] {
        let mut stream = Vec::new(alloc);
        put_packet(alloc, &mut stream, 7, &SMALL_ALONE)?;
        put_packet(alloc, &mut stream, 8, &SMALL_ALONE)?;
        stream.truncate(len);
        let (end, written) = decode(alloc, Qcif, stream, write_fails, budget)?;
        assert_eq!(rt; end, ended(stop, pictures, 0, octets));
        assert_eq!(rt; written.len(), written_len);
    }
    Ok(())
}
