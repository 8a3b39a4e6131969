//! Streams of small pictures, read in pieces, and texts written: places, reasons and octets as an independent model has them.

ghost use Rattle.std.specs.Prelude.{◌≡◌, ◌<◌, IfOk};
ghost use Rattle.h261_pic.specs.Coded.{IsFinished};
ghost use Rattle.pel_model.specs.declared.Format.TheVariants.{Qcif as QcifFormat};

use crate::{Bare, BareEnd, TextWriter};
use h261_pic::{Coded, parse};
use io_edge::{MemSink, MemSource};
use pel_bits::Bits;
use pel_model::Format::Qcif;
use pel_model::Why;
use std::alloc::{AllocError, Global};
use std::test::Fail;

/// QCIF pictures with TR 1 and TR 2, whose groups have GQUANT 8 and no macroblocks: 110 bits each.
const FIRST: &str = "00000000000000010000 00001 000011 0 0000000000000001 0001 01000 0 \
                     0000000000000001 0011 01000 0 0000000000000001 0101 01000 0";

const SECOND: &str = "00000000000000010000 00010 000011 0 0000000000000001 0001 01000 0 \
                      0000000000000001 0011 01000 0 0000000000000001 0101 01000 0";

/// Both, with no bit between and four zeros behind.
const BOTH: [u8; 28] = [
    0, 1, 0, 134, 0, 1, 20, 0, 0, 77, 0, 0, 21, 64, 0, 4, 4, 24, 0, 4, 80, 0, 1, 52, 0, 0, 85, 0,
];

/// Digits as octets, the last filled up with zeros. What is no digit is passed over.
fn octets(alloc: Global, pieces: &[&str]) -> Result<Vec<u8>, AllocError> {
    let mut octets = Vec::new(alloc);
    let mut len: u32 = 0;
    for digits in pieces {
        for digit in digits.bytes().filter(|digit| matches!(digit, b'0' | b'1')) {
            if len % 8 == 0 {
                octets.push(0)?;
            }
            if let Some(last) = octets.last_mut() {
                *last |= (digit - b'0') << (7 - len % 8);
            }
            len = len.wrapping_add(1);
        }
    }
    Ok(octets)
}

/// How many pictures a reader gives, three at most, and how it ends.
fn read(alloc: Global, mut source: MemSource, budget: u32) -> Result<(u32, Option<BareEnd>), Fail> {
    let mut picture = Coded::reserve(alloc, Qcif)?;
    let mut reader = Bare::reserve(alloc, Qcif, u64::from(budget))?;
    for given in 0..3_u32 {
        if let Err(end) = reader.next(&mut source, &mut picture) {
            return Ok((given, Some(end)));
        }
    }
    Ok((3, None))
}

/// The pieces of a stream, how many pictures it has, and how it ends.
struct Row {
    pieces: &'static [&'static str],
    pictures: u32,
    end: BareEnd,
}

const ROWS: [Row; 8] = [
    Row {
        pieces: &[],
        pictures: 0,
        end: BareEnd::End,
    },
    Row {
        pieces: &[FIRST, SECOND],
        pictures: 2,
        end: BareEnd::End,
    },
    // Up to seven zeros may stand behind a picture; eight may not.
    Row {
        pieces: &[FIRST, "0000000", SECOND],
        pictures: 2,
        end: BareEnd::End,
    },
    Row {
        pieces: &[FIRST, "0000000000"],
        pictures: 0,
        end: BareEnd::Bad {
            place: 110,
            why: Why::Cut,
        },
    },
    Row {
        pieces: &["0", FIRST],
        pictures: 0,
        end: BareEnd::Bad {
            place: 0,
            why: Why::NoStart,
        },
    },
    Row {
        pieces: &[FIRST, "111111111111111111"],
        pictures: 0,
        end: BareEnd::Bad {
            place: 126,
            why: Why::Cut,
        },
    },
    // The place of a fault is counted from the stream's first bit.
    Row {
        pieces: &[FIRST, "0000000000000001000000010000011000000000"],
        pictures: 1,
        end: BareEnd::Bad {
            place: 142,
            why: Why::Cut,
        },
    },
    Row {
        pieces: &[FIRST, SECOND, "000000011111111111"],
        pictures: 1,
        end: BareEnd::Bad {
            place: 238,
            why: Why::Cut,
        },
    },
];

#[test]
fn streams_end(rt: HostRuntime) -> Result<(), Fail> {
    let alloc = rt.alloc();
    for row in &ROWS {
        for piece in [1, 5, 100] {
            let source = MemSource::new(octets(alloc, row.pieces)?, Vec::new(alloc), piece);
            assert_eq!(rt; read(alloc, source, 1000)?, (row.pictures, Some(row.end)));
        }
    }
    Ok(())
}

#[test]
fn faults_and_limits(rt: HostRuntime) -> Result<(), Fail> {
    let alloc = rt.alloc();
    // The second picture is not given, since nothing says that it is whole.
    for (budget, pictures) in [(0, 0), (16, 0), (17, 1), (28, 1)] {
        let source = MemSource::new(octets(alloc, &[FIRST, SECOND])?, Vec::new(alloc), 100);
        assert_eq!(rt;
            read(alloc, source, budget)?,
            (pictures, Some(BareEnd::Limit))
        );
    }
    for (call, pictures) in [(1, 0), (2, 0), (3, 1), (4, 1)] {
        let fails = vec![in alloc; call]?;
        let source = MemSource::new(octets(alloc, &[FIRST, SECOND])?, fails, 10);
        assert_eq!(rt;
            read(alloc, source, 1000)?,
            (pictures, Some(BareEnd::Fault))
        );
    }
    Ok(())
}

/// Reads a picture from digits.
fn fill(alloc: Global, digits: &str, picture: &mut Coded) -> Result<(), Fail>
    requires { picture.old.format ≡ QcifFormat }
    ensures { IfOk result (λ _. (picture.new.format ≡ QcifFormat) × IsFinished picture.new) }
{
    let octets = octets(alloc, &[digits])?;
    let len = 8 * octets.len().min(1000) as u32;
    parse(Bits::new(&octets, 0, len), Qcif, picture)?;
    Ok(())
}

#[test]
fn texts_are_joined(rt: HostRuntime) -> Result<(), Fail> {
    let alloc = rt.alloc();
    for piece in [1, 10, 100] {
        let mut picture = Coded::reserve(alloc, Qcif)?;
        let mut writer = TextWriter::reserve(alloc)?;
        let mut sink = MemSink::reserve(alloc, 100, Vec::new(alloc), piece)?;
        fill(alloc, FIRST, &mut picture)?;
        assert_eq!(rt; writer.put(&picture, &mut sink)?, 13);
        fill(alloc, SECOND, &mut picture)?;
        assert_eq!(rt; writer.put(&picture, &mut sink)?, 14);
        assert_eq!(rt; writer.finish(&mut sink)?, 1);
        assert_eq!(rt; sink.bytes(), BOTH.as_slice());
        assert_eq!(rt; writer.finish(&mut sink)?, 0);
    }
    Ok(())
}

#[test]
fn a_failed_write_is_told(rt: HostRuntime) -> Result<(), Fail> {
    let alloc = rt.alloc();
    let mut picture = Coded::reserve(alloc, Qcif)?;
    let mut writer = TextWriter::reserve(alloc)?;
    let mut sink = MemSink::reserve(alloc, 100, vec![in alloc; 2]?, 10)?;
    fill(alloc, FIRST, &mut picture)?;
    assert!(rt; writer.put(&picture, &mut sink).is_err());
    assert_eq!(rt; sink.bytes(), &BOTH[..10]);
    Ok(())
}
