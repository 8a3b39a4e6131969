//! Composed pictures, bit by bit: what is expected is put together from the digits of headers and macroblocks.

ghost use Rattle.std.specs.Prelude.{◌≡◌, ◌<◌, IfOk};
ghost use Rattle.h261_pic.specs.Coded.{nothing, IsFinished};
ghost use Rattle.pel_model.specs.declared.Format.TheVariants.{Qcif};
ghost use Rattle.cif_mix.specs.Rows.{IsFinishedQcif};

use crate::compose;
use h261_pic::{Coded, Hand, parse};
use pel_bits::{Bits, NoMemory};
use pel_model::Format::{Cif, Qcif};
use std::alloc::{AllocError, Global};
use std::process::Abort;
use std::test::Fail;

/// A picture whose groups have quantiser 8: one block with level 1; all blocks with INTRADC 255; the same with coefficients
/// up to the limit of 65,536 bits.
#[derive(Clone, Copy)]
enum Sample {
    Small,
    Grey,
    Full,
}

use Sample::{Full, Grey, Small};

/// What the four boxes hold, which are shown, TR, and the bits and octets that are to come out.
struct Row {
    boxes: [Sample; 4],
    shown: [bool; 4],
    tr: u8,
    tr_digits: &'static str,
    bits: u32,
    octets: usize,
}

/// GN of groups 1 to 12, with the place, from 0 on, in which the group stands, and its place among the three of a QCIF
/// picture, from 0 on (H.261, 4.2.2).
const GROUPS: [(&str, usize, u32); 12] = [
    ("0001", 0, 0),
    ("0010", 1, 0),
    ("0011", 0, 1),
    ("0100", 1, 1),
    ("0101", 0, 2),
    ("0110", 1, 2),
    ("0111", 2, 0),
    ("1000", 3, 0),
    ("1001", 2, 1),
    ("1010", 3, 1),
    ("1011", 2, 2),
    ("1100", 3, 2),
];

/// Digits put together as bits. What is no digit is passed over.
#[derive(Drop)]
struct Sent {
    octets: Vec<u8>,
    len: u32,
}

impl Sent {
    fn new(alloc: Global) -> Sent {
        Sent {
            octets: Vec::new(alloc),
            len: 0,
        }
    }

    fn put(&mut self, digits: &str) -> Result<(), AllocError> {
        for digit in digits.bytes().filter(|digit| matches!(digit, b'0' | b'1')) {
            if self.len % 8 == 0 {
                self.octets.push(0)?;
            }
            if let Some(last) = self.octets.last_mut() {
                *last |= (digit - b'0') << (7 - self.len % 8);
            }
            self.len = self.len.wrapping_add(1);
        }
        Ok(())
    }

    fn put_times(&mut self, digits: &str, times: u32) -> Result<(), AllocError> {
        for _ in 0..times {
            self.put(digits)?;
        }
        Ok(())
    }

    fn put_header(&mut self, tr: &str, kind: &str) -> Result<(), AllocError> {
        self.put("00000000000000010000")?;
        self.put(tr)?;
        self.put(kind)?;
        self.put("0")
    }

    fn put_group_header(&mut self, number: &str, quant: &str) -> Result<(), AllocError> {
        self.put("0000000000000001")?;
        self.put(number)?;
        self.put(quant)?;
        self.put("0")
    }

    // The macroblocks of one of the three groups.
    fn put_macroblocks(&mut self, sample: Sample, third: u32) -> Result<(), AllocError> {
        match sample {
            Small => self.put_times("1 1 1010 10 10", u32::from(third == 0)),
            Grey => {
                for _ in 0..33 {
                    self.put("1 0001")?;
                    self.put_times("11111111 10", 6)?;
                }
                Ok(())
            }
            Full => {
                for macroblock in 0..33_u32 {
                    self.put("1 0001")?;
                    for block in 1..7_u32 {
                        self.put_full_block(
                            third.wrapping_mul(198).wrapping_add(macroblock * 6 + block),
                        )?;
                    }
                }
                Ok(())
            }
        }
    }

    // A block by its number in the picture, from 1 on: escapes of run 0 and level 16 in the first 590, and three short codes in
    // the last.
    fn put_full_block(&mut self, number: u32) -> Result<(), AllocError> {
        self.put("11111111")?;
        let escapes = match number {
            0..590 => 5,
            590 => 4,
            _ => 0,
        };
        self.put_times("000001 000000 00010000", escapes)?;
        self.put_times("110 0110 0110", u32::from(number == 594))?;
        self.put("10")
    }

    fn bits(&self) -> Bits<'_> {
        let most = 8 * self.octets.len().min(100_000) as u32;
        Bits::new(&self.octets, 0, self.len.min(most))
    }
}

// Parses a sample into a box.
fn fill(alloc: Global, sample: Sample, picture: &mut Coded) -> Result<(), Fail>
    requires { picture.old.format ≡ Qcif }
    ensures { IfOk result (λ _. IsFinishedQcif picture.new) }
{
    let mut sent = Sent::new(alloc);
    sent.put_header("00001", "000011")?;
    for (third, number) in (0_u32..3).zip(["0001", "0011", "0101"]) {
        sent.put_group_header(number, "01000")?;
        sent.put_macroblocks(sample, third)?;
    }
    parse(sent.bits(), Qcif, picture)?;
    Ok(())
}

// The text that is to come out.
fn expected(alloc: Global, row: &Row) -> Result<Sent, AllocError> {
    let mut sent = Sent::new(alloc);
    sent.put_header(row.tr_digits, "000111")?;
    for (number, place, third) in GROUPS {
        if row.shown.get(place) == Some(&true) {
            sent.put_group_header(number, "01000")?;
            if let Some(sample) = row.boxes.get(place) {
                sent.put_macroblocks(*sample, third)?;
            }
        } else {
            sent.put_group_header(number, "00001")?;
        }
    }
    Ok(sent)
}

// Composes as the row asks.
fn try_row(rt: &impl Abort, alloc: Global, row: &Row) -> Result<(), Fail>
    requires { row.now.tr < 32 }
{
    let mut hand = Hand::reserve(alloc)?;
    fill(alloc, row.boxes[0], &mut hand.one)?;
    fill(alloc, row.boxes[1], &mut hand.two)?;
    fill(alloc, row.boxes[2], &mut hand.three)?;
    fill(alloc, row.boxes[3], &mut hand.four)?;
    let mut whole = Coded::reserve(alloc, Cif)?;
    let [one, two, three, four] = row.shown;
    compose(&hand, one, two, three, four, row.tr, &mut whole);
    let want = expected(alloc, row)?;
    assert_eq!(rt; whole.octets(), want.octets.as_slice());
    assert_eq!(rt;
        (whole.bits().len(), whole.octets().len()),
        (row.bits, row.octets)
    );
    Ok(())
}

#[test]
fn nothing_shown(rt: HostRuntime) -> Result<(), Fail> {
    try_row(
        &rt,
        rt.alloc(),
        &Row {
            boxes: [Grey, Small, Grey, Small],
            shown: [false, false, false, false],
            tr: 1,
            tr_digits: "00001",
            bits: 344,
            octets: 43,
        },
    )
}

#[test]
fn grey_bottom_right(rt: HostRuntime) -> Result<(), Fail> {
    try_row(
        &rt,
        rt.alloc(),
        &Row {
            boxes: [Small, Small, Small, Grey],
            shown: [false, false, false, true],
            tr: 1,
            tr_digits: "00001",
            bits: 6779,
            octets: 848,
        },
    )
}

#[test]
fn crossed_places(rt: HostRuntime) -> Result<(), Fail> {
    try_row(
        &rt,
        rt.alloc(),
        &Row {
            boxes: [Grey, Small, Grey, Small],
            shown: [false, true, true, false],
            tr: 31,
            tr_digits: "11111",
            bits: 6789,
            octets: 849,
        },
    )
}

#[test]
fn four_full_pictures(rt: HostRuntime) -> Result<(), Fail> {
    try_row(
        &rt,
        rt.alloc(),
        &Row {
            boxes: [Full, Full, Full, Full],
            shown: [true, true, true, true],
            tr: 3,
            tr_digits: "00011",
            bits: 262_048,
            octets: 32_756,
        },
    )
}
