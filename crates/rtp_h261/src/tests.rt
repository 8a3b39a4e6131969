//! Packets of small pictures as senders send them and networks deliver them, and octets that are no packets.

use crate::{Depack, Fed, PayloadHeader, Unit, read_payload, write_payload};
use h261_pic::Coded;
use pel_model::Fault;
use pel_model::Format::{Cif, Qcif};
use pel_model::Why::{Cut, TooLong, WrongFormat};
use std::alloc::{AllocError, Global};
use std::test::Fail;

/// A QCIF picture of 120 bits: TR 1, three groups with quantiser 8, one Inter macroblock.
const SMALL: &str =
    "000000000000000100000000100001100000000000000001000101000011101010100000000000000001001101000000000000000000010101010000";

/// Its bits up to the 60th, and those behind it.
const FRONT: &str = "000000000000000100000000100001100000000000000001000101000011";

const BACK: &str = "101010100000000000000001001101000000000000000000010101010000";

/// A picture start code and nothing behind it.
const START: &str = "00000000000000010000";

/// The headers of a QCIF picture and of its three groups, with quantiser 8.
const HEADER: &str = "00000000000000010000 00001 000011 0";

const GROUPS: [&str; 3] = [
    "0000000000000001 0001 01000 0",
    "0000000000000001 0011 01000 0",
    "0000000000000001 0101 01000 0",
];

/// An Intra macroblock's address and type, and the INTRADC that gives 128.
const INTRA: &str = "1 0001";

const GREY: &str = "11111111";

const END_OF_BLOCK: &str = "10";

/// A coefficient of run 0 and level 16.
const ESCAPE: &str = "000001 000000 00010000";

/// What a packet gives.
#[derive(Clone, Copy)]
enum Gives {
    Nothing,
    Lost,
    Picture,
    LostAndPicture,
    Gap(u32),
}

use Gives::{Gap, Lost, LostAndPicture, Nothing, Picture};

impl Gives {
    fn fed(self) -> Fed {
        Fed {
            lost: matches!(self, Lost | LostAndPicture),
            unit: match self {
                Nothing | Lost => None,
                Picture | LostAndPicture => Some(Unit::Picture),
                Gap(place) => Some(Unit::Gap(Fault { place, why: Cut })),
            },
        }
    }
}

/// A packet: its sequence number, timestamp, marker bit, SBIT and bits, and what it gives.
#[derive(Clone, Copy)]
struct Row(u16, u8, bool, u8, &'static str, Gives);

/// A packet of H.261 that is put together from digits. What is no digit is passed over.
#[derive(Drop)]
struct Sent {
    octets: Vec<u8>,
    len: u32,
}

impl Sent {
    /// A packet without bits, the first of which is to stand behind `sbit` others.
    fn begin(
        alloc: Global,
        number: u16,
        stamp: u8,
        marker: bool,
        sbit: u8,
    ) -> Result<Sent, AllocError> {
        let mut octets = Vec::new(alloc);
        octets.push(0x80)?;
        octets.push(if marker { 0x9f } else { 0x1f })?;
        octets.push((number >> 8) as u8)?;
        octets.push((number & 0xff) as u8)?;
        octets.extend_from_slice(&[0, 0, 0, stamp, 0, 0, 0, 1])?;
        octets.extend_from_slice(&[(sbit & 7) << 5 | 1, 0, 0, 0])?;
        if sbit & 7 != 0 {
            octets.push(0)?;
        }
        Ok(Sent {
            octets,
            len: u32::from(sbit & 7),
        })
    }

    fn put(&mut self, digits: &str) -> Result<(), AllocError> {
        for digit in digits.bytes().filter(|digit| matches!(digit, b'0' | b'1')) {
            if self.len % 8 == 0 {
                self.octets.push(0)?;
            }
            if let Some(last) = self.octets.last_mut() {
                *last |= (digit - b'0') << (7 - self.len % 8);
            }
            self.len = self.len.wrapping_add(1);
        }
        Ok(())
    }

    fn put_times(&mut self, digits: &str, times: u32) -> Result<(), AllocError> {
        for _ in 0..times {
            self.put(digits)?;
        }
        Ok(())
    }

    /// So many Intra macroblocks, each block with INTRADC and so many escapes.
    fn put_grey(&mut self, macroblocks: u32, escapes: u32) -> Result<(), AllocError> {
        for _ in 0..macroblocks {
            self.put(INTRA)?;
            for _ in 0..6 {
                self.put_grey_block(escapes)?;
            }
        }
        Ok(())
    }

    fn put_grey_block(&mut self, escapes: u32) -> Result<(), AllocError> {
        self.put(GREY)?;
        self.put_times(ESCAPE, escapes)?;
        self.put(END_OF_BLOCK)
    }

    /// The octets of the whole packet, EBIT included.
    fn octets(&mut self) -> &[u8] {
        let ebit = ((8 - self.len % 8) % 8) as u8;
        if let Some(first) = self.octets.get_mut(12) {
            *first |= ebit << 2;
        }
        self.octets.as_slice()
    }
}

/// The packet of a row.
fn packet(alloc: Global, row: &Row) -> Result<Sent, AllocError> {
    let Row(number, stamp, marker, sbit, digits, _) = row;
    let mut sent = Sent::begin(alloc, *number, *stamp, *marker, *sbit)?;
    sent.put(digits)?;
    Ok(sent)
}

/// Feeds packets to a depacketiser of its own: the number of the first that gives something else, or leaves something else
/// in the picture.
fn first_wrong(alloc: Global, rows: &[Row]) -> Result<Option<u16>, Fail> {
    let mut depack = Depack::reserve(alloc, Qcif)?;
    let mut coded = Coded::reserve(alloc, Qcif)?;
    let mut len = 0;
    for row in rows {
        let Row(number, _, _, _, _, gives) = row;
        let mut sent = packet(alloc, row)?;
        let fed = depack.feed(sent.octets(), &mut coded);
        match gives {
            Picture | LostAndPicture => len = 120,
            Gap(_) => len = 0,
            Nothing | Lost => {}
        }
        if fed != gives.fed() || coded.bits().len() != len {
            return Ok(Some(*number));
        }
    }
    Ok(None)
}

#[test]
fn lost_middle_packet(rt: HostRuntime) -> Result<(), Fail> {
    let rows = [
        Row(0, 10, false, 0, FRONT, Nothing),
        Row(1, 10, true, 4, BACK, Picture),
        Row(2, 20, false, 0, FRONT, Nothing),
        Row(4, 30, true, 0, SMALL, LostAndPicture),
        Row(5, 40, true, 0, SMALL, Picture),
    ];
    assert_eq!(rt; first_wrong(rt.alloc(), &rows)?, None);
    Ok(())
}

#[test]
fn late_and_repeated_packets(rt: HostRuntime) -> Result<(), Fail> {
    let rows = [
        Row(65535, 10, true, 0, SMALL, Picture),
        Row(65535, 10, true, 0, SMALL, Nothing),
        Row(0, 20, false, 0, FRONT, Nothing),
        Row(32769, 20, true, 0, SMALL, Nothing),
        Row(65535, 10, true, 0, SMALL, Nothing),
        Row(1, 20, true, 4, BACK, Picture),
        Row(32769, 30, true, 0, SMALL, LostAndPicture),
    ];
    assert_eq!(rt; first_wrong(rt.alloc(), &rows)?, None);
    Ok(())
}

#[test]
fn packets_that_end_a_run(rt: HostRuntime) -> Result<(), Fail> {
    let rows = [
        Row(7, 10, true, 0, "01", Nothing),
        Row(9, 10, false, 0, FRONT, Nothing),
        Row(10, 20, true, 4, BACK, Lost),
        Row(12, 30, false, 0, FRONT, Nothing),
        Row(13, 40, true, 0, SMALL, LostAndPicture),
        Row(14, 50, true, 0, "", Lost),
        Row(15, 60, true, 3, SMALL, Picture),
    ];
    assert_eq!(rt; first_wrong(rt.alloc(), &rows)?, None);
    Ok(())
}

#[test]
fn units_that_are_no_pictures(rt: HostRuntime) -> Result<(), Fail> {
    let rows = [
        Row(0, 10, true, 0, SMALL, Picture),
        Row(1, 20, true, 0, START, Gap(20)),
        Row(2, 30, false, 0, START, Nothing),
        Row(3, 30, false, 0, "", Nothing),
        Row(4, 30, true, 5, "0000", Gap(20)),
        Row(5, 40, true, 0, SMALL, Picture),
    ];
    assert_eq!(rt; first_wrong(rt.alloc(), &rows)?, None);
    Ok(())
}

#[test]
fn octets_that_change_nothing(rt: HostRuntime) -> Result<(), Fail> {
    let mut depack = Depack::reserve(rt.alloc(), Qcif)?;
    let mut coded = Coded::reserve(rt.alloc(), Qcif)?;
    let mut front = packet(rt.alloc(), &Row(0, 10, false, 0, FRONT, Nothing))?;
    depack.feed(front.octets(), &mut coded);
    for (size, first, last) in [
        (0, 0, 0),
        (12, 0x40, 0),
        (12, 0x8f, 0),
        (15, 0x90, 0),
        (13, 0xa0, 0),
        (13, 0xa0, 0xff),
        (15, 0x80, 0),
    ] {
        let mut octets = [0; 15];
        octets[0] = first;
        if size == 13 {
            octets[12] = last;
        }
        let fed = depack.feed(&octets[..size], &mut coded);
        assert_eq!(rt; fed, Nothing.fed(), "{size} octets from {first} on");
    }
    // SBIT 1 of no bits
    let fed = depack.feed(
        &[0x80, 0x9f, 0, 1, 0, 0, 0, 10, 0, 0, 0, 1, 0x20, 0, 0, 0],
        &mut coded,
    );
    assert_eq!(rt; fed, Nothing.fed());
    let mut back = packet(rt.alloc(), &Row(1, 10, true, 4, BACK, Nothing))?;
    assert_eq!(rt; depack.feed(back.octets(), &mut coded), Picture.fed());
    Ok(())
}

#[test]
fn cut_after_the_first_macroblock(rt: HostRuntime) -> Result<(), Fail> {
    let mut whole = Sent::begin(rt.alloc(), 0, 10, true, 0)?;
    whole.put(HEADER)?;
    for group in GROUPS {
        whole.put(group)?;
        whole.put_grey(33, 0)?;
    }
    let mut first = Sent::begin(rt.alloc(), 1, 20, false, 0)?;
    first.put(HEADER)?;
    first.put(GROUPS[0])?;
    first.put_grey(1, 0)?;
    let mut second = Sent::begin(rt.alloc(), 2, 20, true, 3)?;
    second.put_grey(32, 0)?;
    for group in [GROUPS[1], GROUPS[2]] {
        second.put(group)?;
        second.put_grey(33, 0)?;
    }
    let mut depack = Depack::reserve(rt.alloc(), Qcif)?;
    let mut coded = Coded::reserve(rt.alloc(), Qcif)?;
    assert_eq!(rt; depack.feed(whole.octets(), &mut coded), Picture.fed());
    assert_eq!(rt; coded.bits().len(), 6545);
    assert_eq!(rt; Some(coded.octets()), whole.octets().get(16..));
    coded.clear();
    assert_eq!(rt; depack.feed(first.octets(), &mut coded), Nothing.fed());
    assert_eq!(rt; depack.feed(second.octets(), &mut coded), Picture.fed());
    assert_eq!(rt; Some(coded.octets()), whole.octets().get(16..));
    assert_eq!(rt;
        (first.octets().len(), second.octets().len()),
        (16 + 16, 16 + 804)
    );
    let places = (
        first.octets().get(12).copied(),
        second.octets().get(12).copied(),
    );
    assert_eq!(rt; places, (Some(0x15), Some(0x7d)));
    Ok(())
}

/// A picture of 65,537 bits, whose last code begins at bit 65,535.
#[test]
fn one_bit_over_the_limit(rt: HostRuntime) -> Result<(), Fail> {
    let mut sent = Sent::begin(rt.alloc(), 0, 10, true, 0)?;
    sent.put(HEADER)?;
    for (group, macroblocks) in [(GROUPS[0], 33), (GROUPS[1], 33), (GROUPS[2], 32)] {
        sent.put(group)?;
        sent.put_grey(macroblocks, 5)?;
    }
    sent.put(INTRA)?;
    for escapes in [5, 4, 0, 0, 0] {
        sent.put_grey_block(escapes)?;
    }
    sent.put("11111111 0110 0110 0110 10")?;
    assert_eq!(rt; sent.len, 65_537);
    let mut depack = Depack::reserve(rt.alloc(), Qcif)?;
    let mut coded = Coded::reserve(rt.alloc(), Qcif)?;
    let fault = Fault {
        place: 65_535,
        why: TooLong,
    };
    let gap = Fed {
        lost: false,
        unit: Some(Unit::Gap(fault)),
    };
    assert_eq!(rt; depack.feed(sent.octets(), &mut coded), gap);
    assert!(rt; coded.is_empty());
    Ok(())
}

#[test]
fn pictures_of_the_other_format(rt: HostRuntime) -> Result<(), Fail> {
    let mut depack = Depack::reserve(rt.alloc(), Cif)?;
    let mut coded = Coded::reserve(rt.alloc(), Cif)?;
    let mut sent = packet(rt.alloc(), &Row(0, 10, true, 0, SMALL, Nothing))?;
    let fed = depack.feed(sent.octets(), &mut coded);
    let fault = Fault {
        place: 25,
        why: WrongFormat,
    };
    assert_eq!(rt; fed.unit, Some(Unit::Gap(fault)));
    assert!(rt; coded.is_empty());
    Ok(())
}

#[test]
fn payload_headers(rt: HostRuntime) -> Result<(), Fail> {
    let header = |sbit, ebit, i, gobn, mbap, quant, (hmvd, vmvd)| PayloadHeader {
        sbit,
        ebit,
        i,
        v: !i,
        gobn,
        mbap,
        quant,
        hmvd,
        vmvd,
    };
    for (octets, want) in [
        ([0x15, 0, 0, 0], header(0, 5, false, 0, 0, 0, (0, 0))),
        ([0x6d, 0x60, 0xa0, 0], header(3, 3, false, 6, 1, 8, (0, 0))),
        ([0xb1, 0xb2, 0x20, 0], header(5, 4, false, 11, 4, 8, (0, 0))),
        (
            [0xe6, 0xff, 0xc6, 0x2f],
            header(7, 1, true, 15, 31, 17, (-15, 15)),
        ),
    ] {
        assert_eq!(rt; read_payload(&octets), Some(want));
    }
    assert_eq!(rt; read_payload(&[0x15, 0, 0]), None);
    let mut octets = [0; 4];
    write_payload(
        PayloadHeader {
            sbit: 7,
            ebit: 1,
            i: true,
            v: false,
            gobn: 15,
            mbap: 31,
            quant: 17,
            hmvd: -15,
            vmvd: 15,
        },
        &mut octets,
    );
    assert_eq!(rt; octets, [0xe6, 0xff, 0xc6, 0x2f]);
    Ok(())
}
