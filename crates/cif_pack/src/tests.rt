//! Packets of pictures against those of an independent model, and sinks that fail.

ghost use Rattle.std.specs.Prelude.{◌≡◌, ◌^◌, ◌<◌, ◌≤◌, IfOk};
ghost use Rattle.h261_pic.specs.Coded.{IsFinished};
ghost use Rattle.pel_model.specs.declared.Format.TheVariants.{Cif as CifFormat};

use crate::{Packer, Settings};
use h261_pic::{Coded, parse};
use io_edge::MemSink;
use pel_bits::Bits;
use pel_model::Format::Cif;
use std::alloc::{AllocError, Global};
use std::process::Abort;
use std::test::Fail;

/// What is sent of the macroblocks of a CIF picture with GQUANT 8.
#[derive(Clone, Copy)]
enum Sample {
    /// None.
    Empty,
    /// All, each Intra with INTRADC 255 in its six blocks.
    Greys,
    /// The same, but those with the addresses 2, 4, 6, 8 and 10 of each group have the vector (-1, 1) and no blocks.
    Moving,
}

use Sample::{Empty, Greys, Moving};

/// Appends the bits that stand as digits.
fn put(bits: &mut Vec<u8>, len: &mut u32, digits: &str) -> Result<(), AllocError> {
    for digit in digits.bytes() {
        if *len % 8 == 0 {
            bits.push(0)?;
        }
        if let Some(last) = bits.last_mut() {
            *last |= (digit & 1) << (7 - *len % 8);
        }
        *len = len.wrapping_add(1);
    }
    Ok(())
}

/// Parses a sample.
fn fill(alloc: Global, sample: Sample, picture: &mut Coded) -> Result<(), Fail>
    requires { picture.old.format ≡ CifFormat }
    ensures { IfOk result (λ _. (picture.new.format ≡ CifFormat) × IsFinished picture.new) }
{
    let mut octets = Vec::new(alloc);
    let mut len = 0;
    put(&mut octets, &mut len, "00000000000000010000000010001110")?;
    for number in [
        "0001", "0010", "0011", "0100", "0101", "0110", "0111", "1000", "1001", "1010", "1011",
        "1100",
    ] {
        put(&mut octets, &mut len, "0000000000000001")?;
        put(&mut octets, &mut len, number)?;
        put(&mut octets, &mut len, "010000")?;
        for address in 1..34_u32 {
            match sample {
                Empty => {}
                Moving if address % 2 == 0 && address < 11 => {
                    put(&mut octets, &mut len, "1000000001011010")?;
                }
                _ => {
                    put(&mut octets, &mut len, "10001")?;
                    for _ in 0..6 {
                        put(&mut octets, &mut len, "1111111110")?;
                    }
                }
            }
        }
    }
    let most = 8 * octets.len().min(100_000) as u32;
    parse(Bits::new(&octets, 0, len.min(most)), Cif, picture)?;
    Ok(())
}

/// A picture, how it is sent, the most octets that the sink takes a call, and what comes out: the number of packets and of
/// octets, and the octets as the digits of a number of base 31, modulo 2^32.
struct Row {
    sample: Sample,
    settings: Settings,
    total: u64,
    piece: usize,
    packets: u64,
    octets: u64,
    sum: u32,
}

/// The octets as the digits of a number of base 31, modulo 2^32.
fn sum_of(octets: &[u8]) -> u32 {
    let mut sum: u32 = 0;
    for octet in octets {
        sum = sum.wrapping_mul(31).wrapping_add(u32::from(*octet));
    }
    sum
}

fn try_row(rt: &impl Abort, alloc: Global, row: &Row) -> Result<(), Fail>
    requires mtu { (1000 ≤ row.now.settings.mtu) × (row.now.settings.mtu ≤ 9000) }
    requires total { row.now.total ≤ 2 ^ 50 }
    requires piece { 0 < row.now.piece }
{
    let mut picture = Coded::reserve(alloc, Cif)?;
    fill(alloc, row.sample, &mut picture)?;
    let mut packer = Packer::reserve(alloc, row.settings)?;
    let mut sink = MemSink::reserve(alloc, 10_000, Vec::new(alloc), row.piece)?;
    let sent = packer.pack(&picture, row.total, &mut sink)?;
    assert_eq!(rt; (sent.packets, sent.octets), (row.packets, row.octets));
    assert_eq!(rt;
        (sink.bytes().len() as u64, sum_of(sink.bytes())),
        (row.octets, row.sum)
    );
    Ok(())
}

const SSRC: u32 = 1_211_250_225;

#[test]
fn three_packets_of_four_greys(rt: HostRuntime) -> Result<(), Fail> {
    try_row(
        &rt,
        rt.alloc(),
        &Row {
            sample: Greys,
            settings: Settings {
                mtu: 1400,
                seq: 0,
                stamp: 0,
                ssrc: SSRC,
            },
            total: 1,
            piece: 4000,
            packets: 3,
            octets: 3317,
            sum: 3_586_573_003,
        },
    )
}

#[test]
fn sequence_numbers_and_timestamps_wrap(rt: HostRuntime) -> Result<(), Fail> {
    try_row(
        &rt,
        rt.alloc(),
        &Row {
            sample: Greys,
            settings: Settings {
                mtu: 1000,
                seq: 65535,
                stamp: 4_294_967_295,
                ssrc: SSRC,
            },
            total: 3,
            piece: 1,
            packets: 4,
            octets: 3336,
            sum: 3_962_810_726,
        },
    )
}

#[test]
fn whole_picture_in_one_packet_at_the_greatest_total(rt: HostRuntime) -> Result<(), Fail> {
    try_row(
        &rt,
        rt.alloc(),
        &Row {
            sample: Greys,
            settings: Settings {
                mtu: 9000,
                seq: 7,
                stamp: 0,
                ssrc: SSRC,
            },
            total: 1_125_899_906_842_624,
            piece: 4000,
            packets: 1,
            octets: 3279,
            sum: 3_650_766_313,
        },
    )
}

#[test]
fn cut_on_the_border_of_an_octet(rt: HostRuntime) -> Result<(), Fail> {
    try_row(
        &rt,
        rt.alloc(),
        &Row {
            sample: Greys,
            settings: Settings {
                mtu: 1010,
                seq: 0,
                stamp: 0,
                ssrc: SSRC,
            },
            total: 1,
            piece: 7,
            packets: 4,
            octets: 3334,
            sum: 2_435_742_717,
        },
    )
}

#[test]
fn cuts_behind_macroblocks_with_a_vector(rt: HostRuntime) -> Result<(), Fail> {
    try_row(
        &rt,
        rt.alloc(),
        &Row {
            sample: Moving,
            settings: Settings {
                mtu: 1000,
                seq: 65535,
                stamp: 4_294_967_295,
                ssrc: SSRC,
            },
            total: 3,
            piece: 4000,
            packets: 3,
            octets: 2949,
            sum: 2_179_601_229,
        },
    )
}

#[test]
fn cuts_behind_a_vector_and_behind_none(rt: HostRuntime) -> Result<(), Fail> {
    try_row(
        &rt,
        rt.alloc(),
        &Row {
            sample: Moving,
            settings: Settings {
                mtu: 1020,
                seq: 0,
                stamp: 0,
                ssrc: SSRC,
            },
            total: 1,
            piece: 4000,
            packets: 3,
            octets: 2949,
            sum: 714_603_847,
        },
    )
}

#[test]
fn picture_that_sends_nothing(rt: HostRuntime) -> Result<(), Fail> {
    try_row(
        &rt,
        rt.alloc(),
        &Row {
            sample: Empty,
            settings: Settings {
                mtu: 1400,
                seq: 0,
                stamp: 0,
                ssrc: SSRC,
            },
            total: 1,
            piece: 4000,
            packets: 1,
            octets: 61,
            sum: 2_176_560_158,
        },
    )
}

/// Sends the greys where the sink fails one call, and tells how many octets were written.
fn try_fault(rt: &HostRuntime, call: u64) -> Result<Option<usize>, Fail> {
    let alloc = rt.alloc();
    let mut picture = Coded::reserve(alloc, Cif)?;
    fill(alloc, Greys, &mut picture)?;
    let settings = Settings {
        mtu: 1400,
        seq: 0,
        stamp: 0,
        ssrc: SSRC,
    };
    let mut packer = Packer::reserve(alloc, settings)?;
    let mut fails = Vec::new(alloc);
    fails.push(call)?;
    let mut sink = MemSink::reserve(alloc, 10_000, fails, 4000)?;
    match packer.pack(&picture, 1, &mut sink) {
        Ok(_) => Ok(None),
        Err(_) => Ok(Some(sink.bytes().len())),
    }
}

#[test]
fn each_packet_is_one_write(rt: HostRuntime) -> Result<(), Fail> {
    for (call, written) in [(1, Some(0)), (2, Some(1399)), (3, Some(2799)), (4, None)] {
        assert_eq!(rt; try_fault(&rt, call)?, written);
    }
    Ok(())
}
