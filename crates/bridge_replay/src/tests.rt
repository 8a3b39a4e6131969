//! Worked conferences: what is written and counted of each. The counts are the product's worked values; what was written is
//! compared by its digest (FNV-1a of 64 bits) with what a model made apart from this program writes.

ghost use Rattle.std.specs.Prelude.{◌≤◌, ◌<◌};

use crate::{ReplayEnd, ReplayStop, Settings, Tally, replay};
use conf_file::EntryWhy;
use io_edge::{MemSink, MemSource};
use std::alloc::{AllocError, Global};
use std::test::Fail;

/// A QCIF picture with TR 1 and quantiser 8.
#[derive(Clone, Copy)]
pub enum Sample {
    /// All macroblocks are Intra, of INTRADC 255: 6,545 bits.
    Grey,
    /// One macroblock, which is not Intra: 120 bits.
    Small,
    /// As grey, with so many coefficients that it has 65,536 bits.
    Full,
    /// As full, with one bit more.
    Over,
}

use Sample::{Full, Grey, Over, Small};

// Appends digits as bits, one to each octet. What is no digit is passed over.
fn put(bits: &mut Vec<u8>, digits: &str) -> Result<(), AllocError> {
    for digit in digits.bytes().filter(|digit| matches!(digit, b'0' | b'1')) {
        bits.push(digit - b'0')?;
    }
    Ok(())
}

// Appends what the block with this number, from 1 to 594, has between its INTRADC and its end.
fn put_levels(bits: &mut Vec<u8>, sample: Sample, block: u32) -> Result<(), AllocError> {
    let escapes = match (sample, block) {
        (Full | Over, 1..=589) => 5,
        (Full | Over, 590) => 4,
        _ => 0,
    };
    for _ in 0..escapes {
        put(bits, "000001 000000 00010000")?;
    }
    match (sample, block) {
        (Full, 594) => put(bits, "110 0110 0110"),
        (Over, 594) => put(bits, "0110 0110 0110"),
        _ => Ok(()),
    }
}

// Appends a group with 33 Intra macroblocks, behind so many blocks.
fn put_intra(bits: &mut Vec<u8>, sample: Sample, before: u32) -> Result<(), AllocError>
    requires { before < 1000 }
{
    for macroblock in 0..33 {
        put(bits, "1 0001")?;
        for block in 1..7 {
            put(bits, "11111111")?;
            put_levels(bits, sample, before + 6 * macroblock + block)?;
            put(bits, "10")?;
        }
    }
    Ok(())
}

// The bits of a picture.
fn picture(alloc: Global, sample: Sample) -> Result<Vec<u8>, AllocError> {
    let mut bits = Vec::new(alloc);
    put(&mut bits, "00000000000000010000 00001 000011 0")?;
    put(&mut bits, "0000000000000001 0001 01000 0")?;
    match sample {
        Small => {
            put(&mut bits, "1 1 1010 10 10")?;
            put(&mut bits, "0000000000000001 0011 01000 0")?;
            put(&mut bits, "0000000000000001 0101 01000 0")?;
        }
        Grey | Full | Over => {
            put_intra(&mut bits, sample, 0)?;
            put(&mut bits, "0000000000000001 0011 01000 0")?;
            put_intra(&mut bits, sample, 198)?;
            put(&mut bits, "0000000000000001 0101 01000 0")?;
            put_intra(&mut bits, sample, 396)?;
        }
    }
    Ok(bits)
}

// The octets of bits of which the first stands behind `before` others, at most 7.
fn packed(alloc: Global, before: u32, bits: &[u8]) -> Result<Vec<u8>, AllocError> {
    let mut octets = Vec::new(alloc);
    let mut place = before;
    for bit in bits {
        if octets.is_empty() || place % 8 == 0 {
            octets.push(0)?;
        }
        if let Some(last) = octets.last_mut() {
            *last |= (*bit & 1) << (7 - place % 8);
        }
        place = place.wrapping_add(1);
    }
    Ok(octets)
}

/// The octets of a conference file.
#[derive(Drop)]
pub struct File {
    alloc: Global,
    pub octets: Vec<u8>,
}

impl File {
    pub fn new(alloc: Global, lanes: u8) -> Result<File, AllocError> {
        let mut octets = Vec::new(alloc);
        octets.extend_from_slice(b"H261CONF\x01")?;
        octets.push(lanes)?;
        Ok(File { alloc, octets })
    }

    // A packet of a lane with these bits, of which the first stands behind `before` others in its octet.
    pub fn part(
        &mut self,
        lane: u8,
        number: u16,
        marker: bool,
        before: u32,
        bits: &[u8],
    ) -> Result<(), AllocError> {
        let octets = packed(self.alloc, before, bits)?;
        let excess = (8 - (u64::from(before) % 8 + bits.len() as u64 % 8) % 8) % 8;
        let length = (octets.len().min(60_000) + 16) as u16;
        self.octets.extend_from_slice(&[b'P', lane])?;
        self.octets.extend_from_slice(&length.to_be_bytes())?;
        self.octets
            .extend_from_slice(&[0x80, if marker { 0x9f } else { 0x1f }])?;
        self.octets.extend_from_slice(&number.to_be_bytes())?;
        self.octets.extend_from_slice(&[0, 0, 0, 9, 0, 0, 0, 1])?;
        let ignored = (before % 8) as u8 * 32 + excess as u8 * 4 + 1;
        self.octets.extend_from_slice(&[ignored, 0, 0, 0])?;
        self.octets.extend_from_slice(&octets)
    }

    // A picture of a lane in one packet.
    pub fn picture(&mut self, lane: u8, number: u16, sample: Sample) -> Result<(), AllocError> {
        let bits = picture(self.alloc, sample)?;
        self.part(lane, number, true, 0, &bits)
    }

    // A command of the chair.
    pub fn order(&mut self, line: &[u8]) -> Result<(), AllocError> {
        self.octets.push(b'C')?;
        self.octets.push(line.len().min(255) as u8)?;
        self.octets.extend_from_slice(line)
    }

    pub fn tick(&mut self, step: u8) -> Result<(), AllocError> {
        self.octets.extend_from_slice(&[b'T', step])
    }

    pub fn end(&mut self) -> Result<(), AllocError> {
        self.octets.push(b'E')?;
        Ok(())
    }
}

/// What is set where no other is said.
const SET: Settings = Settings {
    mtu: 1400,
    seq: 0,
    stamp: 0,
    ssrc: 1_211_250_225,
};

/// The budget where no other is said.
const BUDGET: u64 = 0x100_0000;

// The digest of octets.
fn digest(octets: &[u8]) -> u64 {
    let mut digest = 0xcbf2_9ce4_8422_2325;
    for octet in octets {
        digest = (digest ^ u64::from(*octet)).wrapping_mul(0x100_0000_01b3);
    }
    digest
}

// Replays a file whose source and sink fail at the calls with these numbers, and give and take so many octets in a call; how
// it ended, how many octets were written, and their digest.
fn run(
    file: &File,
    set: Settings,
    budget: u64,
    fails: (u64, u64),
    piece: usize,
) -> Result<(ReplayEnd, u64, u64), Fail>
    requires mtu { (1000 ≤ set.mtu) × (set.mtu ≤ 9000) }
    requires budget { budget ≤ 16777216 }
    requires piece { 0 < piece }
{
    let alloc = file.alloc;
    let mut octets = Vec::new(alloc);
    octets.extend_from_slice(&file.octets)?;
    let mut source = MemSource::new(octets, vec![in alloc; fails.0]?, piece);
    let mut sink = MemSink::reserve(alloc, 40_000, vec![in alloc; fails.1]?, piece)?;
    let end = replay(alloc, &mut source, &mut sink, set, budget);
    Ok((end, sink.bytes().len() as u64, digest(sink.bytes())))
}

// Replays a file whose source and sink do not fail.
fn replayed(file: &File, set: Settings, budget: u64) -> Result<(ReplayEnd, u64), Fail>
    requires mtu { (1000 ≤ set.mtu) × (set.mtu ≤ 9000) }
    requires budget { budget ≤ 16777216 }
{
    let (end, _len, sum) = run(file, set, budget, (0, 0), 997)?;
    Ok((end, sum))
}

// A tally: ticks, pictures, gaps, commands, refused, taken, packets, octets.
fn tally(counts: [u64; 8]) -> Tally {
    let [
        ticks,
        pictures,
        gaps,
        commands,
        refused,
        taken,
        packets,
        octets,
    ] = counts;
    Tally {
        ticks,
        pictures,
        gaps,
        commands,
        refused,
        taken,
        packets,
        octets,
    }
}

fn done(counts: [u64; 8]) -> ReplayEnd {
    ReplayEnd {
        stop: ReplayStop::Done,
        tally: tally(counts),
    }
}

/// The digest of nothing, and of the pictures of one and of two empty ticks.
const NOTHING: u64 = 0xcbf2_9ce4_8422_2325;

const ONE_TICK: u64 = 0x04a8_e460_b711_71e6;

const TWO_TICKS: u64 = 0x4b5c_f06b_89b1_8eb4;

#[test]
fn one_empty_tick(rt: HostRuntime) -> Result<(), Fail> {
    let mut file = File::new(rt.alloc(), 1)?;
    file.tick(1)?;
    file.end()?;
    let got = replayed(&file, SET, BUDGET)?;
    assert_eq!(rt; got, (done([1, 0, 0, 0, 0, 0, 1, 61]), ONE_TICK));
    Ok(())
}

#[test]
fn numbers_past_the_last(rt: HostRuntime) -> Result<(), Fail> {
    let mut file = File::new(rt.alloc(), 1)?;
    file.tick(31)?;
    file.tick(2)?;
    file.end()?;
    let set = Settings {
        mtu: 1000,
        seq: 65535,
        stamp: 4_294_967_295,
        ssrc: 7,
    };
    let got = replayed(&file, set, BUDGET)?;
    assert_eq!(rt;
        got,
        (done([2, 0, 0, 0, 0, 0, 2, 122]), 0xed5a_9349_b931_c9e4)
    );
    Ok(())
}

// A file of so many lanes, each in the place with its number and one, with this picture each, and a tick.
fn placed(alloc: Global, lanes: u8, sample: Sample) -> Result<File, Fail> {
    let mut file = File::new(alloc, lanes)?;
    for line in [b"place 1 0", b"place 2 1", b"place 3 2", b"place 4 3"]
        .iter()
        .take(usize::from(lanes))
    {
        file.order(line.as_slice())?;
    }
    for lane in 0..lanes {
        file.picture(lane, 1, sample)?;
    }
    file.tick(1)?;
    file.end()?;
    Ok(file)
}

#[test]
fn grey_top_left(rt: HostRuntime) -> Result<(), Fail> {
    let file = placed(rt.alloc(), 1, Grey)?;
    let got = replayed(&file, SET, BUDGET)?;
    assert_eq!(rt;
        got,
        (done([1, 1, 0, 1, 0, 1, 1, 866]), 0x4b3d_1536_7ba0_1787)
    );
    Ok(())
}

#[test]
fn grey_bottom_right(rt: HostRuntime) -> Result<(), Fail> {
    let mut file = File::new(rt.alloc(), 1)?;
    file.order(b"place 4 0")?;
    file.picture(0, 1, Grey)?;
    file.tick(1)?;
    file.end()?;
    let got = replayed(&file, SET, BUDGET)?;
    assert_eq!(rt;
        got,
        (done([1, 1, 0, 1, 0, 1, 1, 866]), 0x2324_b418_33e8_f88a)
    );
    Ok(())
}

#[test]
fn four_greys(rt: HostRuntime) -> Result<(), Fail> {
    let file = placed(rt.alloc(), 4, Grey)?;
    let got = replayed(&file, SET, BUDGET)?;
    assert_eq!(rt;
        got,
        (done([1, 4, 0, 4, 0, 4, 3, 3317]), 0x98d6_1de2_2851_1d7a)
    );
    Ok(())
}

#[test]
fn four_full_pictures(rt: HostRuntime) -> Result<(), Fail> {
    let file = placed(rt.alloc(), 4, Full)?;
    let got = replayed(&file, SET, BUDGET)?;
    assert_eq!(rt;
        got,
        (done([1, 4, 0, 4, 0, 4, 25, 33_224]), 0x9dac_d07b_b365_50c9)
    );
    Ok(())
}

#[test]
fn one_bit_over_the_limit(rt: HostRuntime) -> Result<(), Fail> {
    let file = placed(rt.alloc(), 1, Over)?;
    let got = replayed(&file, SET, BUDGET)?;
    assert_eq!(rt; got, (done([1, 0, 1, 1, 0, 0, 1, 61]), ONE_TICK));
    Ok(())
}

// The first 123 bits, up to the end of the first macroblock of a grey picture, and the others.
fn halves(bits: &[u8]) -> (&[u8], &[u8]) {
    bits.split_at(bits.len().min(123))
}

#[test]
fn lost_middle_packet(rt: HostRuntime) -> Result<(), Fail> {
    let mut file = File::new(rt.alloc(), 1)?;
    let bits = picture(rt.alloc(), Grey)?;
    file.order(b"place 1 0")?;
    let (front, back) = halves(&bits);
    file.part(0, 0, false, 0, front)?;
    file.part(0, 1, true, 3, back)?;
    file.tick(1)?;
    file.part(0, 2, false, 0, front)?;
    file.picture(0, 4, Small)?;
    file.tick(1)?;
    file.picture(0, 5, Grey)?;
    file.tick(1)?;
    file.end()?;
    let got = replayed(&file, SET, BUDGET)?;
    assert_eq!(rt;
        got,
        (done([3, 3, 1, 1, 0, 2, 3, 1793]), 0x129e_04ed_858e_af50)
    );
    Ok(())
}

#[test]
fn bad_kind_and_cut_after_two_ticks(rt: HostRuntime) -> Result<(), Fail> {
    let why = EntryWhy::Kind;
    let table = [
        (b'Z', ReplayStop::BadRecord { place: 14, why }),
        (b'T', ReplayStop::Cut { place: 15 }),
    ];
    for (last, stop) in table {
        let mut file = File::new(rt.alloc(), 1)?;
        file.tick(1)?;
        file.tick(1)?;
        file.octets.push(last)?;
        let tally = tally([2, 0, 0, 0, 0, 0, 2, 122]);
        let got = replayed(&file, SET, BUDGET)?;
        assert_eq!(rt; got, (ReplayEnd { stop, tally }, TWO_TICKS));
    }
    Ok(())
}

#[test]
fn an_ordinary_call(rt: HostRuntime) -> Result<(), Fail> {
    let mut file = File::new(rt.alloc(), 3)?;
    file.order(b"place 1 0")?;
    file.order(b"place 2 1")?;
    for round in 1u16..61 {
        for lane in 0..3 {
            let sample = match round {
                1 | 21 | 41 => Grey,
                _ => Small,
            };
            if lane != 1 || round != 25 {
                file.picture(lane, round, sample)?;
            }
        }
        file.tick(3)?;
        if round == 30 {
            file.order(b"speaker 2")?;
        }
    }
    file.end()?;
    let got = replayed(&file, SET, BUDGET)?;
    assert_eq!(rt;
        got,
        (
            done([60, 179, 1, 3, 0, 124, 63, 9523]),
            0x1002_4961_a169_48bb
        )
    );
    Ok(())
}

#[test]
fn refused_commands_are_counted(rt: HostRuntime) -> Result<(), Fail> {
    let mut file = File::new(rt.alloc(), 1)?;
    file.order(b"place 1 5")?;
    file.order(b"clear 2")?;
    file.order(b"speaker 0")?;
    file.end()?;
    let got = replayed(&file, SET, BUDGET)?;
    assert_eq!(rt; got, (done([0, 0, 0, 3, 2, 0, 0, 0]), NOTHING));
    Ok(())
}

#[test]
fn budget_of_twelve_and_thirteen(rt: HostRuntime) -> Result<(), Fail> {
    let mut file = File::new(rt.alloc(), 1)?;
    file.tick(1)?;
    file.end()?;
    for (budget, stop) in [(12, ReplayStop::Limit), (13, ReplayStop::Done)] {
        let got = replayed(&file, SET, budget)?;
        let tally = tally([1, 0, 0, 0, 0, 0, 1, 61]);
        assert_eq!(rt; got, (ReplayEnd { stop, tally }, ONE_TICK));
    }
    Ok(())
}

// Reads of at most 100 octets: the header is one, the line of the chair 2 to 4, the packet of 835 octets 5 to 15, the tick 16
// and 17, and the end 18.
#[test]
fn each_read_fails_in_turn(rt: HostRuntime) -> Result<(), Fail> {
    let file = placed(rt.alloc(), 1, Grey)?;
    let stop = ReplayStop::ReadFault;
    for read in 1..20 {
        let counts = match read {
            1..=4 => [0; 8],
            5..=15 => [0, 0, 0, 1, 0, 0, 0, 0],
            16 | 17 => [0, 1, 0, 1, 0, 0, 0, 0],
            _ => [1, 1, 0, 1, 0, 1, 1, 866],
        };
        let (end, _len, sum) = run(&file, SET, BUDGET, (read, 0), 100)?;
        let tally = tally(counts);
        let want = match read {
            1..=17 => (ReplayEnd { stop, tally }, NOTHING),
            18 => (ReplayEnd { stop, tally }, 0x4b3d_1536_7ba0_1787),
            _ => (done(counts), 0x4b3d_1536_7ba0_1787),
        };
        assert_eq!(rt; (end, sum), want);
    }
    Ok(())
}

// Writes of at most 500 octets: frames of 1,399, 1,400 and 518 octets take eight. What was written ends where the write that
// fails would have begun.
#[test]
fn each_write_fails_in_turn(rt: HostRuntime) -> Result<(), Fail> {
    let file = placed(rt.alloc(), 4, Grey)?;
    let stop = ReplayStop::WriteFault;
    let tally = tally([1, 4, 0, 4, 0, 4, 0, 0]);
    for (write, begins) in [
        (1, 0),
        (2, 500),
        (3, 1000),
        (4, 1399),
        (5, 1899),
        (6, 2399),
        (7, 2799),
        (8, 3299),
    ] {
        let (end, len, _sum) = run(&file, SET, BUDGET, (0, write), 500)?;
        assert_eq!(rt; (end, len), (ReplayEnd { stop, tally }, begins));
    }
    let (end, len, _sum) = run(&file, SET, BUDGET, (0, 9), 500)?;
    assert_eq!(rt; (end, len), (done([1, 4, 0, 4, 0, 4, 3, 3317]), 3317));
    Ok(())
}

#[test]
fn an_empty_file(rt: HostRuntime) -> Result<(), Fail> {
    let mut file = File::new(rt.alloc(), 1)?;
    file.octets.clear();
    let got = replayed(&file, SET, BUDGET)?;
    let stop = ReplayStop::Cut { place: 0 };
    let tally = Tally::default();
    assert_eq!(rt; got, (ReplayEnd { stop, tally }, NOTHING));
    Ok(())
}
