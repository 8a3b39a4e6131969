//! Each word of the tables, its fronts and its meaning, as they stand in H.261 (4.2.3 and 4.2.4).

use super::*;
use pel_bits::{Bits, Reader};
use pel_model::{MbKind, Why};
use std::process::Abort;

static STEPS: [(&str, u8); 33] = [
    ("1", 1),
    ("011", 2),
    ("010", 3),
    ("0011", 4),
    ("0010", 5),
    ("00011", 6),
    ("00010", 7),
    ("0000111", 8),
    ("0000110", 9),
    ("00001011", 10),
    ("00001010", 11),
    ("00001001", 12),
    ("00001000", 13),
    ("00000111", 14),
    ("00000110", 15),
    ("0000010111", 16),
    ("0000010110", 17),
    ("0000010101", 18),
    ("0000010100", 19),
    ("0000010011", 20),
    ("0000010010", 21),
    ("00000100011", 22),
    ("00000100010", 23),
    ("00000100001", 24),
    ("00000100000", 25),
    ("00000011111", 26),
    ("00000011110", 27),
    ("00000011101", 28),
    ("00000011100", 29),
    ("00000011011", 30),
    ("00000011010", 31),
    ("00000011001", 32),
    ("00000011000", 33),
];

static KINDS: [(&str, MbKind); 10] = [
    ("0001", MbKind::Intra),
    ("0000001", MbKind::IntraQuant),
    ("1", MbKind::Inter),
    ("00001", MbKind::InterQuant),
    ("000000001", MbKind::Mc),
    ("00000001", MbKind::McCoded),
    ("0000000001", MbKind::McQuant),
    ("001", MbKind::McFil),
    ("01", MbKind::McFilCoded),
    ("000001", MbKind::McFilQuant),
];

static DIFFERENCES: [(&str, i8, i8); 32] = [
    ("1", 0, 0),
    ("0000010101", -9, 23),
    ("011", -1, -1),
    ("0000010100", 9, -23),
    ("010", 1, 1),
    ("0000010011", -10, 22),
    ("0011", -2, 30),
    ("0000010010", 10, -22),
    ("0010", 2, -30),
    ("00000100011", -11, 21),
    ("00011", -3, 29),
    ("00000100010", 11, -21),
    ("00010", 3, -29),
    ("00000100001", -12, 20),
    ("0000111", -4, 28),
    ("00000100000", 12, -20),
    ("0000110", 4, -28),
    ("00000011111", -13, 19),
    ("00001011", -5, 27),
    ("00000011110", 13, -19),
    ("00001010", 5, -27),
    ("00000011101", -14, 18),
    ("00001001", -6, 26),
    ("00000011100", 14, -18),
    ("00001000", 6, -26),
    ("00000011011", -15, 17),
    ("00000111", -7, 25),
    ("00000011010", 15, -17),
    ("00000110", 7, -25),
    ("00000011001", -16, 16),
    ("0000010111", -8, 24),
    ("0000010110", 8, -24),
];

static PATTERNS: [(&str, u8); 63] = [
    ("111", 60),
    ("1101", 4),
    ("1100", 8),
    ("1011", 16),
    ("1010", 32),
    ("10011", 12),
    ("10010", 48),
    ("10001", 20),
    ("10000", 40),
    ("01111", 28),
    ("01110", 44),
    ("01101", 52),
    ("01100", 56),
    ("01011", 1),
    ("01010", 61),
    ("01001", 2),
    ("01000", 62),
    ("001111", 24),
    ("001110", 36),
    ("001101", 3),
    ("001100", 63),
    ("0010111", 5),
    ("0010110", 9),
    ("0010101", 17),
    ("0010100", 33),
    ("0010011", 6),
    ("0010010", 10),
    ("0010001", 18),
    ("0010000", 34),
    ("00011111", 7),
    ("00011110", 11),
    ("00011101", 19),
    ("00011100", 35),
    ("00011011", 13),
    ("00011010", 49),
    ("00011001", 21),
    ("00011000", 41),
    ("00010111", 14),
    ("00010110", 50),
    ("00010101", 22),
    ("00010100", 42),
    ("00010011", 15),
    ("00010010", 51),
    ("00010001", 23),
    ("00010000", 43),
    ("00001111", 25),
    ("00001110", 37),
    ("00001101", 26),
    ("00001100", 38),
    ("00001011", 29),
    ("00001010", 45),
    ("00001001", 53),
    ("00001000", 57),
    ("00000111", 30),
    ("00000110", 46),
    ("00000101", 54),
    ("00000100", 58),
    ("000000111", 31),
    ("000000110", 47),
    ("000000101", 55),
    ("000000100", 59),
    ("000000011", 27),
    ("000000010", 39),
];

static PAIRS: [(&str, u8, i8); 63] = [
    ("11", 0, 1),
    ("0100", 0, 2),
    ("00101", 0, 3),
    ("0000110", 0, 4),
    ("00100110", 0, 5),
    ("00100001", 0, 6),
    ("0000001010", 0, 7),
    ("000000011101", 0, 8),
    ("000000011000", 0, 9),
    ("000000010011", 0, 10),
    ("000000010000", 0, 11),
    ("0000000011010", 0, 12),
    ("0000000011001", 0, 13),
    ("0000000011000", 0, 14),
    ("0000000010111", 0, 15),
    ("011", 1, 1),
    ("000110", 1, 2),
    ("00100101", 1, 3),
    ("0000001100", 1, 4),
    ("000000011011", 1, 5),
    ("0000000010110", 1, 6),
    ("0000000010101", 1, 7),
    ("0101", 2, 1),
    ("0000100", 2, 2),
    ("0000001011", 2, 3),
    ("000000010100", 2, 4),
    ("0000000010100", 2, 5),
    ("00111", 3, 1),
    ("00100100", 3, 2),
    ("000000011100", 3, 3),
    ("0000000010011", 3, 4),
    ("00110", 4, 1),
    ("0000001111", 4, 2),
    ("000000010010", 4, 3),
    ("000111", 5, 1),
    ("0000001001", 5, 2),
    ("0000000010010", 5, 3),
    ("000101", 6, 1),
    ("000000011110", 6, 2),
    ("000100", 7, 1),
    ("000000010101", 7, 2),
    ("0000111", 8, 1),
    ("000000010001", 8, 2),
    ("0000101", 9, 1),
    ("0000000010001", 9, 2),
    ("00100111", 10, 1),
    ("0000000010000", 10, 2),
    ("00100011", 11, 1),
    ("00100010", 12, 1),
    ("00100000", 13, 1),
    ("0000001110", 14, 1),
    ("0000001101", 15, 1),
    ("0000001000", 16, 1),
    ("000000011111", 17, 1),
    ("000000011010", 18, 1),
    ("000000011001", 19, 1),
    ("000000010111", 20, 1),
    ("000000010110", 21, 1),
    ("0000000011111", 22, 1),
    ("0000000011110", 23, 1),
    ("0000000011101", 24, 1),
    ("0000000011100", 25, 1),
    ("0000000011011", 26, 1),
];

// The digits of a word, at the front of eight octets.
fn octets(word: &str) -> [u8; 8] {
    octets_with_sign(word, false)
}

// The digits of a word and a sign bit behind them, which is 1 for a negative level.
fn octets_with_sign(word: &str, is_negative: bool) -> [u8; 8] {
    let mut bits: u64 = 0;
    let mut place: u64 = 0x8000_0000_0000_0000;
    for digit in word.bytes() {
        if digit == b'1' {
            bits |= place;
        }
        place >>= 1;
    }
    if is_negative {
        bits |= place;
    }
    bits.to_be_bytes()
}

// A reader over the first digits of a word.
fn reader(octets: &[u8; 8], digits: usize) -> Reader<'_> {
    Reader::new(Bits::new(octets, 0, digits.min(64) as u32))
}

#[test]
fn each_word_of_mba(rt: HostRuntime) {
    for (word, step) in &STEPS {
        let octets = octets(word);
        for front in 0..word.len() {
            assert_eq!(rt; mba(&mut reader(&octets, front)), Err(Why::Cut));
        }
        let mut r = reader(&octets, 64);
        assert_eq!(rt; mba(&mut r), Ok(MbaRow::Difference(*step)));
        assert_eq!(rt; r.place() as usize, word.len());
    }
    let stuffing = octets("00000001111");
    for front in 0..11 {
        assert_eq!(rt; mba(&mut reader(&stuffing, front)), Err(Why::Cut));
    }
    assert_eq!(rt; mba(&mut reader(&stuffing, 11)), Ok(MbaRow::Stuffing));
    assert_eq!(rt;
        mba(&mut reader(&octets("0000000000000"), 13)),
        Err(Why::NoCode)
    );
}

#[test]
fn each_word_of_mtype(rt: HostRuntime) {
    for (word, kind) in &KINDS {
        let octets = octets(word);
        for front in 0..word.len() {
            assert_eq!(rt; mtype(&mut reader(&octets, front)), Err(Why::Cut));
        }
        let mut r = reader(&octets, 64);
        assert_eq!(rt; mtype(&mut r), Ok(*kind));
        assert_eq!(rt; r.place() as usize, word.len());
    }
    assert_eq!(rt;
        mtype(&mut reader(&octets("0000000000"), 10)),
        Err(Why::NoCode)
    );
}

#[test]
fn each_word_of_mvd(rt: HostRuntime) {
    for (word, one, other) in &DIFFERENCES {
        let octets = octets(word);
        for front in 0..word.len() {
            assert_eq!(rt; mvd(&mut reader(&octets, front)), Err(Why::Cut));
        }
        let mut r = reader(&octets, 64);
        assert_eq!(rt; mvd(&mut r), Ok((*one, *other)));
        assert_eq!(rt; r.place() as usize, word.len());
    }
    assert_eq!(rt;
        mvd(&mut reader(&octets("00000011000"), 11)),
        Err(Why::NoCode)
    );
}

#[test]
fn each_word_of_cbp(rt: HostRuntime) {
    for (word, pattern) in &PATTERNS {
        let octets = octets(word);
        for front in 0..word.len() {
            assert_eq!(rt; cbp(&mut reader(&octets, front)), Err(Why::Cut));
        }
        let mut r = reader(&octets, 64);
        assert_eq!(rt; cbp(&mut r), Ok(*pattern));
        assert_eq!(rt; r.place() as usize, word.len());
    }
    assert_eq!(rt; cbp(&mut reader(&octets("000000001"), 9)), Err(Why::NoCode));
}

// The code of a run and a level, with each sign behind it, and the fronts of both.
fn take_code(rt: &impl Abort, word: &str, first: bool, run: u8, level: i8) {
    for (is_negative, level) in [(false, level), (true, level.wrapping_neg())] {
        let octets = octets_with_sign(word, is_negative);
        for front in 0..word.len() + 1 {
            assert_eq!(rt; tcoeff(&mut reader(&octets, front), first), Err(Why::Cut));
        }
        let mut r = reader(&octets, 64);
        assert_eq!(rt;
            tcoeff(&mut r, first),
            Ok(CoefRow::Pair { run, level }),
            "{word}"
        );
        assert_eq!(rt; r.place() as usize, word.len() + 1);
    }
}

#[test]
fn each_code_of_tcoeff(rt: HostRuntime) {
    for (word, run, level) in &PAIRS {
        take_code(&rt, word, false, *run, *level);
        // Where a block without INTRADC begins, run 0 and level 1 have a code of their own.
        let is_one = *run == 0 && *level == 1;
        take_code(&rt, if is_one { "1" } else { word }, true, *run, *level);
    }
}

#[test]
fn words_of_tcoeff_by_where_they_stand(rt: HostRuntime) {
    let one = CoefRow::Pair { run: 0, level: 1 };
    let less = CoefRow::Pair { run: 0, level: -1 };
    let long = CoefRow::Escape {
        run: 63,
        level: -128,
    };
    for (word, first, row) in [
        ("10", true, Ok(one)),
        ("11", true, Ok(less)),
        ("1", true, Err(Why::Cut)),
        ("10", false, Ok(CoefRow::Eob)),
        ("110", false, Ok(one)),
        ("111", false, Ok(less)),
        ("00000111111110000000", true, Ok(long)),
        ("00000111111110000000", false, Ok(long)),
        ("0000011111111000000", false, Err(Why::Cut)),
        ("000000001", false, Err(Why::Cut)),
        ("0000000001", true, Err(Why::NoCode)),
    ] {
        let octets = octets(word);
        let mut r = reader(&octets, word.len());
        assert_eq!(rt; tcoeff(&mut r, first), row);
        assert_eq!(rt; r.left() as usize, if row.is_ok() { 0 } else { word.len() });
    }
}
