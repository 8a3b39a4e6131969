//! Pictures for tests, from the digits 0 and 1.

use pel_bits::Bits;
use std::alloc::{AllocError, Global};

/// The start code of a picture, TR 1, the picture type and a PEI of 0.
pub const QCIF_HEADER: &str = "00000000000000010000 00001 000011 0";

pub const CIF_HEADER: &str = "00000000000000010000 00001 000111 0";

/// Headers of groups with GQUANT 8.
pub const GROUP_1: &str = "0000000000000001 0001 01000 0";

pub const GROUP_3: &str = "0000000000000001 0011 01000 0";

pub const GROUP_5: &str = "0000000000000001 0101 01000 0";

pub const GROUP_12: &str = "0000000000000001 1100 01000 0";

/// Intra, with INTRADC 255 alone in each block: all samples are 128.
pub const GREY: &str =
    "1 0001 11111111 10 11111111 10 11111111 10 11111111 10 11111111 10 11111111 10";

/// Inter, with level 1 alone at the first place of the first block: 3 is added to its samples.
pub const SMALL: &str = "1 1 1010 10 10";

/// Three Intra macroblocks, each block with one or two coefficients beside INTRADC.
pub const TEXTURES: [&str; 3] = [
    "1 0001 \
     00101000 000001 000000 00011110 000001 000110 11101111 10 \
     01011010 000001 000001 00011001 000001 000000 11111101 10 \
     10001100 000001 000000 11100100 000001 001100 00010100 10 \
     11001000 000001 000010 00100001 000001 000001 00001110 10 \
     01100100 000001 000000 00001100 10 \
     10100000 000001 000001 11110100 10",
    "1 0001 \
     10010110 000001 000001 11100001 000001 000011 00001100 10 \
     00111100 000001 000000 00010110 000001 000111 00001111 10 \
     01101110 000001 000100 00011011 10 \
     11100110 000001 000000 11110111 000001 000001 11110101 10 \
     10000010 000001 000000 11101100 000001 000001 00001000 10 \
     01011010 000001 000000 00001001 000001 000010 00001001 10",
    "1 0001 \
     00011110 000001 000000 00101000 000001 010100 11100010 10 \
     11011100 000001 000001 00100011 000001 000010 11101100 10 \
     10110100 000001 000000 11011000 000001 000001 00010100 10 \
     01000110 000001 000011 00011101 000001 000100 11101011 10 \
     01000110 000001 000001 00010010 000001 000011 11110111 10 \
     10111110 000001 000010 11101010 000001 000001 00010000 10",
];

/// QCIF, TR 2: far vectors in the first and the last group, and a macroblock of each kind in the middle one.
pub const EACH_KIND: [(&str, u32); 20] = [
    ("00000000000000010000 00010 000011 0", 1),
    (GROUP_1, 1),
    // Vector (-15, 0).
    ("011 000000001 00000011011 1", 1),
    // FIL, vector (0, -15).
    ("00001011 001 1 00000011011", 1),
    // Vector (-15, -15).
    ("1 000000001 00000011011 1", 1),
    (GROUP_3, 1),
    // Intra.
    (
        "1 0001 01100100 000001 000000 00000101 10 01111000 10 10001100 000001 000011 11111001 10 \
         10100000 10 01010000 10 11001000 110 10",
        1,
    ),
    // Intra with MQUANT 5.
    (
        "1 0000001 00101 00000001 10 11111110 000001 000000 01111111 10 11111111 10 00001010 000001 \
         000000 10000001 10 00010100 10 00011110 000001 111110 00000011 10",
        1,
    ),
    // Inter.
    ("1 1 00001110 10 10 01000 0111 10 11 10", 1),
    // Inter with MQUANT 4.
    (
        "1 00001 00100 00001101 000001 000000 01111111 10 000001 000000 10000001 10 000001 000101 \
         00101000 10",
        1,
    ),
    // MC, vector (-15, 15).
    ("1 000000001 00000011011 00000011010", 1),
    // MC with coefficients, vector (13, -15).
    (
        "1 00000001 0000111 0010 0010000 000001 000000 00000110 10 001011 10",
        1,
    ),
    // MC with MQUANT 31, vector (-1, -3).
    (
        "1 0000000001 11111 00000011101 00000100000 0010110 000001 000010 11111110 10 10 10",
        1,
    ),
    // FIL, no motion.
    ("1 001 010 00010", 1),
    // FIL with coefficients, vector (15, -1).
    (
        "1 01 00000011010 011 0010101 000001 000000 11111011 10 000001 000001 00011110 10",
        1,
    ),
    // FIL with MQUANT 2, vector (-7, 9).
    (
        "1 000001 00010 0000010010 0000010010 0010000 000001 001001 00001001 10 000001 000000 00010100 \
         10",
        1,
    ),
    (GROUP_5, 1),
    // FIL, vector (15, 15).
    ("0000010010 001 00000011010 00000011010", 1),
    // Vector (0, 15).
    ("1 000000001 00000011011 1", 1),
    // Vector (15, 0).
    ("00001011 000000001 00000011010 1", 1),
];

/// Digits put together as bits. What is no digit is passed over.
#[derive(Drop)]
pub struct Sent {
    pub octets: Vec<u8>,
    pub len: u32,
}

impl Sent {
    /// Pieces one behind another, each so many times.
    pub fn of(alloc: Global, pieces: &[(&str, u32)]) -> Result<Sent, AllocError> {
        let mut sent = Sent {
            octets: Vec::new(alloc),
            len: 0,
        };
        for (digits, times) in pieces {
            for _ in 0..*times {
                sent.put(digits)?;
            }
        }
        Ok(sent)
    }

    fn put(&mut self, digits: &str) -> Result<(), AllocError> {
        for digit in digits.bytes().filter(|digit| matches!(digit, b'0' | b'1')) {
            if self.len % 8 == 0 {
                self.octets.push(0)?;
            }
            if let Some(last) = self.octets.last_mut() {
                *last |= (digit - b'0') << (7 - self.len % 8);
            }
            self.len = self.len.wrapping_add(1);
        }
        Ok(())
    }

    pub fn bits(&self) -> Bits<'_> {
        let most = 8 * self.octets.len().min(100_000) as u32;
        Bits::new(&self.octets, 0, self.len.min(most))
    }
}
