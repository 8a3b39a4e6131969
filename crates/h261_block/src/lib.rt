//! Blocks of H.261 (4.2.4): one is read past, or its levels are read, or its first fault is found.
#![tactic(auto)]

mod ahead;
mod cells;
mod coefficients;
mod octets;

ghost use Rattle.std.specs.Prelude.{◌≡◌, cond, List, is_some};
ghost use Rattle.pel_model.specs.declared.Format.{Format};
ghost use Rattle.pel_model.specs.Levels.{levels};
ghost use Rattle.pel_model.specs.Elements.{IsBlockSoFar, block_elements};
ghost use Rattle.pel_model.specs.Grammar.{Element, slot, AtDc, AtFirst, next};
ghost use Rattle.pel_model.specs.Records.{Block};
ghost use Rattle.pel_model.specs.Walk.{Walked};

use ahead::one_word;
use coefficients::{intradc, intradc_level, run_and_level, tcoeff};
pub use octets::pass_blocks;
use pel_bits::Reader;
use pel_model::Fault;

/// Moves past one block, that of an Intra macroblock or another. At a fault, NoCode, Cut, BadDc,
/// BadLevel or TooMany, the reader stands at the element at fault.
pub fn scan_block(r: &mut Reader<'_>, intra: bool) -> Result<(), Fault>
    ensures { (format : Format) (before : List Element) →
        slot before ≡ cond intra AtDc AtFirst →
        Walked (next format) before
        (λ _ es new. (b : Block) × (es ≡ block_elements b) × (is_some b.dc ≡ intra))
        IsBlockSoFar result r.old r.new }
{
    let mut filled = 0;
    if intra {
        intradc(r)?;
        filled = 1;
    }
    while let Some(behind) = one_word(r, filled)? {
        filled = behind;
    }
    Ok(())
}

/// Reads one block as `scan_block` does and gives its 64 levels in the order of transmission; the
/// first one of an Intra block is what INTRADC stands for, 8 n or 1024. After a fault `out` holds any
/// numbers.
pub fn read_levels(r: &mut Reader<'_>, intra: bool, out: &mut [i16; 64]) -> Result<(), Fault>
    ensures { (format : Format) (before : List Element) →
        slot before ≡ cond intra AtDc AtFirst →
        Walked (next format) before
        (λ _ es new. (b : Block) × (es ≡ block_elements b) × (is_some b.dc ≡ intra) × (out.new ≡ levels b))
        IsBlockSoFar result r.old r.new }
{
    *out = [0; 64];
    let mut filled = 0;
    if intra {
        let n = intradc(r)?;
        out[0] = intradc_level(n);
        filled = 1;
    }
    while let Some((run, level)) = run_and_level(tcoeff(r, filled)?) {
        filled += u32::from(run) + 1;
        out[filled as usize - 1] = i16::from(level);
    }
    Ok(())
}

#[cfg(test)]
mod tests {
    use super::*;
    use pel_bits::Bits;
    use pel_model::Why;

    // Digits, then some times 110, then more digits, at the front of 32 octets.
    fn octets(front: &str, times: usize, behind: &str) -> [u8; 32] {
        let mut octets = [0; 32];
        let mut place = 0;
        for digit in front.bytes() {
            write(&mut octets, &mut place, digit);
        }
        for _ in 0..times {
            for digit in "110".bytes() {
                write(&mut octets, &mut place, digit);
            }
        }
        for digit in behind.bytes() {
            write(&mut octets, &mut place, digit);
        }
        octets
    }

    fn write(octets: &mut [u8; 32], place: &mut usize, digit: u8) {
        if let Some(octet) = octets.get_mut(*place / 8) {
            if digit == b'1' {
                *octet |= 0x80 >> (*place % 8);
            }
            *place += 1;
        }
    }

    // A reader of the digits alone.
    fn reader<'a>(octets: &'a [u8; 32], digits: &str) -> Reader<'a> {
        Reader::new(Bits::new(octets, 0, digits.len().min(256) as u32))
    }

    #[test]
    fn first_code_of_a_block(rt: HostRuntime) {
        for (digits, intra, level) in [
            ("1010", false, 1),
            ("1110", false, -1),
            ("1111111110", true, 1024),
            ("0000000110", true, 8),
        ] {
            let octets = octets(digits, 0, "");
            let mut r = reader(&octets, digits);
            assert_eq!(rt; scan_block(&mut r, intra), Ok(()));
            assert_eq!(rt; r.left(), 0);
            let mut levels = [7; 64];
            assert_eq!(rt;
                read_levels(&mut reader(&octets, digits), intra, &mut levels),
                Ok(())
            );
            assert_eq!(rt; levels[0], level);
            assert_eq!(rt; &levels[1..], [0; 63].as_slice());
        }
    }

    #[test]
    fn levels_in_the_order_of_transmission(rt: HostRuntime) {
        // INTRADC 2, run 2 and level -1, an escape of run 3 and level 127, run 0 and level 2, the end
        let digits = "0000001001011000001000011011111110100010";
        let octets = octets(digits, 0, "");
        let mut levels = [0; 64];
        assert_eq!(rt;
            read_levels(&mut reader(&octets, digits), true, &mut levels),
            Ok(())
        );
        assert_eq!(rt;
            &levels[..10],
            [16, 0, 0, -1, 0, 0, 0, 127, 2, 0].as_slice()
        );
    }

    #[test]
    fn first_faults(rt: HostRuntime) {
        for (digits, intra, place, why) in [
            ("", true, 0, Why::Cut),
            ("1111111", true, 0, Why::Cut),
            ("00000000", true, 0, Why::BadDc),
            ("10000000", true, 0, Why::BadDc),
            ("11111111", true, 8, Why::Cut),
            ("10", false, 2, Why::Cut),
            ("0000000001", false, 0, Why::NoCode),
            ("1000000000001", false, 2, Why::NoCode),
            ("1000000100000000000000", false, 2, Why::BadLevel),
            ("1000000111111110000000", false, 2, Why::BadLevel),
            ("1000000111111110000001", false, 2, Why::TooMany),
            ("1111111100000111111110000001", true, 8, Why::TooMany),
            ("00000111111110000001110", false, 20, Why::TooMany),
        ] {
            let octets = octets(digits, 0, "");
            let mut r = reader(&octets, digits);
            let fault = Fault { place, why };
            assert_eq!(rt; scan_block(&mut r, intra), Err(fault));
            assert_eq!(rt; r.place(), place);
            let mut r = reader(&octets, digits);
            assert_eq!(rt; read_levels(&mut r, intra, &mut [0; 64]), Err(fault));
            assert_eq!(rt; r.place(), place);
        }
    }

    // Behind the first coefficient 110 is run 0 and level 1, and 10 the end of the block.
    #[test]
    fn blocks_octet_by_octet(rt: HostRuntime) {
        for (front, times, behind, intra, count, passed) in [
            // two ends in one octet, and then the bits end
            ("10101010", 0, "", false, 2, true),
            ("1010101010", 0, "10", false, 3, true),
            ("1010101010", 0, "1", false, 3, false),
            // a block that ends in the octet in which the next one, the last, begins
            ("10110101110", 0, "", false, 2, true),
            ("0000000110", 0, "1111111110", true, 2, true),
            // the level of an escape whose last seven bits are 1 once, and never
            ("1000000100001000000010", 0, "10", false, 1, true),
            ("1000000100001010000000", 0, "10", false, 1, false),
            ("10000000", 0, "10", true, 1, false),
            // 64 coefficients, and one more
            ("10", 63, "10", false, 1, true),
            ("10", 64, "10", false, 1, false),
        ] {
            let octets = octets(front, times, behind);
            let len = (front.len() + 3 * times + behind.len()).min(256) as u32;
            let mut r = Reader::new(Bits::new(&octets, 0, len));
            assert_eq!(rt; pass_blocks(&mut r, intra, count), passed);
            assert_eq!(rt; r.place(), if passed { len } else { 0 });
        }
    }

    // Behind the first coefficient 110 is run 0 and level 1. Zeros follow up to the 256th bit.
    #[test]
    fn words_of_a_window(rt: HostRuntime) {
        for (front, times, behind, intra, len) in [
            // several words of one look, and the end of the block among them
            ("10", 1, "11110", false, 10),
            ("0110", 1, "11110", false, 12),
            ("00001000", 1, "0100011010", true, 21),
            // run 22 as a code of 14 bits, and escapes before and behind a word
            ("10", 0, "0000000011111011010", false, 21),
            (
                "1000000100001000000010",
                1,
                "0000010000011000000110",
                false,
                47,
            ),
            // an escape that begins in one window and ends in the next, and all 64 coefficients
            ("10", 12, "0000010000011000000110", false, 60),
            ("10", 63, "10", false, 193),
        ] {
            let octets = octets(front, times, behind);
            let mut r = Reader::new(Bits::new(&octets, 0, 256));
            assert_eq!(rt; scan_block(&mut r, intra), Ok(()));
            assert_eq!(rt; r.place(), len);
        }
    }

    #[test]
    fn first_faults_behind_words_of_a_window(rt: HostRuntime) {
        for (front, times, behind, place, why) in [
            ("10", 5, "0000000001", 17, Why::NoCode),
            ("10", 14, "0000000001", 44, Why::NoCode),
            ("10", 12, "00000100000100000000", 38, Why::BadLevel),
            ("10", 16, "00000100000110000000", 50, Why::BadLevel),
            ("10", 10, "00000111111100000010", 32, Why::TooMany),
            ("10", 64, "10", 191, Why::TooMany),
        ] {
            let octets = octets(front, times, behind);
            let mut r = Reader::new(Bits::new(&octets, 0, 256));
            let fault = Fault { place, why };
            assert_eq!(rt; scan_block(&mut r, false), Err(fault));
            assert_eq!(rt; r.place(), place);
        }
    }
}
