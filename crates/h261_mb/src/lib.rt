//! Macroblocks of H.261 (4.2.3): the header of one is read, or one is read past and its mark is given, or the first fault
//! is found.
#![tactic(auto)]

mod ahead;
mod blocks;
mod direct;
mod front;
mod header;
mod kinds;
mod looks;
mod pattern;
mod state;
mod vector;
mod window;

ghost use Rattle.std.specs.Prelude.{◌≡◌, true};
ghost use Rattle.pel_model.specs.Grammar.{is_group};
ghost use Rattle.h261_mb.specs.State.{IsReady, ScansMacroblock};

use blocks::skip_blocks;
pub use header::{Header, read_header};
use pel_bits::Reader;
use pel_model::{Fault, Format, Mark};
pub use state::MbState;

/// Reads one macroblock, from its MBA on, and gives its mark, whose place counts from the reader's first bit. `state` is
/// that behind a group header or a macroblock of the group, and becomes that behind this one. Stuffing stands before the
/// call: here it is answered NoCode. `group` is the group's number (GN), one of the format; vectors are in luminance
/// samples, -15 to 15.
///
/// At a fault, NoCode, Cut, BadAddress, BadQuant, BadVector, VectorOutside, BadDc, BadLevel or TooMany, `state` is as
/// before, and the reader stands at the element at fault.
pub fn scan_mb(
    r: &mut Reader<'_>,
    format: Format,
    group: u8,
    state: &mut MbState,
) -> Result<Mark, Fault>
    requires group { is_group format group ≡ true }
    requires ready { IsReady state.old }
    ensures { ScansMacroblock format group state.old state.new result r.old r.new }
{
    let at = r.place();
    let header = read_header(r, format, group, state)?;
    let intra = header.is_intra();
    skip_blocks(r, intra, header.pattern.count_ones())?;
    *state = header.state_behind();
    Ok(Mark {
        at,
        len: r.place() - at,
        group,
        address: header.address,
        quant_after: header.quant,
        h_after: header.h,
        v_after: header.v,
        intra,
    })
}

#[cfg(test)]
mod tests {
    use super::*;
    use pel_bits::Bits;
    use pel_model::{MbKind, Why};

    // Up to 64 digits, at the front of eight octets.
    fn octets(digits: &str) -> [u8; 8] {
        let mut bits: u64 = 0;
        let mut place: u64 = 0x8000_0000_0000_0000;
        for digit in digits.bytes() {
            if digit == b'1' {
                bits |= place;
            }
            place >>= 1;
        }
        bits.to_be_bytes()
    }

    fn reader<'a>(octets: &'a [u8; 8], digits: &str) -> Reader<'a> {
        Reader::new(Bits::new(octets, 0, digits.len().min(64) as u32))
    }

    fn beginning() -> MbState
        ensures { IsReady result }
    {
        MbState {
            address: 0,
            quant: 8,
            h: 0,
            v: 0,
        }
    }

    #[test]
    fn predictor_starts_anew(rt: HostRuntime) {
        for (digits, expected) in [
            // addresses 11 and 12, then 22 and 23: a row of the group ends between them
            (
                "000010100000000010011110000000010101100000000111",
                [(11, -2, 0), (12, 1, 0), (13, 1, 0)],
            ),
            (
                "000001000110000000010011110000000010101100000000111",
                [(22, -2, 0), (23, 1, 0), (24, 1, 0)],
            ),
            // address 4 is not sent
            (
                "011000000001010110000000011101100000000111",
                [(2, 1, 0), (3, 1, 0), (5, 0, 0)],
            ),
            // the macroblock at address 3 has no vector
            (
                "01100000000101011110101010100000000111",
                [(2, 1, 0), (3, 0, 0), (4, 0, 0)],
            ),
        ] {
            let octets = octets(digits);
            let mut r = reader(&octets, digits);
            let mut state = beginning();
            for vector in expected {
                let mark = scan_mb(&mut r, Format::Qcif, 1, &mut state).expect(&rt, "a macroblock");
                assert_eq!(rt; (mark.address, mark.h_after, mark.v_after), vector);
            }
            assert_eq!(rt; r.left(), 0);
        }
    }

    fn outside(place: u32) -> Option<Fault> {
        Some(Fault {
            place,
            why: Why::VectorOutside,
        })
    }

    #[test]
    fn vector_outside(rt: HostRuntime) {
        for (format, group, digits, expected) in [
            // the first macroblock of a group one sample to the left, or up
            (Format::Qcif, 1, "10000000010111", outside(10)),
            (Format::Qcif, 1, "10000000011011", outside(11)),
            (Format::Qcif, 1, "10000000010101", None),
            (Format::Qcif, 3, "10000000011011", None),
            (Format::Cif, 1, "10000000010111", outside(10)),
            (Format::Cif, 2, "10000000010111", None),
            (Format::Cif, 2, "10000000011011", outside(11)),
            // the last one of the last group to the right, or down
            (Format::Qcif, 5, "000000110000000000010101", outside(20)),
            (Format::Qcif, 5, "000000110000000000011010", outside(21)),
            (Format::Qcif, 5, "00000011000000000001011011", None),
            (Format::Cif, 11, "000000110000000000010101", None),
            (Format::Cif, 12, "000000110000000000010101", outside(20)),
            (Format::Cif, 12, "000000110000000000011010", outside(21)),
        ] {
            let octets = octets(digits);
            let mut r = reader(&octets, digits);
            let fault = scan_mb(&mut r, format, group, &mut beginning()).err();
            assert_eq!(rt; fault, expected);
        }
    }

    #[test]
    fn mquant_lasts(rt: HostRuntime) {
        // InterQuant with MQUANT 5, then Inter, both with their first block alone
        let digits = "10000100101101010101110101010";
        let octets = octets(digits);
        let mut r = reader(&octets, digits);
        let mut state = beginning();
        for (at, len, address) in [(0, 19, 1), (19, 10, 2)] {
            let mark = Mark {
                at,
                len,
                group: 3,
                address,
                quant_after: 5,
                h_after: 0,
                v_after: 0,
                intra: false,
            };
            assert_eq!(rt; scan_mb(&mut r, Format::Qcif, 3, &mut state), Ok(mark));
        }
        assert_eq!(rt; state.quant, 5);
    }

    #[test]
    fn headers_of_macroblocks(rt: HostRuntime) {
        let header = |kind, quant, h, v, pattern| Header {
            address: 3,
            kind,
            quant,
            h,
            v,
            pattern,
        };
        for (digits, expected, len) in [
            ("0100001", header(MbKind::Intra, 8, 0, 0, 63), 7),
            (
                "010000000100101",
                header(MbKind::IntraQuant, 5, 0, 0, 63),
                15,
            ),
            ("01011010", header(MbKind::Inter, 8, 0, 0, 32), 8),
            (
                "010000011111101011",
                header(MbKind::InterQuant, 31, 0, 0, 1),
                18,
            ),
            ("010000000001010011", header(MbKind::Mc, 8, 1, -1, 0), 18),
            (
                "0100111000000010",
                header(MbKind::McFilCoded, 8, 0, 0, 39),
                16,
            ),
        ] {
            let octets = octets(digits);
            let mut r = reader(&octets, digits);
            let header = read_header(&mut r, Format::Qcif, 3, &beginning());
            assert_eq!(rt; header, Ok(expected));
            assert_eq!(rt; r.place(), len);
            // and where so many bits follow that it stands in a window
            let mut r = Reader::new(Bits::new(&octets, 0, 64));
            let header = read_header(&mut r, Format::Qcif, 3, &beginning());
            assert_eq!(rt; header, Ok(expected));
            assert_eq!(rt; r.place(), len);
        }
        let sent = header(MbKind::McFilCoded, 8, 0, 0, 39);
        let luminance = [sent.sends(0), sent.sends(1), sent.sends(2), sent.sends(3)];
        assert_eq!(rt; luminance, [true, false, false, true]);
        assert_eq!(rt; (sent.sends(4), sent.sends(5)), (true, true));
        assert!(rt; !sent.is_intra());
        assert_eq!(rt; sent.state_behind().address, 3);
    }

    #[test]
    fn first_faults(rt: HostRuntime) {
        for (digits, place, why) in [
            ("", 0, Why::Cut),
            ("0000000000000", 0, Why::NoCode),
            ("00000001111", 0, Why::NoCode),
            ("00000111", 0, Why::BadAddress),
            ("1", 1, Why::Cut),
            ("10000000000", 1, Why::NoCode),
            ("10000100000", 6, Why::BadQuant),
            ("1000010000", 6, Why::Cut),
            ("1000000001010", 10, Why::BadVector),
            ("011000000001010", 12, Why::VectorOutside),
            ("100000000110000000000", 11, Why::NoCode),
            ("11000000000", 2, Why::NoCode),
            ("1000110000000", 5, Why::BadDc),
            ("11101000000100000000000000", 6, Why::BadLevel),
            ("1110101000000111111100000001", 8, Why::TooMany),
            ("11101010", 8, Why::Cut),
        ] {
            let before = MbState {
                address: 20,
                quant: 8,
                h: 15,
                v: 0,
            };
            let mut state = before;
            let octets = octets(digits);
            let mut r = reader(&octets, digits);
            assert_eq!(rt;
                scan_mb(&mut r, Format::Qcif, 1, &mut state),
                Err(Fault { place, why })
            );
            assert_eq!(rt; state, before);
            assert_eq!(rt; r.place(), place);
            if why != Why::Cut {
                let mut r = Reader::new(Bits::new(&octets, 0, 64));
                let found = scan_mb(&mut r, Format::Qcif, 1, &mut state);
                assert_eq!(rt; found, Err(Fault { place, why }));
                assert_eq!(rt; r.place(), place);
            }
        }
    }
}
