//! Pictures as senders may send them, and the first fault of others, with answers counted by hand from the code tables.

ghost use Rattle.std.specs.Prelude.{◌≡◌, length, IfOk};
ghost use Rattle.pel_model.specs.Valid.{group_count};

use crate::digits::Sent;
use crate::{Coded, GroupView, parse};
use pel_bits::{Bits, NoMemory};
use pel_model::Format::{Cif, Qcif};
use pel_model::Why::{
    BadAddress, BadDc, BadGroup, BadLevel, BadQuant, BadVector, Cut, NoCode, NoStart, StillImage,
    TooLong, TooMany, VectorOutside, WrongFormat,
};
use pel_model::{Fault, Format, Mark, Why};
use std::alloc::{AllocError, Global};
use std::test::Fail;

/// The start code of a picture, TR 1, the picture type and a PEI of 0.
const QCIF_HEADER: &str = "00000000000000010000 00001 000011 0";

const CIF_HEADER: &str = "00000000000000010000 00001 000111 0";

/// Headers of groups with GQUANT 8.
const GROUP_1: &str = "0000000000000001 0001 01000 0";

const GROUP_3: &str = "0000000000000001 0011 01000 0";

const GROUP_5: &str = "0000000000000001 0101 01000 0";

const STUFFING: &str = "00000001111";

/// An escape of run 0 and level 16.
const ESCAPE: &str = "000001 000000 00010000";

/// Three macroblocks of group 1 with vectors: at address 11, and at 12, where a row begins, and 13.
const TURN: [&str; 7] = [
    QCIF_HEADER,
    GROUP_1,
    "00001010 000000001 0011 1",
    "1 000000001 010 1",
    "1 000000001 1 1",
    GROUP_3,
    GROUP_5,
];

// The answer over a picture of its own, and how many marks and bits are there then.
fn answer_and_size(
    alloc: Global,
    format: Format,
    bits: Bits<'_>,
) -> Result<(Result<(), Fault>, usize, u32), NoMemory> {
    let mut coded = Coded::reserve(alloc, format)?;
    let answer = parse(bits, format, &mut coded);
    Ok((answer, coded.marks().len(), coded.bits().len()))
}

fn answer(alloc: Global, format: Format, bits: Bits<'_>) -> Result<Result<(), Fault>, NoMemory> {
    Ok(answer_and_size(alloc, format, bits)?.0)
}

// A picture that has to be good.
fn parsed(alloc: Global, format: Format, bits: Bits<'_>) -> Result<Coded, Fail>
    ensures format { IfOk result (λ coded. coded.format ≡ format) }
    ensures groups { IfOk result (λ coded. length coded.groups ≡ group_count format) }
{
    let mut coded = Coded::reserve(alloc, format)?;
    parse(bits, format, &mut coded)?;
    Ok(coded)
}

// The mark of a macroblock that is not Intra, where the quantiser in effect is 8 and the vector is horizontal.
fn mark(group: u8, at: u32, len: u32, address: u8, h: i8) -> Mark {
    Mark {
        at,
        len,
        group,
        address,
        quant_after: 8,
        h_after: h,
        v_after: 0,
        intra: false,
    }
}

#[test]
fn predictor_starts_anew(rt: HostRuntime) -> Result<(), Fail> {
    let sent = Sent::of(rt.alloc(), &TURN)?;
    let coded = parsed(rt.alloc(), Qcif, sent.bits())?;
    let marks = [
        mark(1, 58, 22, 11, -2),
        mark(1, 80, 14, 12, 1),
        mark(1, 94, 12, 13, 1),
    ];
    assert_eq!(rt; coded.marks(), marks.as_slice());
    assert_eq!(rt; coded.octets(), sent.octets.as_slice());
    assert_eq!(rt;
        (coded.tr(), coded.bits().len(), coded.is_refresh()),
        (1, 158, false)
    );
    Ok(())
}

/// Where the elements of `TURN` begin.
const ELEMENTS: [u32; 28] = [
    0, 20, 25, 31, 32, 48, 52, 57, 58, 66, 75, 79, 80, 81, 90, 93, 94, 95, 104, 105, 106, 122, 126,
    131, 132, 148, 152, 157,
];

/// Which numbers of its first bits are a picture, from and to, and how many marks and bits that has.
const GOOD_FRONTS: [(u32, u32, usize, u32); 7] = [
    (32, 39, 0, 110),
    (58, 62, 0, 110),
    (80, 80, 1, 132),
    (94, 94, 2, 146),
    (106, 113, 3, 158),
    (132, 139, 3, 158),
    (158, 158, 3, 158),
];

#[test]
fn fronts_of_turn(rt: HostRuntime) -> Result<(), Fail> {
    let sent = Sent::of(rt.alloc(), &TURN)?;
    for len in 0..159_u32 {
        let good = GOOD_FRONTS
            .iter()
            .find(|(from, to, _, _)| *from <= len && len <= *to);
        let want = if let Some((_, _, marks, bits)) = good {
            (Ok(()), *marks, *bits)
        } else {
            (Err(cut_in_turn(len)), 0, 0)
        };
        let got = answer_and_size(rt.alloc(), Qcif, sent.front(len))?;
        assert_eq!(rt; got, want, "the first {len} bits");
    }
    Ok(())
}

// The fault of so many of the first bits of `TURN`, where these end inside an element.
fn cut_in_turn(len: u32) -> Fault {
    let mut place = 0;
    for start in ELEMENTS {
        if start <= len {
            place = start;
        }
    }
    Fault { place, why: Cut }
}

#[test]
fn vector_outside(rt: HostRuntime) -> Result<(), Fail> {
    let outside = Fault {
        place: 68,
        why: VectorOutside,
    };
    for (across, want) in [("011", Err(outside)), ("010", Ok(()))] {
        let pieces = [QCIF_HEADER, GROUP_1, "1", "000000001", across, "1"];
        let sent = Sent::of(rt.alloc(), &pieces)?;
        assert_eq!(rt; answer(rt.alloc(), Qcif, sent.bits())?, want);
    }
    Ok(())
}

// All but the last of 99 Intra macroblocks in groups 1, 3 and 5. Each block has INTRADC 11111111 and so many escapes.
fn grey_but_one(alloc: Global, header: &str, escapes: u32) -> Result<Sent, AllocError> {
    let mut sent = Sent::of(alloc, &[header])?;
    for (group, macroblocks) in [(GROUP_1, 33), (GROUP_3, 33), (GROUP_5, 32)] {
        sent.put(group)?;
        for _ in 0..macroblocks {
            sent.put("1 0001")?;
            for _ in 0..6 {
                sent.put("11111111")?;
                sent.put_times(ESCAPE, escapes)?;
                sent.put("10")?;
            }
        }
    }
    Ok(sent)
}

#[test]
fn one_bit_over_the_limit(rt: HostRuntime) -> Result<(), Fail> {
    let over = Fault {
        place: 65_535,
        why: TooLong,
    };
    for (last, len, want) in [
        ("110 0110 0110 10", 65_536, Ok(())),
        ("0110 0110 0110 10", 65_537, Err(over)),
    ] {
        let mut sent = grey_but_one(rt.alloc(), QCIF_HEADER, 5)?;
        sent.put("1 0001 11111111")?;
        sent.put_times(ESCAPE, 5)?;
        sent.put("10 11111111")?;
        sent.put_times(ESCAPE, 4)?;
        sent.put("10 11111111 10 11111111 10 11111111 10 11111111")?;
        sent.put(last)?;
        assert_eq!(rt; sent.len, len);
        assert_eq!(rt; answer(rt.alloc(), Qcif, sent.bits())?, want);
    }
    Ok(())
}

#[test]
fn ninety_eight_intra(rt: HostRuntime) -> Result<(), Fail> {
    assert!(rt; !Coded::reserve(rt.alloc(), Qcif)?.is_refresh());
    let intra = "1 0001 1111111110 1111111110 1111111110 1111111110 1111111110 1111111110";
    let inter = "1 1 1010 10 10";
    for (format, header, last, want) in [
        (Qcif, QCIF_HEADER, intra, true),
        (Qcif, QCIF_HEADER, inter, false),
        (Qcif, QCIF_HEADER, "", false),
        (Cif, CIF_HEADER, intra, false),
    ] {
        let mut sent = grey_but_one(rt.alloc(), header, 0)?;
        sent.put(last)?;
        let coded = parsed(rt.alloc(), format, sent.bits())?;
        assert_eq!(rt; coded.is_refresh(), want);
    }
    Ok(())
}

/// A header of a picture, one of a group, what stands behind them so many times, and the place and the reason of the
/// first fault. Each reason is there.
const REASONS: [(Format, [&str; 3], u32, u32, Why); 23] = [
    (Qcif, ["", "", "00000000000000010001"], 1, 0, NoStart),
    (Qcif, [CIF_HEADER, "", ""], 1, 25, WrongFormat),
    (Cif, [QCIF_HEADER, "", ""], 1, 25, WrongFormat),
    // a still picture of the other format
    (
        Qcif,
        ["", "", "00000000000000010000 00001 000101 0"],
        1,
        25,
        WrongFormat,
    ),
    (
        Qcif,
        ["", "", "00000000000000010000 00001 000001 0"],
        1,
        25,
        StillImage,
    ),
    (
        Qcif,
        [QCIF_HEADER, "", "0000000000000001 0010 01000 0"],
        1,
        48,
        BadGroup,
    ),
    (Qcif, [QCIF_HEADER, GROUP_3, GROUP_1], 1, 74, BadGroup),
    (
        Cif,
        [CIF_HEADER, "", "0000000000000001 1101 01000 0"],
        1,
        48,
        BadGroup,
    ),
    (
        Qcif,
        [QCIF_HEADER, "", "0000000000000001 0001 00000 0"],
        1,
        52,
        BadQuant,
    ),
    (Cif, [CIF_HEADER, GROUP_3, "1 00001 00000"], 1, 64, BadQuant),
    // two groups are missing in QCIF, eleven in CIF, and a header has 26 bits
    (
        Qcif,
        [QCIF_HEADER, GROUP_1, STUFFING],
        5_948,
        65_475,
        TooLong,
    ),
    (
        Cif,
        [CIF_HEADER, GROUP_1, STUFFING],
        23_801,
        261_858,
        TooLong,
    ),
    (Qcif, [QCIF_HEADER, "", "1"], 1, 32, NoCode),
    (Cif, [CIF_HEADER, GROUP_1, "1 0000000000"], 1, 59, NoCode),
    (Qcif, [QCIF_HEADER, "", "0000000000000001 00"], 1, 48, Cut),
    (
        Qcif,
        [QCIF_HEADER, GROUP_1, "00000011000 000000001 1 1 1"],
        1,
        80,
        BadAddress,
    ),
    (
        Cif,
        [CIF_HEADER, GROUP_5, "1 000000001 00000011001"],
        1,
        68,
        BadVector,
    ),
    (
        Qcif,
        [QCIF_HEADER, GROUP_1, "00001010 000000001 010"],
        1,
        75,
        VectorOutside,
    ),
    (
        Qcif,
        [QCIF_HEADER, GROUP_1, "1 0001 10000000"],
        1,
        63,
        BadDc,
    ),
    (Cif, [CIF_HEADER, GROUP_5, "1 0001 00000000"], 1, 63, BadDc),
    (
        Cif,
        [
            CIF_HEADER,
            GROUP_5,
            "1 0001 11111111 000001 000000 10000000",
        ],
        1,
        71,
        BadLevel,
    ),
    (
        Qcif,
        [
            QCIF_HEADER,
            GROUP_1,
            "1 0001 11111111 000001 000011 00000000",
        ],
        1,
        71,
        BadLevel,
    ),
    (
        Qcif,
        [
            QCIF_HEADER,
            GROUP_1,
            "1 0001 11111111 000001 111111 00000001",
        ],
        1,
        71,
        TooMany,
    ),
];

#[test]
fn each_reason(rt: HostRuntime) -> Result<(), Fail> {
    for (format, [header, group, rest], times, place, why) in REASONS {
        let mut sent = Sent::of(rt.alloc(), &[header, group])?;
        sent.put_times(rest, times)?;
        let fault = Fault { place, why };
        assert_eq!(rt;
            answer(rt.alloc(), format, sent.bits())?,
            Err(fault),
            "{why:?}"
        );
    }
    Ok(())
}

/// The header of a CIF picture with five spare bytes.
const CIF_HEADER_WITH_SPARES: &str =
    "00000000000000010000 00001 000111 1 00000000 1 00000001 1 00000010 1 00000011 1 11111111 0";

#[test]
fn stuffing_up_to_the_limit(rt: HostRuntime) -> Result<(), Fail> {
    // 5,947 stuffings leave 9 bits of a QCIF picture, 23,800 none of a CIF picture; with the spare bytes there is one bit
    // too many
    let over = Fault {
        place: 261_848,
        why: TooLong,
    };
    for (format, header, times, want) in [
        (Qcif, QCIF_HEADER, 5_947, Ok(())),
        (Cif, CIF_HEADER, 23_800, Ok(())),
        (Cif, CIF_HEADER_WITH_SPARES, 23_795, Ok(())),
        (Cif, CIF_HEADER_WITH_SPARES, 23_796, Err(over)),
    ] {
        let mut sent = Sent::of(rt.alloc(), &[header, GROUP_1])?;
        sent.put_times(STUFFING, times)?;
        assert_eq!(rt; answer(rt.alloc(), format, sent.bits())?, want);
    }
    Ok(())
}

/// Macroblocks with an element that reaches past the limit, where stuffing left 9 bits in QCIF or 11 in CIF: the place of
/// that element in both formats, and the reason. A fault of the element itself is told before its length.
const PAST_THE_LIMIT: [(&str, u32, u32, Why); 6] = [
    ("1 0001 10000000", 65_480, 261_852, BadDc),
    ("1 0001 11111111", 65_480, 261_852, TooLong),
    ("1 1 1010 000001 000000 10000000", 65_481, 261_853, BadLevel),
    ("1 1 1010 000001 000000 10000001", 65_481, 261_853, TooLong),
    (
        "1 1 1010 10 000001 111111 00000001",
        65_483,
        261_855,
        TooMany,
    ),
    (
        "1 1 1010 10 000001 111110 00000001",
        65_483,
        261_855,
        TooLong,
    ),
];

#[test]
fn a_fault_past_the_limit(rt: HostRuntime) -> Result<(), Fail> {
    for (rest, in_qcif, in_cif, why) in PAST_THE_LIMIT {
        for (format, header, times, place) in [
            (Qcif, QCIF_HEADER, 5_947, in_qcif),
            (Cif, CIF_HEADER, 23_799, in_cif),
        ] {
            let mut sent = Sent::of(rt.alloc(), &[header, GROUP_1])?;
            sent.put_times(STUFFING, times)?;
            sent.put(rest)?;
            let fault = Fault { place, why };
            assert_eq!(rt;
                answer(rt.alloc(), format, sent.bits())?,
                Err(fault),
                "{rest}"
            );
        }
    }
    Ok(())
}

/// A CIF picture with a vector from group 1 into group 2, a quantiser that lasts, and groups 1, 3 and 12 alone.
const WIDE: [&str; 8] = [
    CIF_HEADER,
    GROUP_1,
    "00001010 000000001 00001010 1",
    "1 00001 00101 1010 10 10",
    "1 1 1010 10 10",
    GROUP_3,
    "1 000000001 1 1",
    "0000000000000001 1100 01000 0",
];

/// Where its groups stand: the number, the quantiser, the first bit, and the numbers of bits, of marks before and of marks.
const WIDE_VIEWS: [(u8, u8, u32, u32, u16, u16); 12] = [
    (1, 8, 58, 55, 0, 3),
    (2, 1, 139, 0, 3, 0),
    (3, 8, 165, 12, 3, 1),
    (4, 1, 203, 0, 4, 0),
    (5, 1, 229, 0, 4, 0),
    (6, 1, 255, 0, 4, 0),
    (7, 1, 281, 0, 4, 0),
    (8, 1, 307, 0, 4, 0),
    (9, 1, 333, 0, 4, 0),
    (10, 1, 359, 0, 4, 0),
    (11, 1, 385, 0, 4, 0),
    (12, 8, 411, 0, 4, 0),
];

// The picture of `WIDE`.
fn wide(alloc: Global) -> Result<Coded, Fail>
    ensures groups { IfOk result (λ coded. length coded.groups ≡ 12) }
{
    let sent = Sent::of(alloc, &WIDE)?;
    parsed(alloc, Cif, sent.bits())
}

#[test]
fn marks_of_a_cif_picture(rt: HostRuntime) -> Result<(), Fail> {
    let coded = wide(rt.alloc())?;
    let marks = [
        mark(1, 58, 26, 11, 5),
        Mark {
            quant_after: 5,
            ..mark(1, 84, 19, 12, 0)
        },
        Mark {
            quant_after: 5,
            ..mark(1, 103, 10, 13, 0)
        },
        mark(3, 165, 12, 1, 0),
    ];
    assert_eq!(rt; coded.marks(), marks.as_slice());
    assert_eq!(rt; (coded.bits().len(), coded.is_refresh()), (411, false));
    Ok(())
}

#[test]
fn groups_of_a_cif_picture(rt: HostRuntime) -> Result<(), Fail> {
    let coded = wide(rt.alloc())?;
    for (i, (number, quant, from, len, first_mark, marks)) in WIDE_VIEWS.into_iter().enumerate() {
        let want = view(number, quant, from, len, first_mark, marks);
        assert_eq!(rt; coded.group(i), want);
    }
    Ok(())
}

/// Its strict text.
const WIDE_WITH_ALL_GROUPS: [&str; 17] = [
    CIF_HEADER,
    GROUP_1,
    "00001010 000000001 00001010 1",
    "1 00001 00101 1010 10 10",
    "1 1 1010 10 10",
    "0000000000000001 0010 00001 0",
    GROUP_3,
    "1 000000001 1 1",
    "0000000000000001 0100 00001 0",
    "0000000000000001 0101 00001 0",
    "0000000000000001 0110 00001 0",
    "0000000000000001 0111 00001 0",
    "0000000000000001 1000 00001 0",
    "0000000000000001 1001 00001 0",
    "0000000000000001 1010 00001 0",
    "0000000000000001 1011 00001 0",
    "0000000000000001 1100 01000 0",
];

#[test]
fn text_of_a_cif_picture(rt: HostRuntime) -> Result<(), Fail> {
    let coded = wide(rt.alloc())?;
    let strict = Sent::of(rt.alloc(), &WIDE_WITH_ALL_GROUPS)?;
    assert_eq!(rt; coded.octets(), strict.octets.as_slice());
    Ok(())
}

/// `TURN` without group 3, with spare bytes, stuffing behind a header, a macroblock and a stuffing, and zeros at the end.
const TURN_WITH_MORE: [&str; 13] = [
    "00000000000000010000 00001 110010 1 10101010 1 00000000 0",
    "0000000000000001 0001 01000 1 00000001 0",
    STUFFING,
    "00001010 000000001 0011 1",
    STUFFING,
    STUFFING,
    "1 000000001 010 1",
    STUFFING,
    "1 000000001 1 1",
    STUFFING,
    GROUP_5,
    STUFFING,
    "0000000",
];

/// Its strict text.
const TURN_WITH_LESS: [&str; 7] = [
    QCIF_HEADER,
    GROUP_1,
    "00001010 000000001 0011 1",
    "1 000000001 010 1",
    "1 000000001 1 1",
    "0000000000000001 0011 00001 0",
    GROUP_5,
];

#[test]
fn what_a_sender_may_add(rt: HostRuntime) -> Result<(), Fail> {
    let sent = Sent::of(rt.alloc(), &TURN_WITH_MORE)?;
    let strict = Sent::of(rt.alloc(), &TURN_WITH_LESS)?;
    let coded = parsed(rt.alloc(), Qcif, sent.bits())?;
    assert_eq!(rt; coded.octets(), strict.octets.as_slice());
    assert_eq!(rt; (coded.tr(), coded.bits().len()), (1, 158));
    let marks = [
        mark(1, 58, 22, 11, -2),
        mark(1, 80, 14, 12, 1),
        mark(1, 94, 12, 13, 1),
    ];
    assert_eq!(rt; coded.marks(), marks.as_slice());
    let views = [
        view(1, 8, 58, 48, 0, 3),
        view(3, 1, 132, 0, 3, 0),
        view(5, 8, 158, 0, 3, 0),
    ];
    assert_eq!(rt; [coded.group(0), coded.group(1), coded.group(2)], views);
    Ok(())
}

// The view of a group: its number and quantiser, and where its macroblocks and their marks stand.
fn view(number: u8, quant: u8, from: u32, len: u32, first_mark: u16, marks: u16) -> GroupView {
    GroupView {
        number,
        quant,
        from,
        len,
        first_mark,
        marks,
    }
}

#[test]
fn a_fault_leaves_nothing(rt: HostRuntime) -> Result<(), Fail> {
    let sent = Sent::of(rt.alloc(), &TURN)?;
    let mut coded = parsed(rt.alloc(), Qcif, sent.bits())?;
    let fault = Fault {
        place: 132,
        why: Cut,
    };
    assert_eq!(rt; parse(sent.front(140), Qcif, &mut coded), Err(fault));
    assert!(rt; coded.is_empty());
    assert_eq!(rt;
        (coded.tr(), coded.octets().len(), coded.marks().len()),
        (0, 0, 0)
    );
    Ok(())
}
