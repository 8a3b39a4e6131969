//! Headers as senders may write them, what comes behind them, and the first fault of others.

use crate::coming::Coming::{End, Group, Macroblock, Stuffing};
use crate::coming::{take_coming, take_group_or_end};
use crate::digits::Sent;
use crate::input_headers::{GroupHeader, read_group_header, read_picture_header};
use pel_bits::Reader;
use pel_model::Format::{Cif, Qcif};
use pel_model::Why::{BadGroup, BadQuant, Cut, NoCode, NoStart, StillImage, WrongFormat};
use pel_model::{Fault, Why};
use std::test::Fail;

// The first fault, and that the reader stands there.
fn at<T>(place: u32, why: Why) -> (Result<T, Fault>, u32) {
    (Err(Fault { place, why }), place)
}

#[test]
fn picture_headers(rt: HostRuntime) -> Result<(), Fail> {
    let spare_bytes = "0000000000000001000000001101010100000000111111111000";
    for (format, digits, (result, place)) in [
        (Qcif, "00000000000000010000000010000110", (Ok(1), 32)),
        (Cif, "00000000000000010000000010001110", (Ok(1), 32)),
        (Qcif, spare_bytes, (Ok(1), 50)),
        (Qcif, "000000000000000", at(0, Cut)),
        (Qcif, "0000000000000000", at(0, NoStart)),
        (Qcif, "00000000000000010000", at(20, Cut)),
        (
            Qcif,
            "00000000000000010000000010001110",
            at(25, WrongFormat),
        ),
        (Cif, "00000000000000010000000010001010", at(25, StillImage)),
        (Qcif, "000000000000000100000000110101010000", at(32, Cut)),
    ] {
        let sent = Sent::of(rt.alloc(), &[digits])?;
        let mut r = Reader::new(sent.bits());
        assert_eq!(rt; read_picture_header(&mut r, format), result);
        assert_eq!(rt; r.place(), place);
    }
    Ok(())
}

#[test]
fn group_headers(rt: HostRuntime) -> Result<(), Fail> {
    let header = |number, quant| Ok(GroupHeader { number, quant });
    for (format, digits, last, (result, place)) in [
        (Qcif, "0001010000", 0, (header(1, 8), 10)),
        (Qcif, "0101000011000000010", 3, (header(5, 1), 19)),
        (Cif, "1100111110", 11, (header(12, 31), 10)),
        (Qcif, "0010010000", 0, at(0, BadGroup)),
        (Qcif, "0011010000", 3, at(0, BadGroup)),
        (Cif, "1101010000", 0, at(0, BadGroup)),
        (Qcif, "0001000000", 0, at(4, BadQuant)),
        (Qcif, "0001010001000", 0, at(10, Cut)),
    ] {
        let sent = Sent::of(rt.alloc(), &[digits])?;
        let mut r = Reader::new(sent.bits());
        assert_eq!(rt; read_group_header(&mut r, format, last), result);
        assert_eq!(rt; r.place(), place);
    }
    Ok(())
}

#[test]
fn what_comes_where_a_macroblock_may(rt: HostRuntime) -> Result<(), Fail> {
    for (digits, (result, place)) in [
        ("", (Ok(End), 0)),
        ("0000000", (Ok(End), 0)),
        ("00000000", at(0, Cut)),
        ("0000000000000", at(0, Cut)),
        ("0000000000000000", at(0, NoCode)),
        ("00000000000011", at(0, NoCode)),
        ("000000000000000100", (Ok(Group), 16)),
        ("0000000111100", (Ok(Stuffing), 11)),
        ("000000011", at(0, Cut)),
        ("011", (Ok(Macroblock), 0)),
        ("01", at(0, Cut)),
    ] {
        let sent = Sent::of(rt.alloc(), &[digits])?;
        let mut r = Reader::new(sent.bits());
        assert_eq!(rt; take_coming(&mut r), result);
        assert_eq!(rt; r.place(), place);
    }
    Ok(())
}

#[test]
fn what_comes_behind_a_picture_header(rt: HostRuntime) -> Result<(), Fail> {
    for (digits, (result, place)) in [
        ("", (Ok(End), 0)),
        ("0000000", (Ok(End), 0)),
        ("00000000", at(0, Cut)),
        ("000000000000000100", (Ok(Group), 16)),
        ("1", at(0, NoCode)),
        ("0000000000000000", at(0, NoCode)),
    ] {
        let sent = Sent::of(rt.alloc(), &[digits])?;
        let mut r = Reader::new(sent.bits());
        assert_eq!(rt; take_group_or_end(&mut r), result);
        assert_eq!(rt; r.place(), place);
    }
    Ok(())
}
