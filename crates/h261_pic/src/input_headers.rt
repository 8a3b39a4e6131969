//! The headers of pictures and of groups of blocks as senders may send them, with spare bytes (H.261, 4.2.1, 4.2.2).

ghost use Rattle.std.specs.Prelude.{◌≡◌, ◌≤◌, ◌<◌, ◌^◌, ◌&&◌, ℕ, true, List, length, take, nat_lt, IfOk, IfErr};
ghost use Rattle.pel_bits.specs.Reading.{skipped};
ghost use Rattle.pel_model.specs.declared.Format.{Format as PictureFormat};
ghost use Rattle.pel_model.specs.declared.Why.TheVariants.{Cut};
ghost use Rattle.pel_model.specs.Bits.{number};
ghost use Rattle.pel_model.specs.Grammar.{Element, Psc, Ptype, Gn, Gquant, Slot, slot, AtPsc, AtPtype, AtGn, AtGquant, group, is_group, names_format, next};
ghost use Rattle.pel_model.specs.Walk.{Takes, Walked};
ghost use Rattle.h261_pic.specs.HeaderElements.{Layer, FieldOf, flag_slot, IsPictureHeader, IsGroupHeader, AreSpares, AreSparesSoFar, IsPictureHeaderSoFar, IsGroupHeaderSoFar};

use crate::formats::is_group;
use pel_bits::Reader;
use pel_model::{Fault, Format, Why};

/// GN and GQUANT of a group of blocks.
#[derive(Clone, Copy, Debug, PartialEq, Eq)]
pub struct GroupHeader {
    pub number: u8,
    pub quant: u8,
}

/// Takes a picture header, from PSC to the last PEI, and gives TR. Split screen, document camera, freeze release and the
/// spare bit may be on or off, and spare bytes are passed over. At a fault, NoStart, Cut, WrongFormat or StillImage, the
/// reader stands at the element at fault.
pub fn read_picture_header(r: &mut Reader<'_>, format: Format) -> Result<u8, Fault>
    ensures walk { (before : List Element) → slot before ≡ AtPsc →
        Walked (next format) before IsPictureHeader
        IsPictureHeaderSoFar result r.old r.new }
    ensures within { IfOk result (λ tr. tr < 32) }
{
    take_psc(r)?;
    let tr = take_field(r, 5)?;
    take_ptype(r, format)?;
    pass_spares(r)?;
    Ok(tr as u8)
}

/// Takes a group header behind its start code, from GN to the last GEI; `last` is the number of the group before, 0 where
/// none came. Spare bytes are passed over. At a fault, BadGroup, BadQuant or Cut, the reader stands at the element at
/// fault.
pub fn read_group_header(r: &mut Reader<'_>, format: Format, last: u8) -> Result<GroupHeader, Fault>
    ensures walk { (before : List Element) → slot before ≡ AtGn → group before ≡ last →
        Walked (next format) before IsGroupHeader
        IsGroupHeaderSoFar result r.old r.new }
    ensures number { IfOk result (λ header.
        (is_group format header.number ≡ true) × (last < header.number)) }
    ensures quant { IfOk result (λ header. (0 < header.quant) × (header.quant < 32)) }
{
    let number = take_gn(r, format, last)?;
    let quant = take_gquant(r)?;
    pass_spares(r)?;
    Ok(GroupHeader { number, quant })
}

// Takes PSC. Bits that do not begin with it, nor are a front of it, are no picture (4.2.1.1).
fn take_psc(r: &mut Reader<'_>) -> Result<(), Fault>
    ensures { (format : PictureFormat) (before : List Element) → slot before ≡ AtPsc →
        Takes (λ _. Psc) (next format before r.old) result r.old r.new }
{
    let place = r.place();
    let width = r.left().min(20);
    if r.peek(width) != 0x10 >> (20 - width) {
        return Err(Fault {
            place,
            why: Why::NoStart,
        });
    }
    if width < 20 {
        return Err(Fault {
            place,
            why: Why::Cut,
        });
    }
    r.skip(20);
    Ok(())
}

// Takes PTYPE, 6 bits, of which the fourth is the format and the fifth is HI_RES, 1 where it is off (4.2.1.3).
fn take_ptype(r: &mut Reader<'_>, format: Format) -> Result<u32, Fault>
    ensures taken { (before : List Element) → slot before ≡ AtPtype →
        Takes Ptype (next format before r.old) result r.old r.new }
{
    let ptype = look(r, 6)?;
    let place = r.place();
    if !names(format, ptype) {
        return Err(Fault {
            place,
            why: Why::WrongFormat,
        });
    }
    if ptype / 2 % 2 == 0 {
        return Err(Fault {
            place,
            why: Why::StillImage,
        });
    }
    r.skip(6);
    Ok(ptype)
}

// The fourth bit is 0 for QCIF and 1 for CIF (4.2.1.3).
fn names(format: Format, ptype: u32) -> bool
    ensures { result ≡ names_format format ptype }
{
    match format {
        Format::Qcif => ptype / 4 % 2 == 0,
        Format::Cif => ptype / 4 % 2 == 1,
    }
}

// Takes GN, 4 bits: a number of the format, above that of the group before (4.2.2.2).
fn take_gn(r: &mut Reader<'_>, format: Format, last: u8) -> Result<u8, Fault>
    ensures taken { (before : List Element) → slot before ≡ AtGn → group before ≡ last →
        Takes Gn (next format before r.old) result r.old r.new }
    ensures within { IfOk result (λ n. (is_group format n ≡ true) × (last < n)) }
{
    let number = look(r, 4)? as u8;
    let place = r.place();
    if !may_come(format, number, last) {
        return Err(Fault {
            place,
            why: Why::BadGroup,
        });
    }
    r.skip(4);
    Ok(number)
}

// The group has a number of the format, and it is above that of the group before.
fn may_come(format: Format, number: u8, last: u8) -> bool
    ensures { result ≡ (is_group format number && nat_lt last number) }
{
    is_group(format, number) && last < number
}

// Takes GQUANT, 5 bits that are not 0 (4.2.2.3).
fn take_gquant(r: &mut Reader<'_>) -> Result<u8, Fault>
    ensures taken { (format : PictureFormat) (before : List Element) → slot before ≡ AtGquant →
        Takes Gquant (next format before r.old) result r.old r.new }
    ensures within { IfOk result (λ q. (0 < q) × (q < 32)) }
{
    let quant = look(r, 5)? as u8;
    let place = r.place();
    if quant == 0 {
        return Err(Fault {
            place,
            why: Why::BadQuant,
        });
    }
    r.skip(5);
    Ok(quant)
}

// Passes over spare bytes, up to the flag behind the last (4.2.1.4, 4.2.2.4).
fn pass_spares(r: &mut Reader<'_>) -> Result<(), Fault>
    ensures walk { (format : PictureFormat) (before : List Element) (layer : Layer) →
        slot before ≡ flag_slot layer →
        Walked (next format) before (AreSpares layer)
        (AreSparesSoFar layer) result r.old r.new }
{
    while take_field(r, 1)? == 1 {
        take_field(r, 8)?;
    }
    Ok(())
}

// Takes any bits of the width.
#[inline]
fn take_field(r: &mut Reader<'_>, width: u32) -> Result<u32, Fault>
    requires { width ≤ 8 }
    ensures taken { (format : PictureFormat) (before : List Element) (s : Slot) (make : ℕ → Element) →
        slot before ≡ s → FieldOf s width make →
        Takes make (next format before r.old) result r.old r.new }
    ensures onward { IfOk result (λ n.
        (n < 2 ^ width) × (width ≤ length r.old.0) × (r.new ≡ skipped width r.old)) }
{
    let value = look(r, width)?;
    r.skip(width);
    Ok(value)
}

// The number of the next bits, which stay.
#[inline]
fn look(r: &Reader<'_>, width: u32) -> Result<u32, Fault>
    requires { width ≤ 8 }
    ensures value { IfOk result (λ n.
        (width ≤ length r.now.0) × (n ≡ number (take width r.now.0)) × (n < 2 ^ width)) }
    ensures cut { IfErr result (λ f.
        (length r.now.0 < width) × (f ≡ record { place = r.now.1; why = Cut })) }
{
    if r.left() < width {
        return Err(Fault {
            place: r.place(),
            why: Why::Cut,
        });
    }
    Ok(r.peek(width))
}
