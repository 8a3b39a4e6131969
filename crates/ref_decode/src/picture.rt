//! A whole picture drawn, group by group (H.261, 4.2.1 and 4.2.2).

ghost use Rattle.std.specs.Prelude.{◌≡◌, ◌<◌, ◌++◌, true, Bool, List, None, length, slice_index};
ghost use Rattle.h261_pic.specs.Coded.{coding, IsFinished};
ghost use Rattle.pel_model.specs.Grammar.{is_group};
ghost use Rattle.pel_model.specs.Records.{Group, Picture};
ghost use Rattle.pel_model.specs.Valid.{group_count, group_numbers, IsValid, IsValidGroup};
ghost use Rattle.pel_model.specs.Text.{macroblocks_text};
ghost use Rattle.ref_decode.specs.Drawing.{HavePlanes, IsGroupDone, IsPictureDone};
ghost use Rattle.ref_decode.specs.Shown.{sample_count};

use crate::macroblock::draw_macroblock;
use h261_mb::MbState;
use h261_pic::{Coded, GroupView};
use pel_bits::Reader;
use pel_model::{Fault, Format};

/// The bits of a picture's header and of a group's header in a strict text, which has no spare octets.
const PICTURE_HEADER: u32 = 32;

const GROUP_HEADER: u32 = 26;

/// Draws a picture over `next`, which holds what is shown, as a decoder shows it that shows `shown`.
pub fn draw_picture(
    format: Format,
    picture: &Coded,
    shown: &[u8],
    next: &mut [u8],
) -> Result<(), Fault>
    requires format { picture.now.format ≡ format }
    requires finished { IsFinished picture.now }
    requires planes { HavePlanes format shown.now next.old }
    ensures drawn { (p : Picture) → IsValid format p → picture.now ≡ coding format p →
        IsPictureDone format p shown.now next.old next.new result }
    ensures long { length next.new ≡ sample_count format }
{
    let mut r = Reader::new(picture.bits());
    r.take(PICTURE_HEADER);
    for i in 0..group_count(format) {
        r.take(GROUP_HEADER);
        draw_group(
            &mut r,
            format,
            group_number(format, i),
            picture.group(i),
            shown,
            next,
        )?;
    }
    Ok(())
}

// Reads the macroblocks of a group behind its header and draws them.
fn draw_group(
    r: &mut Reader<'_>,
    format: Format,
    number: u8,
    view: GroupView,
    shown: &[u8],
    next: &mut [u8],
) -> Result<(), Fault>
    requires group { is_group format number ≡ true }
    requires planes { HavePlanes format shown.now next.old }
    ensures drawn { (g : Group) (rest : List Bool) → IsValidGroup format g → g.number ≡ number →
        view.quant ≡ g.quant → view.marks ≡ length g.macroblocks →
        r.old.0 ≡ macroblocks_text None g.macroblocks ++ rest →
        IsGroupDone format g rest shown.now next.old next.new result r.new }
    ensures long { length next.new ≡ sample_count format }
{
    let mut state = MbState {
        address: 0,
        quant: view.quant,
        h: 0,
        v: 0,
    };
    for i in 0..view.marks {
        draw_macroblock(r, format, number, &mut state, shown, next)?;
    }
    Ok(())
}

// How many groups a picture has.
fn group_count(format: Format) -> usize
    ensures { result ≡ group_count format }
{
    match format {
        Format::Qcif => 3,
        Format::Cif => 12,
    }
}

// The number of group `i`, from 0 on.
fn group_number(format: Format, i: usize) -> u8
    requires { i < group_count format }
    ensures number { result ≡ slice_index (group_numbers format) i }
    ensures group { is_group format result ≡ true }
{
    match format {
        Format::Qcif => 2 * i as u8 + 1,
        Format::Cif => i as u8 + 1,
    }
}
