//! The bits of the pictures, pushed into a buffer.
ghost use Rattle.std.specs.Prelude.{◌≡◌, ◌+◌, ◌*◌, ◌^◌, ◌<◌, ◌≤◌, ◌++◌, length};
ghost use Rattle.pel_model.specs.declared.Format.TheVariants.{Qcif};
ghost use Rattle.pel_model.specs.Text.{picture_header, group_header};
ghost use Rattle.conf_make.specs.Draws.{next_state, state_after};
ghost use Rattle.conf_make.specs.Pictures.{repeated, grey_macroblock, grey_group, grey_picture, macroblock, macroblocks, count, drawn_group, behind_group, drawn_picture, behind_picture};
ghost use Rattle.conf_make.specs.Writing.{most_bits, with_bits};

use crate::draws::draw;
use pel_bits::BitBuf;

/// The macroblocks of a group (H.261, 4.2.2).
const MACROBLOCKS: u32 = 33;

/// The quantiser of all groups.
const QUANTISER: u32 = 8;

/// Makes a grey picture, each macroblock Intra, in place of what the buffer has.
pub fn push_grey_picture(bits: &mut BitBuf, tr: u8)
    requires tr { tr < 32 }
    requires room { bits.old.capacity ≡ most_bits }
    ensures value { bits.new ≡ record bits.old { list = grey_picture tr } }
{
    bits.clear();
    push_picture_header(bits, tr);
    push_grey_group(bits, 1);
    push_grey_group(bits, 3);
    push_grey_group(bits, 5);
}

/// Makes a picture of drawn macroblocks in place of what the buffer has.
pub fn push_drawn_picture(bits: &mut BitBuf, tr: u8, state: &mut u64)
    requires tr { tr < 32 }
    requires room { bits.old.capacity ≡ most_bits }
    ensures bits { bits.new ≡ record bits.old { list = drawn_picture tr state.old } }
    ensures state { state.new ≡ behind_picture state.old }
{
    bits.clear();
    push_picture_header(bits, tr);
    push_drawn_group(bits, 1, state);
    push_drawn_group(bits, 3, state);
    push_drawn_group(bits, 5, state);
}

/// Appends PSC, TR, PTYPE of a QCIF picture, and a PEI of 0.
fn push_picture_header(bits: &mut BitBuf, tr: u8)
    requires tr { tr < 32 }
    requires room { length bits.old.list + 32 ≤ bits.old.capacity }
    ensures value { bits.new ≡ with_bits bits.old (picture_header Qcif tr) }
    ensures long { length bits.new.list ≡ length bits.old.list + 32 }
{
    bits.push(0b0000_0000_0000_0001_0000, 20);
    bits.push(u32::from(tr), 5);
    bits.push(0b000011, 6);
    bits.push(0, 1);
}

/// Appends GBSC, GN, GQUANT, and a GEI of 0.
fn push_group_header(bits: &mut BitBuf, number: u8)
    requires number { number < 16 }
    requires room { length bits.old.list + 26 ≤ bits.old.capacity }
    ensures value { bits.new ≡ with_bits bits.old (group_header number 8) }
    ensures long { length bits.new.list ≡ length bits.old.list + 26 }
{
    bits.push(0b0000_0000_0000_0001, 16);
    bits.push(u32::from(number), 4);
    bits.push(QUANTISER, 5);
    bits.push(0, 1);
}

/// Appends a group of 33 grey macroblocks.
fn push_grey_group(bits: &mut BitBuf, number: u8)
    requires number { number < 16 }
    requires room { length bits.old.list + 2171 ≤ bits.old.capacity }
    ensures value { bits.new ≡ with_bits bits.old (grey_group number) }
    ensures long { length bits.new.list ≡ length bits.old.list + 2171 }
{
    push_group_header(bits, number);
    for _i in 0..MACROBLOCKS {
        push_grey_macroblock(bits);
    }
}

/// Appends a grey macroblock: MBA 1, MTYPE Intra, and six blocks of INTRADC and EOB.
fn push_grey_macroblock(bits: &mut BitBuf)
    requires room { length bits.old.list + 65 ≤ bits.old.capacity }
    ensures value { bits.new ≡ with_bits bits.old grey_macroblock }
    ensures long { length bits.new.list ≡ length bits.old.list + 65 }
{
    bits.push(0b1_0001, 5);
    bits.push(0b11111111_10_11111111_10_11111111_10, 30);
    bits.push(0b11111111_10_11111111_10_11111111_10, 30);
}

/// Appends a group of up to three drawn macroblocks.
fn push_drawn_group(bits: &mut BitBuf, number: u8, state: &mut u64)
    requires number { number < 16 }
    requires room { length bits.old.list + 56 ≤ bits.old.capacity }
    ensures bits { bits.new ≡ with_bits bits.old (drawn_group number state.old) }
    ensures state { state.new ≡ behind_group state.old }
    ensures long { length bits.new.list ≤ length bits.old.list + 56 }
{
    push_group_header(bits, number);
    let count = draw_count(state);
    push_macroblocks(bits, count, state);
}

/// Draws how many macroblocks a group has.
fn draw_count(state: &mut u64) -> u32
    ensures state { state.new ≡ next_state state.old }
    ensures drawn { result ≡ count state.old }
    ensures few { result < 4 }
{
    draw(state) % 4
}

/// Appends so many drawn macroblocks.
fn push_macroblocks(bits: &mut BitBuf, count: u32, state: &mut u64)
    requires few { count < 4 }
    requires room { length bits.old.list + 10 * count ≤ bits.old.capacity }
    ensures bits { bits.new ≡ with_bits bits.old (macroblocks count state.old) }
    ensures state { state.new ≡ state_after count state.old }
    ensures long { length bits.new.list ≤ length bits.old.list + 10 * count }
{
    for _i in 0..count {
        push_macroblock(bits, draw(state));
    }
}

/// Appends the macroblock of a draw.
fn push_macroblock(bits: &mut BitBuf, drawn: u32)
    requires room { length bits.old.list + 10 ≤ bits.old.capacity }
    ensures value { bits.new ≡ with_bits bits.old (macroblock drawn) }
    ensures long { length bits.new.list ≤ length bits.old.list + 10 }
{
    if drawn % 2 == 0 {
        bits.push(0b1_1_1010_1, 7);
        bits.push(drawn / 2 % 2, 1);
        bits.push(0b10, 2);
    } else {
        bits.push(0b1_001_1_1, 6);
    }
}
