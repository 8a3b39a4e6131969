//! The codeword of a list that is a prefix of the next 32 bits, by one look at a table.
#![tactic(auto)]

ghost use Rattle.std.specs.Prelude.{◌≡◌, ◌^◌, ◌<◌, ◌≤◌, ◌++◌, map, take};
ghost use Rattle.std.specs.List.{list_any};
ghost use Rattle.pel_bits.specs.Bits.{field, number};
ghost use Rattle.pel_bits.specs.Reading.{zeros};
ghost use Rattle.pel_model.specs.Codes.{is_prefix};
ghost use Rattle.pel_model.specs.Walk.{cause};
ghost use Rattle.vlc_codes.specs.Lookup.{words, cell_of};
ghost use Rattle.vlc_codes.specs.Inner.{cell_in, code_word, found_cell};

use crate::cells::Cells;
use crate::{cells, codes};
use pel_bits::Reader;
use pel_model::Why;

/// A list of words.
#[derive(Clone, Copy, Debug, PartialEq, Eq)]
pub enum Table {
    /// The differences of addresses from 1 to 33, then stuffing (H.261, 4.2.3.1).
    Mba,
    /// The kinds of macroblocks (H.261, 4.2.3.2).
    Mtype,
    /// The differences of a vector's component (H.261, 4.2.3.4).
    Mvd,
    /// The patterns of coded blocks (H.261, 4.2.3.5).
    Cbp,
    /// The codes of TCOEFF without their sign, then the escape without what follows it, where a block without INTRADC
    /// begins (H.261, 4.2.4.1).
    CoefFirst,
    /// The same everywhere else, then the end of a block.
    Coef,
}

/// A word of a list. Length 0 is none.
#[derive(Clone, Copy, Debug, PartialEq, Eq)]
pub struct Cell {
    /// The length in bits, at most 13.
    pub len: u8,
    /// The index in the list, from 0.
    pub value: u16,
}

/// The word of the list with which the 32 bits of `top` begin.
#[inline]
pub fn look_up(table: Table, top: u32) -> Cell
    ensures { result ≡ cell_of (words table) 0 (field top 32) }
{
    match table {
        Table::Mba => cell_at(&cells::MBA, top),
        Table::Mtype => cell_at(&cells::MTYPE, top),
        Table::Mvd => cell_at(&cells::MVD, top),
        Table::Cbp => cell_at(&cells::CBP, top),
        Table::CoefFirst => cell_at(&cells::FIRST_COEFFICIENT, top),
        Table::Coef => cell_at(&cells::COEFFICIENT, top),
    }
}

// The cell of the number of leading zeros and the five bits behind the first 1. No word has more than 9 zeros first.
#[inline]
fn cell_at(cells: &Cells, top: u32) -> Cell
    ensures { result ≡ cell_in cells.now.lens cells.now.indices top }
{
    let zeros = top.leading_zeros();
    if zeros > 9 {
        return Cell { len: 0, value: 0 };
    }
    let six = top >> (26 - zeros);
    let index = (32 * zeros + six - 32) as usize;
    Cell {
        len: cells.lens[index],
        value: u16::from(cells.indices[index]),
    }
}

/// The codeword of the list that comes next to the reader, or why none does. `top` is what it peeks at in 32 bits.
#[inline]
pub fn word_at(table: Table, r: &Reader<'_>, top: u32) -> Result<Cell, Why>
    requires { top ≡ number (take 32 (r.now.0 ++ zeros 32)) }
    ensures { result ≡ found_cell (words table) r.now.0 }
{
    let cell = look_up(table, top);
    if cell.len == 0 || r.left() < u32::from(cell.len) {
        return Err(why_none(table, r));
    }
    Ok(cell)
}

// Why no codeword of the list comes next to the reader. It is inlined so that no reader has to stand in memory for it.
#[inline(always)]
fn why_none(table: Table, r: &Reader<'_>) -> Why
    ensures { result ≡ cause (words table) r.now.0 }
{
    let left = r.left();
    if left <= 16 && begins_a_word(table, r.peek(left), left) {
        Why::Cut
    } else {
        Why::NoCode
    }
}

// Whether the last `len` bits of `front` are a prefix of a codeword of the list.
#[cold]
#[inline(never)]
fn begins_a_word(table: Table, front: u32, len: u32) -> bool
    requires short { len ≤ 16 }
    requires fits { front < 2 ^ len }
    ensures { result ≡ list_any (λ w. is_prefix (field front len) w) (words table) }
{
    match table {
        Table::Mba => begins_a_code(&codes::MBA, front, len),
        Table::Mtype => begins_a_code(&codes::MTYPE, front, len),
        Table::Mvd => begins_a_code(&codes::MVD, front, len),
        Table::Cbp => begins_a_code(&codes::CBP, front, len),
        Table::CoefFirst => begins_a_code(&codes::FIRST_COEFFICIENT, front, len),
        Table::Coef => begins_a_code(&codes::COEFFICIENT, front, len),
    }
}

// The same for the words as they stand in the code, as their bits and the number of these.
fn begins_a_code(codes: &[(u16, u8)], front: u32, len: u32) -> bool
    requires short { len ≤ 16 }
    requires fits { front < 2 ^ len }
    ensures { result ≡ list_any (λ w. is_prefix (field front len) w) (map code_word codes.now) }
{
    for (bits, width) in codes {
        if begins_code(u32::from(*bits), u32::from(*width), front, len) {
            return true;
        }
    }
    false
}

// The same for one word.
fn begins_code(bits: u32, width: u32, front: u32, len: u32) -> bool
    requires short { len ≤ 16 }
    requires fits { front < 2 ^ len }
    requires word { bits < 2 ^ 16 }
    ensures { result ≡ is_prefix (field front len) (field bits width) }
{
    len <= width && (bits >> (width - len).min(16)) % (1 << len) == front
}
