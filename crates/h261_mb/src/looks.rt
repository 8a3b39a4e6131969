//! The codeword of a list at the front of some bits, by one look at a table.

ghost use Rattle.std.specs.Prelude.{◌≡◌, ◌/◌, ◌^◌, ◌<◌, slice_index};
ghost use Rattle.pel_bits.specs.Bits.{field};
ghost use Rattle.vlc_codes.specs.Lookup.{words, cell_of};
ghost use Rattle.h261_mb.specs.Looks.{as_word};

use crate::direct::{CBP, MBA, MTYPE, MVD};
use vlc_codes::{Cell, Table, look_up};

/// The word of the list with which the 64 bits of `rest` begin; it lies within the first 32.
#[inline(always)]
pub fn first_word(table: Table, rest: u64) -> Cell
    ensures { result ≡ cell_of (words table) 0 (field (rest / 2 ^ 32) 32) }
{
    match table {
        Table::Mba => stored_word(&MBA, (rest >> 53) as usize),
        Table::Mtype => stored_word(&MTYPE, (rest >> 54) as usize),
        Table::Mvd => stored_word(&MVD, (rest >> 53) as usize),
        Table::Cbp => stored_word(&CBP, (rest >> 55) as usize),
        Table::CoefFirst | Table::Coef => look_up(table, (rest >> 32) as u32),
    }
}

// A cell's length and index.
#[inline(always)]
fn stored_word<const N: usize>(cells: &[u16; N], at: usize) -> Cell
    requires { at < N }
    ensures { result ≡ as_word (slice_index cells.now at) }
{
    let cell = cells[at];
    Cell {
        len: (cell % 16) as u8,
        value: cell / 16,
    }
}
