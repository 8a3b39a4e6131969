//! The blocks of a macroblock octet by octet (H.261, 4.2.4), by a machine whose state is what is pending of a word: no branch
//! depends on the words, nor on where a block ends. Faults are left to the reader of words.
#![tactic(auto)]

ghost use Rattle.std.specs.Prelude.{◌≡◌, ◌<◌, ◌==◌, cond};
ghost use Rattle.h261_block.specs.Blocks.{PassesBlocks};
ghost use Rattle.h261_block.specs.Steps.{IsCellOf, block_start, stored};

use crate::cells::{Cells, INTER, INTRA};
use pel_bits::Reader;

/// What the machine does at an octet.
#[derive(Clone, Copy)]
pub struct Cell {
    /// The next state.
    pub next: u8,
    /// How many coefficients the octet has up to the first end of a block, or in all, the zeros among them.
    pub before: u32,
    /// How many it has behind the last end.
    pub behind: u32,
    /// How many blocks end in it, at most two.
    pub ends: u32,
    /// Its bits up to the first end.
    pub first: u32,
    /// Its bits up to the second end.
    pub second: u32,
}

/// Moves past this many blocks, those of an Intra macroblock or of another, and answers true; or it answers false, as where
/// there is a fault in them, and the reader stays.
pub fn pass_blocks(r: &mut Reader<'_>, intra: bool, count: u32) -> bool
    requires { 0 < count }
    ensures { PassesBlocks intra count result r.old r.new }
{
    let mut ahead = r.copy();
    let mut state = first_state(intra);
    let mut filled = 0;
    let mut left = count;
    while ahead.left() > 0 {
        let cell = cell_at(intra, state, ahead.peek(8));
        let sum = filled + cell.before;
        if sum > 64 {
            return false;
        }
        if cell.ends >= left {
            let end = last_end(&cell, left);
            if end > ahead.left() {
                return false;
            }
            ahead.skip(end);
            *r = ahead;
            return true;
        }
        if ahead.left() < 8 {
            return false;
        }
        ahead.skip(8);
        state = cell.next;
        filled = filled_behind(&cell, sum);
        left -= cell.ends;
    }
    false
}

// The state in which a block begins.
#[inline]
fn first_state(intra: bool) -> u8
    ensures { result ≡ block_start intra }
{
    if intra { 88 } else { 0 }
}

// The bits of an octet up to the end of the last of one or two blocks.
#[inline]
fn last_end(cell: &Cell, left: u32) -> u32
    ensures { result ≡ cond (left == 1) cell.now.first cell.now.second }
{
    if left == 1 { cell.first } else { cell.second }
}

// The coefficients of the block that goes on behind an octet, where `sum` is those up to its first end.
#[inline]
fn filled_behind(cell: &Cell, sum: u32) -> u32
    ensures { result ≡ cond (cell.now.ends == 0) sum cell.now.behind }
{
    if cell.ends == 0 { sum } else { cell.behind }
}

// What the machine does in a state at an octet.
#[inline]
fn cell_at(intra: bool, state: u8, octet: u32) -> Cell
    requires { (state < 102) × (octet < 256) }
    ensures { IsCellOf intra state octet result }
{
    let index = 256 * usize::from(state) + octet as usize;
    if intra {
        stored_cell(&INTRA, index)
    } else {
        stored_cell(&INTER, index)
    }
}

#[inline]
fn stored_cell<const N: usize>(cells: &Cells<N>, index: usize) -> Cell
    requires { index < N }
    ensures { result ≡ stored cells.now.next cells.now.passed index }
{
    let passed = cells.passed[index];
    Cell {
        next: cells.next[index],
        before: passed % 0x100,
        behind: passed / 0x100 % 0x100,
        ends: passed / 0x1_0000 % 0x10,
        first: passed / 0x10_0000 % 0x10,
        second: passed / 0x100_0000 % 0x10,
    }
}
