//! What a block adds to its prediction: its levels are read, reconstructed, put into their places and transformed (H.261,
//! 3.2.4 and 4.2.4).

ghost use Rattle.std.specs.Prelude.{◌≡◌, ℕ, ◌+◌, ◌*◌, ◌^◌, ◌<◌, ◌≤◌, ◌++◌, ◌-ℤ◌, pos, negsuc, List, Bool, IsOk, length, slice_index, slice_index_or, unsigned_abs};
ghost use Rattle.pel_model.specs.Levels.{levels};
ghost use Rattle.pel_model.specs.Records.{Block};
ghost use Rattle.pel_model.specs.Residual.{one_if_even, scaled};
ghost use Rattle.pel_model.specs.Text.{block_text};
ghost use Rattle.pel_model.specs.Transform.{clipped};
ghost use Rattle.ref_decode.specs.Blocks.{IsBlockOf, IsClipped, AddsBlock, coefficient_at, scan_places};
ghost use Rattle.ref_decode.specs.Passes.{at_place};

use crate::transform::fixed;
use h261_block::read_levels;
use pel_bits::Reader;
use pel_model::Fault;

/// The place in the order of transmission of the coefficient with the horizontal index u and the vertical index v, at
/// 8 v + u.
static SCAN: [u8; 64] = [
    0, 1, 5, 6, 14, 15, 27, 28, //
    2, 4, 7, 13, 16, 26, 29, 42, //
    3, 8, 12, 17, 25, 30, 41, 43, //
    9, 11, 18, 24, 31, 40, 44, 53, //
    10, 19, 23, 32, 39, 45, 52, 54, //
    20, 22, 33, 38, 46, 51, 55, 60, //
    21, 34, 37, 47, 50, 56, 59, 61, //
    35, 36, 48, 49, 57, 58, 62, 63,
];

/// Reads a block and gives what it adds, row by row. Behind a fault nothing is told of the reader.
pub fn read_residual(r: &mut Reader<'_>, quant: u8, intra: bool) -> Result<[i16; 64], Fault>
    ensures { (b : Block) (rest : List Bool) → IsBlockOf intra b → r.old.0 ≡ block_text b ++ rest →
        AddsBlock quant b result × (r.new.0 ≡ rest) }
{
    let mut levels = [0; 64];
    read_levels(r, intra, &mut levels)?;
    let coefs = coefficients(&levels, quant, intra, &SCAN);
    Ok(fixed(&coefs))
}

// The coefficients in their places.
fn coefficients(levels: &[i16; 64], quant: u8, intra: bool, scan: &[u8; 64]) -> [i32; 64]
    requires { scan.now ≡ scan_places }
    ensures value { (k : ℕ) → k < 64 →
        at_place result k ≡ coefficient_at quant intra levels.now (slice_index scan_places k) }
    ensures size { (k : ℕ) → k < 64 → unsigned_abs (at_place result k) ≤ 2048 }
{
    let mut coefs = [0; 64];
    for place in 0..64 {
        coefs[place] = coefficient(levels, quant, intra, usize::from(scan[place]));
    }
    coefs
}

// The coefficient with this place in the order of transmission: INTRADC as it is, any other reconstructed.
fn coefficient(levels: &[i16; 64], quant: u8, intra: bool, place: usize) -> i32
    requires { place < 64 }
    ensures value { result ≡ coefficient_at quant intra levels.now place }
    ensures size { unsigned_abs result ≤ 2048 }
{
    if intra && place == 0 {
        within_bounds(i32::from(levels[0]))
    } else {
        reconstruct(quant, levels[place])
    }
}

// QUANT (2 level + 1), less 1 where QUANT is even; the same with the other sign for a level below 0; then clipped to
// -2048..2047.
fn reconstruct(quant: u8, level: i16) -> i32
    ensures { IsClipped (scaled quant level) result }
{
    if level == 0 {
        return 0;
    }
    let size = magnitude(quant, level.unsigned_abs());
    if level > 0 {
        let above = within_bounds(size);
        return above;
    }
    let below = within_bounds(-size);
    below
}

// QUANT (2 level + 1), less 1 where QUANT is even.
fn magnitude(quant: u8, level: u16) -> i32
    ensures value { result ≡ pos (quant * (2 * level + 1)) -ℤ pos (one_if_even quant) }
    ensures size { unsigned_abs result < 2 ^ 26 }
{
    let odd = i32::from(quant) * (2 * i32::from(level) + 1);
    if quant % 2 == 0 { odd - 1 } else { odd }
}

// Clipped to -2048..2047, between which INTRADC always lies.
fn within_bounds(value: i32) -> i32
    ensures { IsClipped value result }
{
    if value < -2048 {
        return -2048;
    }
    if value > 2047 {
        return 2047;
    }
    value
}
