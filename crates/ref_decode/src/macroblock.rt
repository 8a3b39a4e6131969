//! Macroblocks drawn over the frame to come, block by block, from the frame that is shown (H.261, 3.2).

ghost use Rattle.std.specs.Prelude.{◌≡◌, ℕ, ◌+◌, ◌<◌, ◌≤◌, ◌++◌, true, Bool, List, Option, Some, IfOk, length, is_some, slice_get, slice_index_or};
ghost use Rattle.pel_model.specs.Bits.{field};
ghost use Rattle.pel_model.specs.Codes.{is_intra};
ghost use Rattle.pel_model.specs.Grammar.{Element, is_group};
ghost use Rattle.pel_model.specs.Prediction.{has_filter};
ghost use Rattle.pel_model.specs.Records.{Block, Macroblock};
ghost use Rattle.pel_model.specs.Text.{sent_block_text, macroblock_text};
ghost use Rattle.pel_model.specs.Valid.{IsValidMacroblock};
ghost use Rattle.h261_mb.specs.State.{IsReady, Stands};
ghost use Rattle.ref_decode.specs.Blocks.{block_at};
ghost use Rattle.ref_decode.specs.Drawing.{HavePlanes, IsBlockPlace, IsHeaderOf, ComesNext, IsSpot, IsWithin, IsSentAs, AreJoined, IsBlockDone, IsMacroblockDone, prediction_at};
ghost use Rattle.ref_decode.specs.Shown.{sample_count};

use crate::prediction::{joined, moved, predicted, put_block};
use crate::residual::read_residual;
use crate::sides::{corner, luminance_sides};
use h261_mb::{Header, MbState, read_header};
use pel_bits::Reader;
use pel_model::{Fault, Format, MbKind};

/// Where a block stands in the samples of a picture.
#[derive(Clone, Copy)]
pub struct Spot {
    /// The samples before its plane.
    start: usize,
    /// The sides of its plane.
    width: usize,
    height: usize,
    /// Its first sample in the plane.
    left: usize,
    top: usize,
    /// What divides a vector's components in the plane.
    ratio: usize,
}

/// Reads a macroblock and draws it over `next`, as a decoder shows it that shows `shown`. `state` is that behind a group
/// header or a macroblock of the group, and becomes that behind this one.
pub fn draw_macroblock(
    r: &mut Reader<'_>,
    format: Format,
    group: u8,
    state: &mut MbState,
    shown: &[u8],
    next: &mut [u8],
) -> Result<(), Fault>
    requires group { is_group format group ≡ true }
    requires ready { IsReady state.old }
    requires planes { HavePlanes format shown.now next.old }
    ensures drawn { (before : List Element) (last : Option Macroblock) (m : Macroblock) (rest : List Bool) →
        ComesNext format group last m before → Stands group state.old before →
        r.old.0 ≡ macroblock_text last m ++ rest →
        IsMacroblockDone format group before last m rest shown.now next.old next.new
        state.old state.new result r.new }
    ensures ready { IfOk result (λ _. IsReady state.new) }
    ensures long { length next.new ≡ sample_count format }
{
    let header = read_header(r, format, group, state)?;
    for block in 0..6 {
        draw_block(r, format, group, &header, block, shown, next)?;
    }
    *state = header.state_behind();
    Ok(())
}

// Reads a block of a macroblock, where it is sent, and draws it.
fn draw_block(
    r: &mut Reader<'_>,
    format: Format,
    group: u8,
    header: &Header,
    block: usize,
    shown: &[u8],
    next: &mut [u8],
) -> Result<(), Fault>
    requires place { IsBlockPlace format group header.now.address block }
    requires planes { HavePlanes format shown.now next.old }
    ensures drawn { (m : Macroblock) (quant : ℕ) (rest : List Bool) → IsHeaderOf m quant header.now →
        IsValidMacroblock format group m → 0 < m.address →
        IsSentAs (is_intra m.kind) (slice_index_or m.blocks block None) →
        r.old.0 ≡ sent_block_text (slice_index_or m.blocks block None) ++ rest →
        IsBlockDone format group (record { macroblock = m; quant = quant }) block rest
        shown.now next.old next.new result r.new }
    ensures long { length next.new ≡ sample_count format }
{
    let spot = spot_of(format, group, header.address, block);
    let prediction = predict(shown, &spot, header);
    let samples = samples_of(r, header, block, prediction)?;
    let from = spot.start + spot.width * spot.top + spot.left;
    put_block(next, from, spot.width, &samples);
    Ok(())
}

// The samples of a block: its prediction, and where it is sent what it adds.
fn samples_of(
    r: &mut Reader<'_>,
    header: &Header,
    block: usize,
    prediction: [u8; 64],
) -> Result<[u8; 64], Fault>
    requires block { block < 6 }
    ensures { (b : Option Block) (rest : List Bool) →
        slice_get (field header.now.pattern 6) block ≡ Some (is_some b) →
        IsSentAs (is_intra header.now.kind) b → r.old.0 ≡ sent_block_text b ++ rest →
        AreJoined header.now.quant b prediction result × (r.new.0 ≡ rest) }
{
    if !header.sends(block) {
        return Ok(prediction);
    }
    let added = read_residual(r, header.quant, header.is_intra())?;
    Ok(joined(&prediction, &added))
}

// What a block is predicted from: nothing in an Intra macroblock, else the samples that its vector refers to.
fn predict(shown: &[u8], spot: &Spot, header: &Header) -> [u8; 64]
    requires { IsWithin spot.now (length shown.now) }
    ensures { (x y : ℕ) → x < 8 → y < 8 →
        block_at result x y ≡ prediction_at shown.now spot.now header.now x y }
{
    if header.is_intra() {
        return [0; 64];
    }
    let left = moved(spot.left, header.h, spot.ratio, spot.width);
    let top = moved(spot.top, header.v, spot.ratio, spot.height);
    let from = spot.start + spot.width * top + left;
    predicted(shown, from, spot.width, has_filter(header.kind))
}

// Whether MTYPE says FIL.
fn has_filter(kind: MbKind) -> bool
    ensures { result ≡ has_filter kind }
{
    matches!(
        kind,
        MbKind::McFil | MbKind::McFilCoded | MbKind::McFilQuant
    )
}

// Blocks 0 to 3 are of luminance, by rows, 4 is CB and 5 is CR.
fn spot_of(format: Format, group: u8, address: u8, block: usize) -> Spot
    requires { IsBlockPlace format group address block }
    ensures spot { IsSpot format group address block result }
    ensures within { IsWithin result (sample_count format) }
{
    let (width, height) = luminance_sides(format);
    let (left, top) = corner(group, address);
    if block < 4 {
        return Spot {
            start: 0,
            width,
            height,
            left: left + 8 * (block % 2),
            top: top + 8 * (block / 2),
            ratio: 1,
        };
    }
    let chroma = width / 2 * (height / 2);
    Spot {
        start: width * height + (block - 4) * chroma,
        width: width / 2,
        height: height / 2,
        left: left / 2,
        top: top / 2,
        ratio: 2,
    }
}
