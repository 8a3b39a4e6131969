//! The header of a macroblock from a window of bits (H.261, 4.2.3). Where an element is not whole in the window or is at fault
//! there is no answer.

ghost use Rattle.std.specs.Prelude.{ℕ, List, ◌∷◌, IfSome};
ghost use Rattle.pel_model.specs.declared.Format.{Format as PictureFormat};
ghost use Rattle.pel_model.specs.Records.{Axis};
ghost use Rattle.pel_model.specs.Walk.{AreTaken};
ghost use Rattle.pel_model.specs.Grammar.{Element, Mtype, next};
ghost use Rattle.h261_mb.specs.Parts.{HeaderMayCome, VectorMayCome, MvdMayCome, MvdIsDue, PatternIsDue, IsPlaced, IsNearVector, IsBegun, IsFront, IsMquant, IsMvd, IsVector, IsPattern, BeginsWithMba};
ghost use Rattle.h261_mb.specs.State.{IsReady, IsNear, Stands, IsHeader, state_behind};

use crate::front::{LAST_ADDRESS, predictor};
use crate::header::Header;
use crate::kinds::{has_cbp, has_mquant, has_vector, is_intra};
use crate::pattern::ALL_BLOCKS;
use crate::state::{Front, MbState};
use crate::vector::{component, height, left_edge, stays_within, top_edge, width};
use crate::window::Window;
use pel_model::{Format, MbKind};

/// Takes the header of a macroblock, from MBA to CBP, as `read_header` does.
#[inline(always)]
pub fn take_header(w: &mut Window, format: Format, group: u8, state: &MbState) -> Option<Header>
    requires { HeaderMayCome format group state.now }
    ensures walk { IfSome result (λ header. (before : List Element) → Stands group state.now before →
        AreTaken (next format) before (IsHeader group before header) w.old w.new) }
    ensures begins { IfSome result (λ _. BeginsWithMba w.old.0) }
    ensures ready { IfSome result (λ header. IsReady (state_behind header)) }
{
    let front = take_front(w, state)?;
    let (h, v) = take_vector(w, format, group, &front)?;
    let pattern = take_pattern(w, front.kind)?;
    Some(Header {
        address: front.address,
        kind: front.kind,
        quant: front.quant,
        h,
        v,
        pattern,
    })
}

// MBA, MTYPE and MQUANT, with the predictor of the vector.
#[inline(always)]
fn take_front(w: &mut Window, state: &MbState) -> Option<Front>
    requires { IsReady state.now }
    ensures walk { IfSome result (λ front. (format : PictureFormat) (before : List Element) (number : ℕ) →
        Stands number state.now before →
        AreTaken (next format) before (IsFront number state.now.address before front) w.old w.new) }
    ensures begins { IfSome result (λ _. BeginsWithMba w.old.0) }
    ensures within { IfSome result IsPlaced }
{
    let difference = w.mba()?;
    if difference > LAST_ADDRESS - state.address {
        return None;
    }
    let address = state.address + difference;
    let kind = w.mtype()?;
    let quant = take_mquant(w, kind, state.quant)?;
    let (h, v) = predictor(state, kind, address);
    Some(Front {
        address,
        kind,
        quant,
        h,
        v,
    })
}

// MQUANT where the kind has it, and the quantiser in effect, which was `last` before.
#[inline(always)]
fn take_mquant(w: &mut Window, kind: MbKind, last: u8) -> Option<u8>
    ensures { IfSome result (λ quant. (format : PictureFormat) (before : List Element) →
        AreTaken (next format) (Mtype kind ∷ before) (IsMquant kind last before quant) w.old w.new) }
{
    if has_mquant(kind) {
        w.mquant()
    } else {
        Some(last)
    }
}

// The vector where the kind has one; else it is its predictor, (0, 0).
#[inline(always)]
fn take_vector(w: &mut Window, format: Format, group: u8, front: &Front) -> Option<(i8, i8)>
    requires { VectorMayCome format group front.now }
    ensures walk { IfSome result (λ vector. (before : List Element) → IsBegun group front.now before →
        AreTaken (next format) before (IsVector group front.now before vector) w.old w.new) }
    ensures near { IfSome result IsNearVector }
{
    if !has_vector(front.kind) {
        return Some((front.h, front.v));
    }
    let h = take_mvd(w, front.h, left_edge(group, front.address), width(format))?;
    let v = take_mvd(w, front.v, top_edge(group, front.address), height(format))?;
    Some((h, v))
}

// One MVD and its component, whose macroblock has its first sample at `first` on this axis.
#[inline(always)]
fn take_mvd(w: &mut Window, last: i8, first: u32, side: u32) -> Option<i8>
    requires { MvdMayCome last first }
    ensures walk { IfSome result (λ component. (format : PictureFormat) (before : List Element) (axis : Axis) →
        MvdIsDue format axis last first side before →
        AreTaken (next format) before (IsMvd axis last component) w.old w.new) }
    ensures near { IfSome result IsNear }
{
    let values = w.mvd()?;
    let component = component(last, values)?;
    if stays_within(first, side, component) {
        Some(component)
    } else {
        None
    }
}

// CBP where the kind has it, and the pattern.
#[inline(always)]
fn take_pattern(w: &mut Window, kind: MbKind) -> Option<u8>
    ensures { IfSome result (λ pattern. (format : PictureFormat) (before : List Element) → PatternIsDue kind before →
        AreTaken (next format) before (IsPattern kind before pattern) w.old w.new) }
{
    if is_intra(kind) {
        Some(ALL_BLOCKS)
    } else if has_cbp(kind) {
        w.cbp()
    } else {
        Some(0)
    }
}
