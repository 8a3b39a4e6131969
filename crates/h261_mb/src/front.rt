//! The front of a macroblock header: MBA, MTYPE and MQUANT (H.261, 4.2.3), and the predictor of its vector.

ghost use Rattle.std.specs.Prelude.{◌≡◌, ◌-◌, ◌≤◌, List, ◌∷◌, IfOk};
ghost use Rattle.pel_model.specs.declared.Format.{Format};
ghost use Rattle.pel_model.specs.Grammar.{Element, Mtype, Mquant, AtMtype, AtMquant, next};
ghost use Rattle.pel_model.specs.Text.{resets_predictor};
ghost use Rattle.pel_model.specs.Walk.{Walked};
ghost use Rattle.h261_mb.specs.Inside.{StaysInside};
ghost use Rattle.h261_mb.specs.Parts.{IsMquant, TakesAt, TakesAddress, ReadsFront, predicted};
ghost use Rattle.h261_mb.specs.State.{IsReady, IsNear};

use crate::kinds::{has_mquant, has_vector};
use crate::state::{Front, MbState};
use pel_bits::Reader;
use pel_model::{Fault, MbKind, Why};
use vlc_codes::{MbaRow, mba, mtype};

/// The greatest address of a macroblock in its group (H.261, 4.2.2).
pub const LAST_ADDRESS: u8 = 33;

/// Takes MBA, MTYPE and, where the kind has it, MQUANT, and gives with them the predictor of the vector.
pub fn read_front(r: &mut Reader<'_>, state: &MbState) -> Result<Front, Fault>
    requires { IsReady state.now }
    ensures { ReadsFront state.now result r.old r.new }
{
    let address = take_mba(r, state.address)?;
    let kind = take_mtype(r)?;
    let quant = read_mquant(r, kind, state.quant)?;
    let (h, v) = predictor(state, kind, address);
    Ok(Front {
        address,
        kind,
        quant,
        h,
        v,
    })
}

/// The predictor of the vector of the macroblock at an address behind the last one.
#[inline]
pub fn predictor(state: &MbState, kind: MbKind, address: u8) -> (i8, i8)
    requires near { IsNear state.now.h × IsNear state.now.v }
    requires behind { state.now.address ≤ address }
    ensures across { result.0 ≡ predicted kind (address - state.now.address) address state.now.h }
    ensures down { result.1 ≡ predicted kind (address - state.now.address) address state.now.v }
    ensures near { IsNear result.0 × IsNear result.1 }
{
    if has_vector(kind) && !starts_anew(address - state.address, address) {
        (state.h, state.v)
    } else {
        (0, 0)
    }
}

// Takes MBA and gives the address, at most 33 (H.261, 4.2.3.1).
#[inline]
fn take_mba(r: &mut Reader<'_>, last: u8) -> Result<u8, Fault>
    requires { last ≤ 33 }
    ensures { TakesAddress last result r.old r.new }
{
    let place = r.place();
    let mut ahead = r.copy();
    match mba(&mut ahead) {
        Ok(MbaRow::Difference(difference)) => {
            if difference > LAST_ADDRESS - last {
                return Err(Fault {
                    place,
                    why: Why::BadAddress,
                });
            }
            *r = ahead;
            Ok(last + difference)
        }
        Ok(MbaRow::Stuffing) => Err(Fault {
            place,
            why: Why::NoCode,
        }),
        Err(why) => Err(Fault { place, why }),
    }
}

// Takes MTYPE (H.261, 4.2.3.2).
#[inline]
fn take_mtype(r: &mut Reader<'_>) -> Result<MbKind, Fault>
    ensures { TakesAt AtMtype Mtype result r.old r.new }
{
    let place = r.place();
    match mtype(r) {
        Ok(kind) => Ok(kind),
        Err(why) => Err(Fault { place, why }),
    }
}

// Takes MQUANT where the kind has it, and gives the quantiser in effect, which was `last` before.
#[inline]
fn read_mquant(r: &mut Reader<'_>, kind: MbKind, last: u8) -> Result<u8, Fault>
    ensures walk { (format : Format) (before : List Element) →
        Walked (next format) (Mtype kind ∷ before) (IsMquant kind last before)
        (StaysInside (Mtype kind ∷ before)) result r.old r.new }
    ensures onward { IfOk result (λ _. r.old.1 ≤ r.new.1) }
{
    if has_mquant(kind) {
        take_mquant(r)
    } else {
        Ok(last)
    }
}

// Takes MQUANT, 5 bits that are not 0 (H.261, 4.2.3.3).
#[inline]
fn take_mquant(r: &mut Reader<'_>) -> Result<u8, Fault>
    ensures { TakesAt AtMquant Mquant result r.old r.new }
{
    let place = r.place();
    if r.left() < 5 {
        return Err(Fault {
            place,
            why: Why::Cut,
        });
    }
    let quant = r.peek(5) as u8;
    if quant == 0 {
        return Err(Fault {
            place,
            why: Why::BadQuant,
        });
    }
    r.skip(5);
    Ok(quant)
}

// The vector before is no predictor: the macroblock is at the left edge of the group's rows, or addresses before it were
// not sent (H.261, 4.2.3.4).
#[inline]
fn starts_anew(difference: u8, address: u8) -> bool
    ensures { result ≡ resets_predictor difference address }
{
    difference != 1 || address == 1 || address == 12 || address == 23
}
