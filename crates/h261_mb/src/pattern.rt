//! The coded block pattern of a macroblock: which of its six blocks are sent (H.261, 4.2.3.5).

ghost use Rattle.std.specs.Prelude.{◌<◌, IfOk};
ghost use Rattle.pel_model.specs.Grammar.{Cbp, AtCbp};
ghost use Rattle.h261_mb.specs.Parts.{TakesAt, ReadsPattern};

use crate::kinds::{has_cbp, is_intra};
use pel_bits::Reader;
use pel_model::{Fault, MbKind};
use vlc_codes::cbp;

/// The pattern of all six blocks.
pub const ALL_BLOCKS: u8 = 63;

/// Takes CBP where the kind has it, and gives the pattern: all blocks where the kind is Intra, else none without CBP.
pub fn read_pattern(r: &mut Reader<'_>, kind: MbKind) -> Result<u8, Fault>
    ensures { ReadsPattern kind result r.old r.new }
{
    if is_intra(kind) {
        Ok(ALL_BLOCKS)
    } else if has_cbp(kind) {
        take_cbp(r)
    } else {
        Ok(0)
    }
}

// Takes CBP.
fn take_cbp(r: &mut Reader<'_>) -> Result<u8, Fault>
    ensures read { TakesAt AtCbp Cbp result r.old r.new }
    ensures six { IfOk result (λ pattern. pattern < 64) }
{
    let place = r.place();
    match cbp(r) {
        Ok(pattern) => Ok(pattern),
        Err(why) => Err(Fault { place, why }),
    }
}
