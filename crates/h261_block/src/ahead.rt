//! The next word of TCOEFF (H.261, 4.2.4.1): a coefficient or the end of the block.
#![tactic(auto)]

ghost use Rattle.std.specs.Prelude.{◌≤◌};
ghost use Rattle.h261_block.specs.Ahead.{TakesWords};

use crate::coefficients::{run_and_level, tcoeff};
use pel_bits::Reader;
use pel_model::Fault;

/// Takes one coefficient or the end of the block. `count` coefficients stand before it, the zeros among them; the answer is
/// how many do then, or None behind the end.
#[inline]
pub fn one_word(r: &mut Reader<'_>, count: u32) -> Result<Option<u32>, Fault>
    requires { count ≤ 64 }
    ensures { TakesWords count result r.old r.new }
{
    let row = tcoeff(r, count)?;
    match run_and_level(row) {
        Some((run, _)) => Ok(Some(count + u32::from(run) + 1)),
        None => Ok(None),
    }
}
