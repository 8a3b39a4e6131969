//! The chair's lines: octets from a source, up to the next LF or to the end.
ghost use Rattle.bridge_live.specs.LineTaking.{TakesLine};

use arrayvec::ArrayVec;
use io_edge::{Allowance, Pause, Source};

/// One octet more than a line may have: so many are kept of a line, which tell a line that is too long from others.
pub const KEPT: usize = 256;

/// Takes octets up to the next LF within the allowance, and keeps the first 256 of them; or tells why there was no LF. No
/// octet behind the LF is asked for.
pub fn next_line<S: Source>(
    source: &mut S,
    line: &mut ArrayVec<u8, KEPT>,
    allowance: &mut Allowance,
) -> Result<(), Pause>
    ensures { TakesLine (S.tells source.old) (S.tells source.new) allowance.old allowance.new line.new.items result }
{
    line.clear();
    loop {
        let next = allowance.octet(source)?;
        if next == b'\n' {
            return Ok(());
        }
        if !line.is_full() {
            line.push(next);
        }
    }
}
