//! The blocks of a macroblock that are sent (H.261, 4.2.4).

ghost use Rattle.h261_mb.specs.Parts.{SkipsBlocks};

use h261_block::{pass_blocks, scan_block};
use pel_bits::Reader;
use pel_model::Fault;

/// Moves past this many blocks, the last of a macroblock.
pub fn skip_blocks(r: &mut Reader<'_>, intra: bool, count: u32) -> Result<(), Fault>
    ensures { SkipsBlocks intra count result r.old r.new }
{
    if count == 0 {
        return Ok(());
    }
    if pass_blocks(r, intra, count) {
        return Ok(());
    }
    scan_blocks(r, intra, count)
}

// The same word by word, which finds the fault.
#[cold]
#[inline(never)]
fn scan_blocks(r: &mut Reader<'_>, intra: bool, count: u32) -> Result<(), Fault>
    ensures { SkipsBlocks intra count result r.old r.new }
{
    for _block in 0..count {
        scan_block(r, intra)?;
    }
    Ok(())
}
