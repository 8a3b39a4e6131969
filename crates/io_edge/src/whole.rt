//! A whole piece put into a sink, in as many calls as it takes.
ghost use Rattle.io_edge.specs.Whole.{PutsAll};

use super::{Failed, Sink};

/// Writes the whole of `piece`. A sink that fails has been given a front of the piece, and not all of it.
pub fn put_all<K: Sink>(sink: &mut K, piece: &[u8]) -> Result<(), Failed>
    ensures { PutsAll (K.tells sink.old) (K.tells sink.new) piece.now result }
{
    let mut count = 0;
    while count < piece.len() {
        count += sink.write(&piece[count..])?;
    }
    Ok(())
}
