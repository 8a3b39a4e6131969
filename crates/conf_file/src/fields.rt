//! Fields of a header or an entry: octets that are known to follow are asked for at once, within the allowance.
ghost use Rattle.std.specs.Prelude.{◌≡◌};
ghost use Rattle.conf_file.specs.Stops.{FetchesField, TakesField, entry_end};

use crate::answers::EntryEnd;
use io_edge::{Allowance, Pause, Source};

/// Fills `out` from the source, or tells why it could not.
pub fn fetch<S: Source>(
    source: &mut S,
    out: &mut [u8],
    allowance: &mut Allowance,
) -> Result<(), EntryEnd>
    ensures { FetchesField result (S.tells source.old) (S.tells source.new) allowance.old allowance.new out.new }
{
    match allowance.fetch(source, out) {
        Ok(()) => Ok(()),
        Err(short) => Err(end_at(short.pause, allowance.taken())),
    }
}

/// Takes one octet.
pub fn read_octet<S: Source>(source: &mut S, allowance: &mut Allowance) -> Result<u8, EntryEnd>
    ensures { TakesField result (S.tells source.old) (S.tells source.new) allowance.old allowance.new }
{
    match allowance.octet(source) {
        Ok(octet) => Ok(octet),
        Err(pause) => Err(end_at(pause, allowance.taken())),
    }
}

/// The end for a pause after so many octets in all.
pub fn end_at(pause: Pause, taken: u64) -> EntryEnd
    ensures { result ≡ entry_end pause taken }
{
    match pause {
        Pause::Limit => EntryEnd::Limit,
        Pause::End => EntryEnd::Cut { place: taken },
        Pause::Fault => EntryEnd::Fault,
    }
}
