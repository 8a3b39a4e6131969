//! The header of a conference file.
ghost use Rattle.std.specs.Prelude.{◌≡◌, length, MatchOption};
ghost use Rattle.conf_file.specs.Header.{header_of, header_size, HasLanes, IsNoHeader};
ghost use Rattle.conf_file.specs.Reading.{TakesFileHeader};

use crate::answers::{EntryEnd, EntryWhy};
use crate::fields::fetch;
use io_edge::{Allowance, Source};

/// What a conference file begins with.
const MAGIC: &str = "H261CONF";

/// The version of the file behind it.
const VERSION: u8 = 1;

/// The most lanes that a conference has.
const MOST_LANES: u8 = 16;

/// Takes the header, and gives the number of lanes.
pub fn read_header<S: Source>(source: &mut S, allowance: &mut Allowance) -> Result<u8, EntryEnd>
    ensures { TakesFileHeader (S.tells source.old) (S.tells source.new) allowance.old allowance.new result }
{
    let mut header = [0; 10];
    fetch(source, &mut header, allowance)?;
    lanes_in(&header).ok_or(EntryEnd::Bad {
        place: 0,
        why: EntryWhy::Header,
    })
}

/// The number of lanes that the header tells, if it is one.
#[tactic(auto, using(crate::proofs::HeaderLemmas::header_back, crate::proofs::HeaderLemmas::header_parts))]
fn lanes_in(header: &[u8]) -> Option<u8>
    requires { length header.now ≡ header_size }
    ensures { MatchOption result (IsNoHeader header.now)
        (λ lanes. (header.now ≡ header_of lanes) × HasLanes lanes) }
{
    let lanes = header[9];
    let is_header = &header[..8] == MAGIC.as_bytes() && header[8] == VERSION;
    if is_header && 1 <= lanes && lanes <= MOST_LANES {
        Some(lanes)
    } else {
        None
    }
}
