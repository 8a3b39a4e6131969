//! What stands at the front of bits: a picture up to the start code of the next one, one picture that is all of them, or a
//! first fault.
ghost use Rattle.std.specs.Prelude.{◌≡◌, ℕ, ◌+◌, ◌-◌, ◌^◌, ◌<◌, ◌≤◌, ◌⊎◌, List, Bool, length, take, drop};
ghost use Rattle.bare_stream.specs.Front.{StandsInFront};
ghost use Rattle.bare_stream.specs.Streams.{EndsAtStart, StartsAt};
ghost use Rattle.bare_stream.specs.Tries.{FindsEnd, LastsBefore};
ghost use Rattle.h261_pic.specs.Coded.{nothing, HoldsAccepted, IsFinished};
ghost use Rattle.pel_model.specs.Codes.{picture_start_code, is_prefix};
ghost use Rattle.pel_model.specs.Valid.{limit};

use h261_pic::{Coded, parse};
use pel_bits::Bits;
use pel_model::{Fault, Format};
use picture_laws::{accepted_text_is_read, limit_is_read_by_a_cut, one_record_or_one_fault};

/// The length of PSC, and the number that it spells (H.261, 4.2.1.1).
const START_LENGTH: u32 = 20;

const START_NUMBER: u32 = 16;

/// The length of the start code of a group, with which PSC begins (4.2.2.1).
const GROUP_START_LENGTH: u32 = 16;

/// The most zero bits behind the last element of a picture.
const MOST_ZEROS: u32 = 7;

/// What stands at the front of bits.
#[derive(Clone, Copy, Debug, PartialEq, Eq)]
pub enum Front {
    /// The bits before this place are a picture, and behind them the next one begins.
    Next(u32),
    /// All bits are one picture.
    Whole,
    /// Neither, and this is the first fault of all bits.
    Bad(Fault),
}

/// Reads what stands at the front of bits. The picture, if there is one, is left in `into`, whose format is `format`; else
/// `into` is empty.
///
/// The bits are read up to their first fault, which the start code of another picture is, and those before it once more. So
/// the work is bounded by three readings of the bits up to the first fault, whatever stands behind it.
pub fn read_front(bits: Bits<'_>, format: Format, into: &mut Coded) -> Front
    requires { into.old.format ≡ format }
    ensures front { StandsInFront format bits.entry result into.new }
    ensures format { into.new.format ≡ format }
{
    // what a fault says of the place of a next picture rests on these laws
    accepted_text_is_read();
    limit_is_read_by_a_cut();
    one_record_or_one_fault();
    match parse(bits.slice(0, bits.len()), format, into) {
        Ok(()) => Front::Whole,
        Err(fault) => match picture_before(&bits, format, fault.place, into) {
            Some(e) => Front::Next(e),
            None => Front::Bad(fault),
        },
    }
}

// The place at which a picture ends and another begins, near the first fault of the bits: where the elements of the picture
// end, the start code of the next one is at fault, alone or behind its first 16 bits, which are those of a group's. Up to
// seven zero bits may stand before it. No bits have two such places.
fn picture_before(bits: &Bits<'_>, format: Format, fault: u32, into: &mut Coded) -> Option<u32>
    requires into { into.old ≡ nothing format }
    requires small { fault ≤ limit format }
    ensures { FindsEnd format bits.now fault result into.new }
{
    if fault >= GROUP_START_LENGTH && picture_ends(bits, format, fault - GROUP_START_LENGTH, into) {
        return Some(fault - GROUP_START_LENGTH);
    }
    for zeros in 0..MOST_ZEROS + 1 {
        if picture_ends(bits, format, fault + zeros, into) {
            return Some(fault + zeros);
        }
    }
    None
}

// Whether a picture ends at bit `e` and another begins there. The picture is then in `into`, which else is empty.
fn picture_ends(bits: &Bits<'_>, format: Format, e: u32, into: &mut Coded) -> bool
    requires into { into.old ≡ nothing format }
    ensures { LastsBefore format bits.now e result into.new }
{
    if e == 0 || !starts_at(bits, e) {
        return false;
    }
    parse(bits.slice(0, e), format, into).is_ok()
}

// Whether PSC begins at bit `e`.
fn starts_at(bits: &Bits<'_>, e: u32) -> bool
    ensures { result ≡ is_prefix picture_start_code (drop e bits.now) }
{
    bits.len().saturating_sub(e) >= START_LENGTH && bits.number(e, START_LENGTH) == START_NUMBER
}
