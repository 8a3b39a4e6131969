//! What may come behind a picture's header, a group's header, a macroblock or stuffing: the end, a group, stuffing or a
//! macroblock (H.261, 4.2.1 to 4.2.3).

ghost use Rattle.std.specs.Prelude.{◌≡◌, ◌≤◌, true, false, List, IfOk};
ghost use Rattle.pel_model.specs.declared.Format.{Format};
ghost use Rattle.pel_model.specs.declared.Why.TheVariants.{NoCode};
ghost use Rattle.pel_model.specs.Grammar.{Element, slot, AtGroup, AtMacroblock, is_end, mba_rows, next};
ghost use Rattle.pel_model.specs.Walk.{Bad, read};
ghost use Rattle.h261_pic.specs.Comes.{Comes, IsGroupOrEnd, IsMba};

use pel_bits::Reader;
use pel_model::{Fault, Why};
use vlc_codes::{MbaRow, mba};

/// What stands where a macroblock may.
#[derive(Clone, Copy, Debug, PartialEq, Eq)]
pub enum Coming {
    /// The picture's end: at most 7 bits are left, and all are 0.
    End,
    /// The next group, whose start code was taken.
    Group,
    /// Stuffing, which was taken.
    Stuffing,
    /// A macroblock, whose MBA stands at the reader's place.
    Macroblock,
}

/// Says what comes where a macroblock may, and takes a start code or stuffing. At a fault, NoCode or Cut, the reader has
/// not moved; it is judged over all words that may stand there.
pub fn take_coming(r: &mut Reader<'_>) -> Result<Coming, Fault>
    ensures { (format : Format) (before : List Element) → slot before ≡ AtMacroblock →
        Comes (next format before r.old) result r.old r.new }
{
    if is_end(r) {
        return Ok(Coming::End);
    }
    let mut ahead = r.copy();
    match mba(&mut ahead) {
        Ok(MbaRow::Difference(_)) => Ok(Coming::Macroblock),
        Ok(MbaRow::Stuffing) => {
            *r = ahead;
            Ok(Coming::Stuffing)
        }
        Err(why) => take_gbsc(r, why),
    }
}

/// Whether at least 8 bits are left, of which at most three come before the first 1: so MBA begins at all but the macroblocks
/// behind a gap of seven, and such a macroblock is told without its MBA, which is read once.
#[inline]
pub fn begins_short_mba(r: &Reader<'_>) -> bool
    ensures { result ≡ true → IsMba r.now r.now }
{
    r.left() >= 8 && r.peek(4) != 0
}

/// Says what comes behind a picture header, the end or a group, and takes a start code. At a fault, NoCode or Cut, the
/// reader has not moved.
pub fn take_group_or_end(r: &mut Reader<'_>) -> Result<Coming, Fault>
    ensures comes { (format : Format) (before : List Element) → slot before ≡ AtGroup →
        Comes (next format before r.old) result r.old r.new }
    ensures of_these { IfOk result IsGroupOrEnd }
{
    if is_end(r) {
        return Ok(Coming::End);
    }
    take_gbsc(r, Why::NoCode)
}

// At most 7 bits are left, and all are 0.
fn is_end(r: &Reader<'_>) -> bool
    ensures { result ≡ is_end r.now.0 }
{
    let left = r.left();
    left < 8 && r.peek(left) == 0
}

// Takes GBSC (4.2.2.1). `why` is the reason why no word of MBA stands here, or NoCode behind a picture header, where none
// may.
fn take_gbsc(r: &mut Reader<'_>, why: Why) -> Result<Coming, Fault>
    ensures behind_a_group { (format : Format) (before : List Element) →
        slot before ≡ AtMacroblock → is_end r.old.0 ≡ false →
        read mba_rows r.old.0 ≡ Bad why → Comes (next format before r.old) result r.old r.new }
    ensures behind_a_header { (format : Format) (before : List Element) →
        slot before ≡ AtGroup → is_end r.old.0 ≡ false →
        why ≡ NoCode → Comes (next format before r.old) result r.old r.new }
    ensures of_these { IfOk result IsGroupOrEnd }
{
    let place = r.place();
    let width = r.left().min(16);
    if r.peek(width) != 1 >> (16 - width) {
        return Err(Fault { place, why });
    }
    if width < 16 {
        return Err(Fault {
            place,
            why: Why::Cut,
        });
    }
    r.skip(16);
    Ok(Coming::Group)
}
