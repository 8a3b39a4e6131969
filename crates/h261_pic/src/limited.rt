//! The parts of a coded picture, each read within the limit of its format (H.261, 5.2): an element that ends past the limit
//! is too long. A group's header that is still to come counts as if it were sent, so that the strict text has room for it.

ghost use Rattle.std.specs.Prelude.{◌≡◌, ◌-◌, ◌<◌, ◌≤◌, ℕ, true, List, [], take, IfOk};
ghost use Rattle.pel_model.specs.declared.Format.{Format as PictureFormat};
ghost use Rattle.pel_model.specs.Valid.{limit};
ghost use Rattle.pel_model.specs.Grammar.{Element, Mba, mba_rows, slot, AtGn, AtGroup, AtMacroblock, group as group_before, begun as begun_before, is_group, counted, next_within_limit};
ghost use Rattle.pel_model.specs.Walk.{Good, read};
ghost use Rattle.h261_mb.specs.State.{IsReady, Stands, IsRead};
ghost use Rattle.h261_pic.specs.HeaderElements.{IsPictureHeader, IsGroupHeader};
ghost use Rattle.h261_pic.specs.Comes.{Comes};
ghost use Rattle.h261_pic.specs.Reached.{EndsAt, Reached, FollowsOrFails};

use crate::coming::{Coming, begins_short_mba, take_coming, take_group_or_end};
use crate::formats::last_end;
use crate::input_headers::{GroupHeader, read_group_header, read_picture_header};
use h261_mb::{MbState, scan_mb};
use pel_bits::Reader;
use pel_model::{Fault, Format, Mark, Why};

/// Takes a picture header as `read_picture_header` does, from the first bit on.
pub fn picture_header_within(r: &mut Reader<'_>, format: Format) -> Result<u8, Fault>
    requires { r.old.1 ≡ 0 }
    ensures walk { Reached format [] IsPictureHeader result r.old r.new }
    ensures within { IfOk result (λ tr. tr < 32) }
{
    let end = last_end(format, 0);
    let begin = r.copy();
    let header = read_picture_header(r, format);
    if r.place() <= end {
        return header;
    }
    let mut cut = cut_at(&begin, end);
    let _cut_header = read_picture_header(&mut cut, format);
    Err(too_long(cut.place()))
}

/// Takes a group header as `read_group_header` does, no element of which ends past `end`.
pub fn group_header_within(
    r: &mut Reader<'_>,
    format: Format,
    last: u8,
    end: u32,
) -> Result<GroupHeader, Fault>
    ensures walk { (before : List Element) → slot before ≡ AtGn → group_before before ≡ last →
        EndsAt format before end → r.old.1 ≤ end →
        Reached format before IsGroupHeader result r.old r.new }
    ensures number { IfOk result (λ header.
        (is_group format header.number ≡ true) × (last < header.number)) }
    ensures quant { IfOk result (λ header. (0 < header.quant) × (header.quant < 32)) }
{
    let begin = r.copy();
    let header = read_group_header(r, format, last);
    if r.place() <= end {
        return header;
    }
    let mut cut = cut_at(&begin, end);
    let _cut_header = read_group_header(&mut cut, format, last);
    Err(too_long(cut.place()))
}

/// Reads a macroblock as `scan_mb` does, no element of which ends past `end`.
pub fn macroblock_within(
    r: &mut Reader<'_>,
    format: Format,
    group: u8,
    state: &mut MbState,
    end: u32,
) -> Result<Mark, Fault>
    requires group { is_group format group ≡ true }
    requires ready { IsReady state.old }
    ensures walk { (before : List Element) (d n : ℕ) → Stands group state.old before →
        read mba_rows r.old.0 ≡ Good (Mba d) n → EndsAt format before end → r.old.1 ≤ end →
        Reached format before (IsRead group r.old.1 before state.new) result r.old r.new }
    ensures ready { IsReady state.new }
{
    let begin = r.copy();
    let mut cut_state = *state;
    let mark = scan_mb(r, format, group, state);
    if r.place() <= end {
        return mark;
    }
    let mut cut = cut_at(&begin, end);
    let _cut_mark = scan_mb(&mut cut, format, group, &mut cut_state);
    Err(too_long(cut.place()))
}

/// Says what comes where a macroblock may, as `take_coming` does, behind so many groups begun.
pub fn coming_within(r: &mut Reader<'_>, format: Format, begun: u32) -> Result<Coming, Fault>
    requires { begun ≤ 13 }
    ensures { (before : List Element) → slot before ≡ AtMacroblock → begun_before before ≡ begun →
        counted format before r.old.1 ≤ limit format →
        Comes (next_within_limit format before r.old) result r.old r.new }
{
    if begins_short_mba(r) {
        return Ok(Coming::Macroblock);
    }
    let mut ahead = r.copy();
    let coming = take_coming(&mut ahead)?;
    let begun = match coming {
        Coming::Group => begun + 1,
        Coming::End | Coming::Stuffing | Coming::Macroblock => begun,
    };
    if ahead.place() > last_end(format, begun) {
        return Err(too_long(r.place()));
    }
    *r = ahead;
    Ok(coming)
}

/// Says whether a group comes behind a picture header, and then takes its start code; else the picture ends.
pub fn group_follows(r: &mut Reader<'_>, format: Format) -> Result<bool, Fault>
    ensures { (before : List Element) → slot before ≡ AtGroup → begun_before before ≡ 0 →
        counted format before r.old.1 ≤ limit format →
        FollowsOrFails (next_within_limit format before r.old) result r.old r.new }
{
    let place = r.place();
    match take_group_or_end(r)? {
        Coming::Group if r.place() > last_end(format, 1) => Err(too_long(place)),
        Coming::Group => Ok(true),
        Coming::End | Coming::Stuffing | Coming::Macroblock => Ok(false),
    }
}

// A reader of the bits up to `end` alone: the element that ends past it is cut there.
fn cut_at<'a>(r: &Reader<'a>, end: u32) -> Reader<'a>
    ensures { result ≡ (take (end - r.now.1) r.now.0, r.now.1) }
{
    r.first(end.saturating_sub(r.place()).min(r.left()))
}

fn too_long(place: u32) -> Fault
    ensures { result ≡ record { place = place; why = Why.TooLong } }
{
    Fault {
        place,
        why: Why::TooLong,
    }
}
