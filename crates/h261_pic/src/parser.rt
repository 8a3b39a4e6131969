//! A picture in any input form, or its first fault.

ghost use Rattle.std.specs.Prelude.{◌≡◌, ℕ, IfOk, IfErr, IsOk};
ghost use Rattle.pel_model.specs.declared.Why.{Why};
ghost use Rattle.pel_model.specs.Records.{Picture};
ghost use Rattle.pel_model.specs.Accepts.{Accepts};
ghost use Rattle.pel_model.specs.Grammar.{next_within_limit};
ghost use Rattle.pel_model.specs.Walk.{FirstFault};
ghost use Rattle.h261_pic.specs.Coded.{nothing, coding, HoldsAccepted, IsFinished};

use crate::coded::Coded;
use crate::formats::{group_count, group_place};
use crate::group::read_group;
use crate::limited::{group_follows, picture_header_within};
use pel_bits::{Bits, Reader};
use pel_model::{Fault, Format};

/// Reads a picture of the format `want`, which is that of `into`. At Ok `into` has its strict text and the marks of that
/// text. Else the first fault is told, of any of the reasons, with its place counted from the first of `bits`, and `into`
/// is empty.
///
/// A sender may set the bits of the picture type that do not decide, and send spare bytes and stuffing (H.261, 4.2). Beyond
/// the standard a group that has no macroblocks may be left out, and up to seven zero bits may follow the last element. A
/// picture has at most 65,536 bits (QCIF) or 262,144 (CIF) (5.2), and a group that is left out counts as the 26 bits of a
/// header.
pub fn parse(bits: Bits<'_>, want: Format, into: &mut Coded) -> Result<(), Fault>
    requires { into.old.format ≡ want }
    ensures accepted { IfOk result (λ _. HoldsAccepted want bits.entry into.new) }
    ensures finished { IfOk result (λ _. IsFinished into.new) }
    ensures only { (picture : Picture) → Accepts want bits.entry picture →
        IsOk result × (into.new ≡ coding want picture) }
    ensures refused { IfErr result (λ fault.
        FirstFault (next_within_limit want) bits.entry fault.place fault.why × (into.new ≡ nothing want)) }
    ensures faults { (place : ℕ) (why : Why) →
        FirstFault (next_within_limit want) bits.entry place why →
        result ≡ Err (record { place = place; why = why }) }
{
    let result = read_picture(&bits, want, into);
    if result.is_err() {
        into.clear();
    }
    result
}

// Reads the picture's header and its groups, and puts the strict text together.
fn read_picture(bits: &Bits<'_>, format: Format, into: &mut Coded) -> Result<(), Fault>
    requires { into.old.format ≡ format }
    ensures format { into.new.format ≡ format }
    ensures accepted { IfOk result (λ _. HoldsAccepted format bits.now into.new) }
    ensures refused { IfErr result (λ fault.
        FirstFault (next_within_limit format) bits.now fault.place fault.why) }
{
    let mut r = Reader::new(bits.slice(0, bits.len()));
    into.start(picture_header_within(&mut r, format)?);
    let mut another = group_follows(&mut r, format)?;
    let mut last = 0;
    let mut begun = 0;
    while another {
        begun += 1;
        let group = read_group(&mut r, format, last, begun)?;
        last = group.header.number;
        into.add_empty_groups(group_place(format, last));
        into.add_group(group.header.quant, bits, &group.marks);
        another = group.another;
    }
    into.add_empty_groups(group_count(format));
    Ok(())
}
