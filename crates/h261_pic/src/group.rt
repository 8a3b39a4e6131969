//! A group of blocks as a sender may send it: header, macroblocks and stuffing, read within the picture's limit.

ghost use Rattle.std.specs.Prelude.{◌≡◌, ◌<◌, ◌≤◌, ℕ, Bool, true, List, Result, IfOk};
ghost use Rattle.pel_model.specs.Grammar.{Element, is_group};
ghost use Rattle.h261_pic.specs.ReadGroup.{GroupComes, GroupIsReadOrFails};

use crate::coming::Coming;
use crate::formats::last_end;
use crate::input_headers::GroupHeader;
use crate::limited::{coming_within, group_header_within, macroblock_within};
use arrayvec::ArrayVec;
use h261_mb::MbState;
use pel_bits::Reader;
use pel_model::{Fault, Format, Mark};

/// The most macroblocks of a group (H.261, 4.2.2).
const MOST_OF_GROUP: usize = 33;

/// A group that was read, and what comes behind it.
#[derive(Drop)]
pub struct SentGroup {
    pub header: GroupHeader,
    /// The marks of its macroblocks, by their places in the bits that were read.
    pub marks: ArrayVec<Mark, MOST_OF_GROUP>,
    /// Whether another group comes, whose start code was taken; else the picture ends.
    pub another: bool,
}

/// Reads a group behind its start code. `begun` counts the start codes that were read, this one too; `last` is the number
/// of the group before, 0 where none came.
pub fn read_group(
    r: &mut Reader<'_>,
    format: Format,
    last: u8,
    begun: u32,
) -> Result<SentGroup, Fault>
    requires here { (bits : List Bool) × (before : List Element) × (from : List Bool × ℕ)
        × GroupComes format bits last begun before from r.old }
    requires few { begun ≤ 13 }
    ensures read { (bits : List Bool) (before : List Element) (from : List Bool × ℕ) →
        GroupComes format bits last begun before from r.old →
        GroupIsReadOrFails format bits before from result r.new }
    ensures within { IfOk result (λ group.
        (is_group format group.header.number ≡ true) × (last < group.header.number)) }
{
    let end = last_end(format, begun);
    let header = group_header_within(r, format, last, end)?;
    let mut state = MbState {
        address: 0,
        quant: header.quant,
        h: 0,
        v: 0,
    };
    let mut marks = ArrayVec::new();
    loop {
        match coming_within(r, format, begun)? {
            Coming::Stuffing => {}
            Coming::Macroblock => {
                marks.push(macroblock_within(r, format, header.number, &mut state, end)?);
            }
            Coming::Group => {
                return Ok(SentGroup {
                    header,
                    marks,
                    another: true,
                });
            }
            Coming::End => {
                return Ok(SentGroup {
                    header,
                    marks,
                    another: false,
                });
            }
        }
    }
}
