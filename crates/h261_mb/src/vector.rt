//! The vector of a macroblock: MVD, horizontal then vertical (H.261, 4.2.3.4), and the picture area (3.2.2).

ghost use Rattle.std.specs.Prelude.{◌≡◌, ◌<◌, ◌≤◌, negsuc, pos, ◌≤ℤ◌, cond, Some, None, IfSome};
ghost use Rattle.pel_model.specs.declared.Format.TheVariants.{Cif};
ghost use Rattle.pel_model.specs.Valid.{side as side_of, corner, stays_within as stays};
ghost use Rattle.pel_model.specs.Records.{Across, Down};
ghost use Rattle.pel_model.specs.Grammar.{component_from, in_range as is_in_range};
ghost use Rattle.h261_mb.specs.Parts.{VectorMayCome, ReadsVector, MvdMayCome, ReadsMvd};
ghost use Rattle.h261_mb.specs.State.{IsNear};

use crate::kinds::has_vector;
use crate::state::Front;
use pel_bits::Reader;
use pel_model::{Fault, Format, Why};
use vlc_codes::mvd;

/// Takes the vector where the kind has one; else it is its predictor, (0, 0).
pub fn read_vector(
    r: &mut Reader<'_>,
    format: Format,
    group: u8,
    front: &Front,
) -> Result<(i8, i8), Fault>
    requires { VectorMayCome format group front.now }
    ensures { ReadsVector format group front.now result r.old r.new }
{
    if !has_vector(front.kind) {
        return Ok((front.h, front.v));
    }
    let h = take_mvd(r, front.h, left_edge(group, front.address), width(format))?;
    let v = take_mvd(r, front.v, top_edge(group, front.address), height(format))?;
    Ok((h, v))
}

// Takes one MVD and gives the component, whose macroblock has its first sample at `first` on this axis.
fn take_mvd(r: &mut Reader<'_>, last: i8, first: u32, side: u32) -> Result<i8, Fault>
    requires { MvdMayCome last first }
    ensures { ReadsMvd last first side result r.old r.new }
{
    let place = r.place();
    let mut ahead = r.copy();
    match mvd(&mut ahead) {
        Ok(values) => match component(last, values) {
            Some(component) => {
                if !stays_within(first, side, component) {
                    return Err(Fault {
                        place,
                        why: Why::VectorOutside,
                    });
                }
                *r = ahead;
                Ok(component)
            }
            None => Err(Fault {
                place,
                why: Why::BadVector,
            }),
        },
        Err(why) => Err(Fault { place, why }),
    }
}

// The predictor plus that value which gives -15 to 15.
pub fn component(last: i8, values: (i8, i8)) -> Option<i8>
    requires near { IsNear last }
    requires first { (negsuc 29 ≤ℤ values.0) × (values.0 ≤ℤ pos 30) }
    requires second { (negsuc 29 ≤ℤ values.1) × (values.1 ≤ℤ pos 30) }
    ensures value { result ≡ cond (is_in_range (component_from last values))
        (Some (component_from last values)) None }
    ensures near { IfSome result IsNear }
{
    let first = last + values.0;
    let second = last + values.1;
    if in_range(first) {
        Some(first)
    } else if in_range(second) {
        Some(second)
    } else {
        None
    }
}

fn in_range(component: i8) -> bool
    ensures { result ≡ is_in_range component }
{
    -15 <= component && component <= 15
}

// 16 samples from `first` on, moved by the component, lie within the side.
pub fn stays_within(first: u32, side: u32, component: i8) -> bool
    requires { first ≤ side_of Cif Across }
    ensures { result ≡ stays side first component }
{
    let shift = u32::from(component.unsigned_abs());
    if component < 0 {
        shift <= first
    } else {
        first + shift + 16 <= side
    }
}

pub fn width(format: Format) -> u32
    ensures { result ≡ side_of format Across }
{
    match format {
        Format::Qcif => 176,
        Format::Cif => 352,
    }
}

pub fn height(format: Format) -> u32
    ensures { result ≡ side_of format Down }
{
    match format {
        Format::Qcif => 144,
        Format::Cif => 288,
    }
}

// The first luminance sample of a macroblock on each axis: a group is 176 by 48, a macroblock 16 by 16 (H.261, 4.2.2).
pub fn left_edge(group: u8, address: u8) -> u32
    requires { (0 < group) × (0 < address) }
    ensures value { result ≡ corner Across group address }
    ensures within { result ≤ side_of Cif Across }
{
    176 * (u32::from(group - 1) % 2) + 16 * (u32::from(address - 1) % 11)
}

pub fn top_edge(group: u8, address: u8) -> u32
    requires { (0 < group) × (group ≤ 12) × (0 < address) × (address ≤ 33) }
    ensures value { result ≡ corner Down group address }
    ensures within { result ≤ side_of Cif Across }
{
    48 * (u32::from(group - 1) / 2) + 16 * (u32::from(address - 1) / 11)
}
