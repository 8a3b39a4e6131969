//! Where the atoms of a picture's strict text end: the pieces of it that no packet cuts.
ghost use Rattle.std.specs.Prelude.{◌≡◌, ◌+◌, ◌-◌, ◌*◌, ◌<◌, ◌≤◌, ◌++◌, [], ◌∷◌, length, take, drop, pos};
ghost use Rattle.h261_pic.specs.Coded.{coding};
ghost use Rattle.pel_model.specs.declared.Format.TheVariants.{Cif};
ghost use Rattle.pel_model.specs.Records.{Picture};
ghost use Rattle.cif_pack.specs.Atoms.{atom_ends, IsFinishedCif};
ghost use Rattle.cif_pack.specs.Marked.{most_atoms, view_ends, mark_ends, ends_from, count_of};

use arrayvec::ArrayVec;
use h261_pic::{Coded, GroupView};
use pel_model::Mark;

/// The most atoms of a picture: 33 in each of 12 groups.
pub const MOST_ATOMS: usize = 396;

/// What the header of a packet tells of the macroblock before its first one (RFC 4587, 4.1): the number of its group, its
/// address less 1, the quantiser in effect, and its vector. All are 0 where the packet begins with the header of a picture
/// or of a group.
#[derive(Clone, Copy, Debug, Default, PartialEq, Eq)]
pub struct Context {
    pub gobn: u8,
    pub mbap: u8,
    pub quant: u8,
    pub across: i8,
    pub down: i8,
}

/// Where an atom ends, in bits from the beginning of the text, and the context of a packet that begins there.
#[derive(Clone, Copy, Debug, Default, PartialEq, Eq)]
pub struct AtomEnd {
    pub at: usize,
    pub context: Context,
}

/// The ends of the atoms of a CIF picture that has all its groups, in their order.
pub fn atom_ends(picture: &Coded) -> ArrayVec<AtomEnd, MOST_ATOMS>
    requires { IsFinishedCif picture.now }
    ensures ends { (p : Picture) → picture.now ≡ coding Cif p → result.items ≡ atom_ends p }
    ensures few { length result.items ≤ most_atoms }
{
    let _bits = picture.bits();
    let marks = picture.marks();
    let mut ends = ArrayVec::new();
    for i in 0..12 {
        add_group(&picture.group(i), marks, &mut ends);
    }
    ends
}

/// Adds the ends of the atoms of a group.
fn add_group(view: &GroupView, marks: &[Mark], ends: &mut ArrayVec<AtomEnd, MOST_ATOMS>)
    requires inside { view.now.first_mark + view.now.marks ≤ length marks.now }
    requires room { length ends.old.items + count_of view.now ≤ most_atoms }
    ensures { ends.new.items ≡ ends.old.items ++ view_ends marks.now view.now }
{
    if view.marks == 0 {
        ends.push(AtomEnd {
            at: view.from as usize,
            context: Context::default(),
        });
    } else {
        let first = usize::from(view.first_mark);
        add_macroblocks(&marks[first..first + usize::from(view.marks)], ends);
    }
}

/// Adds the ends of the macroblocks of a group, of which these are the marks.
fn add_macroblocks(marks: &[Mark], ends: &mut ArrayVec<AtomEnd, MOST_ATOMS>)
    requires { length ends.old.items + length marks.now ≤ most_atoms }
    ensures { ends.new.items ≡ ends.old.items ++ mark_ends marks.now }
{
    for i in 0..marks.len() {
        let is_last = i + 1 == marks.len();
        ends.push(end_of(&marks[i], is_last));
    }
}

/// The end of a macroblock. Behind the last one of a group stands a header, or nothing.
fn end_of(mark: &Mark, is_last: bool) -> AtomEnd
    ensures { result ≡ ends_from is_last mark.now }
{
    let context = if is_last {
        Context::default()
    } else {
        Context {
            gobn: mark.group,
            mbap: mark.address.saturating_sub(1),
            quant: mark.quant_after,
            across: mark.h_after,
            down: mark.v_after,
        }
    };
    AtomEnd {
        at: mark.at as usize + mark.len as usize,
        context,
    }
}
