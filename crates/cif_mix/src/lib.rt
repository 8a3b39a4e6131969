//! Mixing in the coded domain: up to four QCIF pictures become one CIF picture, whose groups of blocks are theirs under new
//! numbers (H.261, 4.2.2); and the picture of a tick.
#![tactic(auto)]

ghost use Rattle.std.specs.Prelude.{◌≡◌, ℕ, ◌<◌, Option};
ghost use Rattle.h261_pic.specs.Coded.{Coding, coding};
ghost use Rattle.pel_model.specs.declared.Format.TheVariants.{Cif};
ghost use Rattle.pel_model.specs.declared.Quad.{Quad};
ghost use Rattle.pel_model.specs.Composed.{composed_of};
ghost use Rattle.pel_model.specs.History.{History};
ghost use Rattle.pel_model.specs.Records.{Picture};
ghost use Rattle.pel_model.specs.Written.{written_picture};
ghost use Rattle.cif_mix.specs.Rows.{CanTake, IsAdded, IsAtRow, IsRowAdded};
ghost use Rattle.cif_mix.specs.Shows.{in_places, MayBeShown, MayShow, ShowsEach, IsComposed};
ghost use Rattle.cif_mix.specs.Taken.{Took};

use h261_pic::{Coded, Hand};
use pel_model::TickNote;

/// Composes the picture of a tick whose takes stand in the hand: the picture that is written of it, of at most 262,048 bits.
/// It takes no memory.
pub fn show(note: &TickNote, hand: &Hand, into: &mut Coded)
    requires took { (lanes : ℕ) × (H : History) × Took lanes H note.now hand.now }
    requires cif { into.old.format ≡ Cif }
    ensures picture { (lanes : ℕ) (H : History) → Took lanes H note.now hand.now →
        into.new ≡ coding Cif (written_picture lanes H note.now) }
    ensures composed { IsComposed into.new }
{
    compose(
        hand,
        note.taken_one.is_some(),
        note.taken_two.is_some(),
        note.taken_three.is_some(),
        note.taken_four.is_some(),
        (note.total % 32) as u8,
        into,
    );
}

/// Leaves in `into` the CIF picture with this TR in which each place that is to be shown has the picture of its box, and
/// every other place has groups that send nothing. The macroblock bits are the senders' own. Each box that is to be shown
/// has to hold a finished QCIF picture. The text has at most 262,048 bits. It takes no memory.
pub fn compose(hand: &Hand, one: bool, two: bool, three: bool, four: bool, tr: u8, into: &mut Coded)
    requires fits { tr < 32 }
    requires cif { into.old.format ≡ Cif }
    requires shown { MayShow (in_places one two three four) hand.now }
    ensures picture { (shown : Quad → Option Picture) →
        ShowsEach (in_places one two three four) hand.now shown →
        into.new ≡ coding Cif (composed_of tr shown) }
    ensures composed { IsComposed into.new }
{
    into.start(tr);
    add_row(&hand.one, one, &hand.two, two, into);
    add_row(&hand.three, three, &hand.four, four, into);
}

// Adds the groups of two places that stand side by side, of the left one and of the right one by turns.
fn add_row(left: &Coded, show_left: bool, right: &Coded, show_right: bool, into: &mut Coded)
    requires row { IsAtRow into.old }
    requires left { MayBeShown show_left left.now }
    requires right { MayBeShown show_right right.now }
    ensures { IsRowAdded show_left left.now show_right right.now into.old into.new }
{
    left.tells_length();
    right.tells_length();
    for i in 0..3 {
        add_group(left, show_left, i, into);
        add_group(right, show_right, i, into);
    }
}

// Adds group `i`, from 0 on, of a picture that is shown, under the number that comes next, else a group that sends nothing.
fn add_group(picture: &Coded, shown: bool, i: usize, into: &mut Coded)
    requires { CanTake shown picture.now i into.old }
    ensures { IsAdded shown picture.now i into.old into.new }
{
    if shown {
        into.copy_group(picture, i);
    } else {
        into.empty_group();
    }
}

#[cfg(test)]
mod tests;
