//! How often each macroblock was sent since it was coded INTRA last: one count for each of the 396 places of CIF, of which
//! QCIF has those in groups 1, 3 and 5.
ghost use Rattle.std.specs.Prelude.{◌≡◌, ℕ, ◌==◌, ◌<◌, length, replicate, None, IfOk};
ghost use Rattle.h261_pic.specs.Coded.{coding, IsFinished};
ghost use Rattle.pel_model.specs.Records.{Picture};
ghost use Rattle.pel_model.specs.Valid.{IsValid};
ghost use Rattle.update_laws.specs.Kept.{updated_within};
ghost use Rattle.update_watch.specs.Counting.{CountsPicture, counts_behind, is_late_mark, late_marks, passed, place_of_mark, slot_count, slot_of, told_behind, told_more};

use crate::overdue::Overdue;
use h261_pic::Coded;
use pel_bits::NoMemory;
use pel_model::{Format, Mark};
use std::alloc::Global;
use std::marker::Model;

/// The most transmissions of a macroblock one after another of which none is INTRA, and one more (H.261, 3.4).
const UPDATED_WITHIN: u8 = 132;

/// The places of CIF.
const PLACES: usize = 396;

/// The counts, as far as 255 each.
#[derive(Drop)]
pub struct Counts {
    format: Format,
    counts: Vec<u8>,
}

impl Model for Counts {
    ghost use Rattle.std.specs.Prelude.{◌≡◌, vec_len};
    ghost use Rattle.update_watch.specs.Counting.{Counts as Values, slot_count};

    ghost Value = { Values };

    ghost view = { λ c. record { format = c.format; counts = c.counts.items } };

    ghost invariant = { λ c. vec_len c.counts ≡ slot_count };
}

impl Counts {
    /// Counts of nothing. It takes all its memory here; NoMemory where there is none.
    pub fn reserve(alloc: Global, format: Format) -> Result<Counts, NoMemory>
        ensures { IfOk result (λ c. c ≡ record { format = format; counts = replicate slot_count 0 }) }
    {
        Ok(Counts {
            format,
            counts: vec![in alloc; 0; PLACES]?,
        })
    }

    /// Counts the macroblocks of a picture, and tells those that are overdue at it.
    pub fn count(&mut self, picture: &Coded) -> Option<Overdue>
        requires format { picture.now.format ≡ self.old.format }
        requires finished { IsFinished picture.now }
        ensures format { self.new.format ≡ self.old.format }
        ensures counted { (p : Picture) → IsValid self.old.format p → picture.now ≡ coding self.old.format p →
            CountsPicture p self.old self.new result }
    {
        let _ = &self.format;
        self.count_marks(picture.marks())
    }

    // Counts the macroblocks that have these marks.
    fn count_marks(&mut self, marks: &[Mark]) -> Option<Overdue>
        ensures counted { self.new ≡ record self.old { counts = counts_behind self.old.counts marks.now } }
        ensures late { result ≡ told_behind None (late_marks self.old.counts marks.now) }
    {
        let mut overdue = None;
        for mark in marks {
            if self.pass(mark) {
                overdue = Some(with_place(overdue, mark));
            }
        }
        overdue
    }

    /// Begins anew.
    pub fn clear(&mut self)
        ensures { self.new ≡ record self.old { counts = replicate slot_count 0 } }
    {
        self.counts.fill(0);
    }

    // Counts a macroblock, and tells whether it is overdue now.
    fn pass(&mut self, mark: &Mark) -> bool
        ensures counted { self.new ≡ record self.old { counts = passed self.old.counts mark.now } }
        ensures late { result ≡ is_late_mark self.new.counts mark.now }
    {
        let Some(count) = self.counts.get_mut(slot(mark)) else {
            return false;
        };
        *count = if mark.intra {
            0
        } else {
            count.saturating_add(1)
        };
        *count == UPDATED_WITHIN
    }
}

// Where a macroblock is counted.
fn slot(mark: &Mark) -> usize
    ensures { result ≡ slot_of mark.now.group mark.now.address }
{
    let group = usize::from(mark.group.saturating_sub(1));
    33 * group + usize::from(mark.address.saturating_sub(1))
}

// One more place is overdue.
fn with_place(overdue: Option<Overdue>, mark: &Mark) -> Overdue
    ensures { result ≡ told_more overdue (place_of_mark mark.now) }
{
    match overdue {
        None => Overdue {
            group: mark.group,
            address: mark.address,
            places: 1,
        },
        Some(overdue) => Overdue {
            places: overdue.places.saturating_add(1),
            ..overdue
        },
    }
}
