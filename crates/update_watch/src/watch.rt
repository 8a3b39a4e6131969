//! The watch.
ghost use Rattle.std.specs.Prelude.{◌≡◌, List, [], Option, true, IfOk};
ghost use Rattle.h261_pic.specs.Coded.{coding, IsFinished};
ghost use Rattle.pel_model.specs.Records.{Picture};
ghost use Rattle.pel_model.specs.Valid.{IsValid};
ghost use Rattle.update_laws.specs.Kept.{KeepsUpdating};
ghost use Rattle.update_watch.specs.Stands.{PassesGap, Sees, StandsFor};

use crate::counts::Counts;
use crate::overdue::Overdue;
use h261_pic::Coded;
use pel_bits::NoMemory;
use pel_model::Format;
use std::alloc::Global;
use std::marker::Model;

/// A watch on the pictures of one sender: whether in each stretch of them, with no gap between, each macroblock is coded
/// INTRA at least once in every 132 times that it is sent (H.261, 3.4).
#[derive(Drop)]
pub struct Watch {
    counts: Counts,
    kept: bool,
}

impl Model for Watch {
    ghost use Rattle.update_watch.specs.Stands.{WatchState};

    ghost Value = { WatchState };

    ghost view = { λ w. record { format = w.counts.format; counts = w.counts.counts; kept = w.kept } };
}

impl Watch {
    /// A watch that has seen nothing. It takes all its memory here, 396 octets; NoMemory where there is none.
    pub fn reserve(alloc: Global, format: Format) -> Result<Watch, NoMemory>
        ensures format { IfOk result (λ watch. watch.format ≡ format) }
        ensures stands { IfOk result (λ watch. StandsFor watch []) }
    {
        Ok(Watch {
            counts: Counts::reserve(alloc, format)?,
            kept: true,
        })
    }

    /// Sees a finished picture of the watch's format. It tells the macroblocks that are overdue at it, where there are any: each
    /// is sent here for the 132nd time in its stretch one after another without being coded INTRA. It tells each once.
    pub fn see(&mut self, picture: &Coded) -> Option<Overdue>
        requires format { picture.now.format ≡ self.old.format }
        requires finished { IsFinished picture.now }
        ensures format { self.new.format ≡ self.old.format }
        ensures sees { (p : Picture) → IsValid self.old.format p → picture.now ≡ coding self.old.format p →
            Sees p self.old self.new result }
    {
        let overdue = self.counts.count(picture);
        if overdue.is_some() {
            self.kept = false;
        }
        overdue
    }

    /// Sees a gap: a stretch ends here, and the next picture begins a new one.
    pub fn gap(&mut self)
        ensures { PassesGap self.old self.new }
    {
        self.counts.clear();
    }

    /// Whether forced updating was kept in every stretch that was seen.
    pub fn kept(&self) -> bool
        ensures kept { (came : List (Option Picture)) → StandsFor self.now came → result ≡ true → KeepsUpdating came }
        ensures broken { (came : List (Option Picture)) → StandsFor self.now came → KeepsUpdating came → result ≡ true }
    {
        self.kept
    }
}
