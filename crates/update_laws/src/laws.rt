//! The laws.

ghost use Rattle.update_laws.specs.Kept.{OverdueLaw};
ghost use Rattle.update_laws.specs.Updating.{UpdatingLaw};

/// In pictures that come one after another, each macroblock is coded INTRA at least once in every 132 times that it is
/// sent, exactly where no macroblock is ever sent for the 132nd time behind its last INTRA one.
pub fn overdue()
    ensures { OverdueLaw }
{}

/// Where each sender codes each macroblock INTRA at least once in every 132 times that it sends it, in all that came of it
/// with nothing lost between, so does the stream that is written, in every legal history.
pub fn updating()
    ensures { UpdatingLaw }
{}
