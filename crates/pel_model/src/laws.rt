//! Laws of the grammar: functions without a body, whose contracts are the laws.

ghost use Rattle.pel_model.specs.declared.Format.{Format};
ghost use Rattle.pel_model.specs.Walk.{HasOneAnswer};
ghost use Rattle.pel_model.specs.Grammar.{next, next_within_limit};

/// Bits are read as at most one list of elements up to a lawful end, have at most one first fault with one place and one
/// reason, and never both: within the limit of a picture, and whatever the length.
pub fn one_answer()
    ensures within_the_limit { (format : Format) → HasOneAnswer (next_within_limit format) }
    ensures of_any_length { (format : Format) → HasOneAnswer (next format) }
{}
