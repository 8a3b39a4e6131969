//! Laws of the hall's turns under a lock: functions without a body, whose contracts are the laws.
ghost use Rattle.hall_core.specs.Machine.{TurnLaw, NeverLateLaw};
ghost use Rattle.hall_core.specs.Stands.{TakesLaw};

/// Turns from a hall that stands for a legal history lead to one that stands for that history and the steps that the
/// turns tell; and it is legal too.
pub fn turns_are_steps()
    ensures { TurnLaw }
{}

/// The worker that ends the conference by its last call is never answered that no step may follow, where the hall may
/// make as many steps as there are turns.
pub fn finish_is_never_late()
    ensures { NeverLateLaw }
{}

/// What a tick puts into a hand is what its places took.
pub fn taken_into_hand()
    ensures { TakesLaw }
{}
