//! The laws: functions without a body, whose contracts are the laws.

ghost use Rattle.history_laws.specs.Histories.{HeadlineLaw, TenancyLaw, PassingLaw};

/// At each tick: the picture written is a legal CIF picture of at most 262,048 bits; whatever inverse transform the
/// decoders share, each place shows what its sender's own decoder shows behind the picture that was taken, and what it
/// showed before where none was; the picture taken is the one that the rule of takes chooses; and the pictures of a lane
/// are taken in order, each at most once.
pub fn headline()
    ensures { HeadlineLaw }
{}

/// What a lane's stay in a place takes first is a refresh; what it takes later is one too, or the picture right behind
/// the one that it took last.
pub fn tenancies()
    ensures { TenancyLaw }
{}

/// A tick takes or passes pictures of a lane by the rule of takes in the one place where the lane stands; of a lane that
/// stands nowhere it takes and passes none.
pub fn passed_where_it_stands()
    ensures { PassingLaw }
{}
