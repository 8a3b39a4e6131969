//! Laws of what a lane holds, told from all that came: functions without a body, whose contracts are the laws. They
//! hold for items of every kind.

ghost use Rattle.lane_ring.specs.Arrivals.{PostLaw, GapLaw, AboveLaw, TickLaw, SerialLaw, ViewLaw};

/// A post appends an item with the next serial, and the last eight are held.
pub fn posts_are_held<T>()
    ensures { PostLaw T }
{}

/// A gap uses a serial up, and what is held stays.
pub fn gaps_hold_nothing<T>()
    ensures { GapLaw T }
{}

/// What is held above a greater serial is the part of what is held with serials above it.
pub fn held_above_a_serial<T>()
    ensures { AboveLaw T }
{}

/// What a tick leaves is what is held above the serials that it took or passed, and these serials were given out.
pub fn ticks_leave_the_rest<T>()
    ensures { TickLaw T }
{}

/// The serials of what is held rise strictly, from above those that were taken or passed, and were given out.
pub fn serials_rise<T>()
    ensures { SerialLaw T }
{}

/// What is held of boxes, and what a tick takes of it, is what is held and taken of the pictures in them.
pub fn held_items_seen_as_others<T, U>()
    ensures { ViewLaw T U }
{}
