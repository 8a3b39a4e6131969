//! One call of a worker at the hall's lock.
ghost use Rattle.std.specs.Prelude.{◌≡◌};
ghost use Rattle.hall_core.specs.Machine.{is_ended};
ghost use Rattle.bridge_live.specs.Calling.{MayCall, Calls};

use hall_core::{Hall, HallCall, HallReply};
use hall_lock::{Seat, Shared};
use std::sync::Wait;

/// Why a call was given back.
#[derive(Clone, Copy, Debug, PartialEq, Eq)]
pub enum Halt {
    /// No step may follow: the conference has ended, or made all its steps.
    Ended,
    /// All turns are drawn.
    Over,
}

/// Whether the hall gave the call back.
fn is_ended(reply: &HallReply) -> bool
    ensures { result ≡ is_ended reply.now }
{
    matches!(reply, HallReply::Ended(_))
}

/// Makes a call, whose step then stands behind those that the worker made. A call that was given back is let go: its worker
/// makes no further one.
pub fn call(
    rt: &impl Wait,
    lock: &Shared<Hall>,
    seat: &mut Seat<Hall>,
    call: HallCall,
) -> Result<HallReply, Halt>
    requires { MayCall lock.now seat.old call }
    ensures { Calls lock.now call seat.old seat.new result }
{
    let Ok(reply) = lock.call(rt, seat, call) else {
        return Err(Halt::Over);
    };
    if is_ended(&reply) {
        return Err(Halt::Ended);
    }
    Ok(reply)
}
