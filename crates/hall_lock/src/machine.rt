//! What the lock passes round: a machine that answers one call at a time.
ghost use Rattle.std.specs.Prelude.{◌≡◌};

/// A machine, which a call takes from one value to the next. `steps` is its own relation of the value before, the
/// call, the reply and the value after. `shape` is what no step changes, and `fits` says which calls a machine of a
/// shape may be asked.
pub trait Machine {
    type Call;

    type Reply;
    /// Plain data that no step changes.
    type Shape;

    ghost shape: { Self → Self.Shape };

    ghost fits: { Self.Shape → Self.Call → Type 0 };

    ghost steps: { Self → Self.Call → Self.Reply → Self → Type 0 };

    /// Makes one step and gives its reply. The call has to fit the shape, which stays.
    fn step(&mut self, call: Self::Call) -> Self::Reply
        requires { fits (shape self.old) call }
        ensures { steps self.old call result self.new };

    // No step changes the shape.
    ghost keeps_shape: { (m : Self) (c : Self.Call) (r : Self.Reply) (n : Self) → steps m c r n
        → shape n ≡ shape m };
}
