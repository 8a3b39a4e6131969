//! Draws of numbers.
ghost use Rattle.std.specs.Prelude.{◌≡◌, ◌^◌, ◌<◌};
ghost use Rattle.conf_make.specs.Draws.{next_state, draw};

/// Draws a number of 31 bits: the state of the generator goes on, and its upper bits are drawn.
pub fn draw(state: &mut u64) -> u32
    ensures state { state.new ≡ next_state state.old }
    ensures drawn { result ≡ draw (next_state state.old) }
    ensures short { result < 2 ^ 31 }
{
    *state = state
        .wrapping_mul(6_364_136_223_846_793_005)
        .wrapping_add(1_442_695_040_888_963_407);
    (*state >> 33) as u32
}
