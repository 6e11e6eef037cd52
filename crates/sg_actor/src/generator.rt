//! The generator of the numbers of a churn.
ghost use Rattle.std.specs.Prelude.{◌≡◌, ◌+◌, ◌<◌, ◌≤◌, ◌%◌};
ghost use Rattle.sg_base.specs.Draw.{drawn, next_state};

const FACTOR: u64 = 6364136223846793005;

const SUMMAND: u64 = 1442695040888963407;

/// Draws a number from 1 to `most`, and no more than 2^31, and sets the generator to its next state.
pub fn draw(state: &mut u64, most: u64) -> u64
    requires { 0 < most }
    ensures state { state.new ≡ next_state state.old }
    ensures number { result ≡ 1 + drawn state.old % most }
    ensures most { result ≤ most }
{
    *state = state.wrapping_mul(FACTOR).wrapping_add(SUMMAND);
    1 + (*state >> 33) % most
}
