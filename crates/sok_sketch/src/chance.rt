//! Pseudo-random numbers, the same in each run.

ghost use Rattle.std.specs.Prelude.{◌<◌};

/// Returns the next of some numbers, below `end`, by the linear congruential generator of Knuth's
/// MMIX.
pub fn next(state: &mut u64, end: usize) -> usize
    requires { 0 < end }
    ensures { result < end }
{
    *state = state
        .wrapping_mul(6_364_136_223_846_793_005)
        .wrapping_add(1_442_695_040_888_963_407);
    (*state >> 33) as usize % end
}
