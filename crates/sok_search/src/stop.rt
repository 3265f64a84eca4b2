//! Why a search stops before its end.

ghost use Rattle.std.specs.Prelude.{◌≡◌};
ghost use Rattle.sok_search.specs.declared.stop.Stop.TheVariants as cause;

use sok_rules::fault::Memory;

/// Why a search stops before its end.
#[derive(Clone, Copy)]
pub(crate) enum Stop {
    /// The table is full, and another state was reached.
    Cut,
    /// Memory was refused.
    Memory,
}

impl From<Memory> for Stop {
    ghost from_gives = { λ _ stop. stop ≡ cause.Memory };

    fn from(_error: Memory) -> Stop {
        Stop::Memory
    }
}
