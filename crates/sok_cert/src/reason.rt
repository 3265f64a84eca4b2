//! What is left of a claim at a depth, and which entries are expanded.

ghost use Rattle.std.specs.Prelude.{◌≡◌};
ghost use Rattle.sok_cert.specs.Closed.{rest_of, is_expanded};

use sok_bar::rest::Rest;
use sok_entry::claim::Claim;
use sok_entry::entry::Reason;

/// Returns what of a claim is still to be shown after `depth` pushes.
pub(crate) fn rest_of(claim: Claim, depth: u32) -> Rest
    ensures { result ≡ rest_of claim depth }
{
    match claim {
        Claim::Pushes(pushes) => Rest::AtLeast(pushes.saturating_sub(depth)),
        Claim::Unsolvable => Rest::Never,
    }
}

/// Returns whether the reason is that every push leads to another entry.
pub(crate) fn is_expanded(reason: &Reason) -> bool
    ensures { result ≡ is_expanded reason.now }
{
    matches!(reason, Reason::Expanded)
}
