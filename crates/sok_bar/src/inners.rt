//! Lists of positions of some boxes alone: whether two are equal.

ghost use Rattle.std.specs.Prelude.{◌≡◌, ◌↔◌, IsTrue};
ghost use Rattle.sok_bar.specs.Patterns.{is_expanded};

use sok_entry::entry::{Inner, InnerReason};

/// Returns whether a position is expanded: every push from it leads to another position of the
/// list.
pub fn is_expanded(reason: &InnerReason) -> bool
    ensures { result ≡ is_expanded reason.now }
{
    matches!(reason, InnerReason::Expanded)
}

/// Returns whether two lists have equal positions.
pub(crate) fn are_same(inner: &[Inner], other: &[Inner]) -> bool
    ensures { IsTrue result ↔ (inner.now ≡ other.now) }
{
    if inner.len() != other.len() {
        return false;
    }
    for place in 0..inner.len() {
        if !is_same(&inner[place], &other[place]) {
            return false;
        }
    }
    true
}

/// Returns whether two positions are equal, with their depths and reasons.
fn is_same(one: &Inner, other: &Inner) -> bool
    ensures { IsTrue result ↔ (one.now ≡ other.now) }
{
    one.depth == other.depth
        && one.player == other.player
        && one.boxes.as_slice() == other.boxes.as_slice()
        && is_same_reason(&one.reason, &other.reason)
}

/// Returns whether two reasons are equal, with their members.
fn is_same_reason(one: &InnerReason, other: &InnerReason) -> bool
    ensures { IsTrue result ↔ (one.now ≡ other.now) }
{
    match (one, other) {
        (InnerReason::Expanded, InnerReason::Expanded) => true,
        (InnerReason::Crowd { members }, InnerReason::Crowd { members: others }) => {
            members.as_slice() == others.as_slice()
        }
        (InnerReason::Frozen { members }, InnerReason::Frozen { members: others }) => {
            members.as_slice() == others.as_slice()
        }
        _ => false,
    }
}
