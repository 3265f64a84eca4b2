//! Lists of members of a list of boxes, by their indices in it.

ghost use Rattle.std.specs.Prelude.{◌≤◌, ◌↔◌, IsTrue, length};
ghost use Rattle.std.specs.List.Sorted.{IsStrictlyIncreasing};
ghost use Rattle.sok_board.specs.Limits.{box_limit};
ghost use Rattle.sok_price.specs.Prices.{AreMembers, IsMember};

use sok_board::area::Sq;
use sok_closed::placing::rises;

/// Returns whether the numbers are indices of boxes, in strictly ascending order.
pub(crate) fn are_members(boxes: &[Sq], members: &[u32]) -> bool
    ensures { IsTrue result ↔ AreMembers boxes.now members.now }
{
    rises(members)
        && members
            .iter()
            .all(|member| (*member as usize) < boxes.len())
}

/// Returns whether a member stands on a square.
pub(crate) fn is_member(boxes: &[Sq], members: &[u32], square: Sq) -> bool
    requires rising { IsStrictlyIncreasing boxes.now }
    requires few { length boxes.now ≤ box_limit }
    requires listed { AreMembers boxes.now members.now }
    ensures { IsTrue result ↔ IsMember boxes.now members.now square }
{
    match boxes.binary_search(&square) {
        Ok(index) => members.binary_search(&(index as u32)).is_ok(),
        Err(_) => false,
    }
}
