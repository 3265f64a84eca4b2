//! Patterns of two boxes of a position.

ghost use Rattle.std.specs.Prelude.{◌≡◌, ◌<◌, ◌≤◌, ◌∷◌, [], All, Contains, IfOk, IfNone, IfSome, Some, length, slice_get};
ghost use Rattle.std.specs.List.Sorted.{IsStrictlyIncreasing};
ghost use Rattle.sok_board.specs.Area.{position_of};
ghost use Rattle.sok_board.specs.Limits.{box_limit};
ghost use Rattle.sok_entry.specs.Text.{FitsInner};
ghost use Rattle.sok_bar.specs.Patterns.{IsPattern};
ghost use Rattle.sok_alone.specs.Finding.{AreMembersAt};
ghost use Rattle.sok_alone.specs.GivenUp.{IsGivenUp};

use crate::closing::close_alone;
use crate::found::FoundPattern;
use sok_board::area::Sq;
use sok_board::box_set::BoxSet;
use sok_distance::setting::Setting;
use sok_entry::entry::Numbers;
use sok_rules::fault::Memory;
use std::alloc::Global;

/// Finds the pattern of two boxes that can't be solved alone on the board from where the player
/// stands (a deadlock of two boxes; Sokoban Wiki, "Deadlocks"). It has at most `limit` positions.
/// Returns None if the boxes have a solution, or if more than `limit` of their states are reached.
pub fn find_pattern(
    alloc: Global,
    setting: &Setting<'_>,
    boxes: &BoxSet,
    player: Sq,
    first: Sq,
    second: Sq,
    limit: u32,
) -> Result<Option<FoundPattern>, Memory>
    requires boxes_exist { All (λ square. square < length setting.now.board.now.area) boxes.now }
    requires player_exists { player < length setting.now.board.now.area }
    requires player_free { Contains boxes.now player → ⊥ }
    requires ordered { first < second }
    requires first_box { Contains boxes.now first }
    requires second_box { Contains boxes.now second }
    requires positive { 0 < limit }
    ensures holds { IfOk result (λ found. IfSome found
        (λ pattern. IsPattern setting.now.board.now player boxes.now pattern.members
        pattern.inner)) }
    ensures members { IfOk result (λ found. IfSome found
        (λ pattern. AreMembersAt boxes.now (first ∷ second ∷ []) pattern.members)) }
    ensures few { IfOk result (λ found. IfSome found
        (λ pattern. length pattern.inner ≤ limit)) }
    ensures fit { IfOk result (λ found. IfSome found (λ pattern. All FitsInner pattern.inner)) }
    ensures none { IfOk result (λ found. IfNone found (IsGivenUp setting.now.board.now.rows
        (position_of setting.now.board.now player (first ∷ second ∷ [])) limit)) }
{
    let pair = BoxSet::of(alloc, &[first, second])?;
    let Some(inner) = close_alone(alloc, setting, &pair, player, limit)? else {
        return Ok(None);
    };
    let members = members_of(alloc, boxes.list(), pair.list())?;
    Ok(Some(FoundPattern { members, inner }))
}

/// Returns the indices of the boxes on these squares in a list of boxes.
pub(crate) fn members_of(alloc: Global, boxes: &[Sq], squares: &[Sq]) -> Result<Numbers, Memory>
    requires rising { IsStrictlyIncreasing boxes.now }
    requires few { length boxes.now ≤ box_limit }
    requires in_order { IsStrictlyIncreasing squares.now }
    requires among { All (Contains boxes.now) squares.now }
    ensures { IfOk result (AreMembersAt boxes.now squares.now) }
{
    let mut members = Vec::with_capacity(alloc, squares.len())?;
    for square in squares {
        members.push(place_of(boxes, *square))?;
    }
    Ok(Numbers::from(members))
}

/// Returns the index of a box in a list of boxes.
fn place_of(boxes: &[Sq], square: Sq) -> u32
    requires rising { IsStrictlyIncreasing boxes.now }
    requires few { length boxes.now ≤ box_limit }
    requires among { Contains boxes.now square }
    ensures { slice_get boxes.now result ≡ Some square }
{
    match boxes.binary_search(&square) {
        Ok(place) => place as u32,
        Err(_) => unreachable!(),
    }
}
