//! Which numbers make a position, and its state.

ghost use Rattle.std.specs.Prelude.{◌≡◌, ◌<◌, ◌≤◌, ◌↔◌, IsTrue, IfOk, MatchOption, All, length};
ghost use Rattle.std.specs.List.Sorted.{IsStrictlyIncreasing};
ghost use Rattle.sok_board.specs.Area.{IsAccepted};
ghost use Rattle.sok_board.specs.Limits.{box_limit, square_limit};
ghost use Rattle.sok_closed.specs.Placing.{IsLocated};
ghost use Rattle.sok_closed.specs.Rolls.{IsPosition, Node};
ghost use Rattle.sok_region.specs.Regions.{IsPlaced};
ghost use Rattle.sok_state.specs.Normalizers.{Normalizes};

use sok_board::area::Sq;
use sok_board::board::Board;
use sok_board::box_set::BoxSet;
use sok_rules::fault::Memory;
use sok_state::key::Key;
use sok_state::normalizer::Normalizer;
use std::alloc::Global;

/// The boxes and the state of a position.
#[derive(Drop)]
pub struct Located {
    pub boxes: BoxSet,
    pub key: Key,
}

/// Returns the boxes and the state of the position with this player and these boxes, by numbers of
/// squares. None if they make no position with `count` boxes. The normalizer is the one of the
/// board.
pub fn locate(
    alloc: Global,
    board: &Board,
    normalizer: &mut Normalizer,
    count: usize,
    player: u32,
    boxes: &[u32],
) -> Result<Option<Located>, Memory>
    requires accepted { IsAccepted board.now }
    requires normalizes { Normalizes board.now normalizer.old }
    requires few { count ≤ box_limit }
    ensures found { (n : Node) → n.player ≡ player → n.boxes ≡ boxes.now
        → IfOk result (λ found. MatchOption found (IsPosition board.now count n → ⊥)
        (IsLocated board.now count n)) }
    ensures normalizes { Normalizes board.now normalizer.new }
{
    if !is_position(board, count, player, boxes) {
        return Ok(None);
    }
    let boxes = BoxSet::numbered(alloc, boxes)?;
    let key = normalizer.key(board, boxes.copy(alloc)?, player as Sq);
    Ok(Some(Located { boxes, key }))
}

/// Returns whether the player and the boxes make a position with `count` boxes.
fn is_position(board: &Board, count: usize, player: u32, boxes: &[u32]) -> bool
    ensures { IsTrue result
        ↔ (IsPlaced board.now boxes.now player × (length boxes.now ≡ count)) }
{
    let squares = board.squares();
    boxes.len() == count
        && (player as usize) < squares
        && are_below(boxes, squares)
        && rises(boxes)
        && !boxes.contains(&player)
}

/// Returns whether all numbers are below a limit.
fn are_below(numbers: &[u32], limit: usize) -> bool
    ensures { IsTrue result ↔ All (λ number. number < limit) numbers.now }
{
    numbers.iter().all(|number| (*number as usize) < limit)
}

/// Returns whether each number is greater than the one before.
pub fn rises(numbers: &[u32]) -> bool
    ensures { IsTrue result ↔ IsStrictlyIncreasing numbers.now }
{
    for i in 1..numbers.len() {
        if numbers[i - 1] >= numbers[i] {
            return false;
        }
    }
    true
}
