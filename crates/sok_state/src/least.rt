//! The least square that the player can walk to.

ghost use Rattle.std.specs.Prelude.{ℕ, List, Contains};
ghost use Rattle.sok_board.specs.Area.{IsAccepted, position_of};
ghost use Rattle.sok_field.specs.Numbers.{Draws};
ghost use Rattle.sok_region.specs.Regions.{IsPlaced};
ghost use Rattle.sok_state.specs.Keys.{IsKeyOf};
ghost use Rattle.sok_state.specs.Pushes.{ReachesFrom};

use sok_board::area::Sq;
use sok_board::board::Board;
use sok_field::drawing;
use sok_field::field::Field;

/// Returns the least square that the player can walk to from `player` over the squares in `free`,
/// which the boxes leave free. `seen` is overwritten with all squares that he reaches.
pub(crate) fn least_square(board: &Board, free: &Field, seen: &mut Field, player: Sq) -> Sq
    requires accepted { IsAccepted board.now }
    requires drawn { (boxes : List ℕ) × IsPlaced board.now boxes player
        × Draws board.now (λ n. Contains boxes n → ⊥) free.now }
    ensures key { (boxes : List ℕ) → IsPlaced board.now boxes player
        → Draws board.now (λ n. Contains boxes n → ⊥) free.now
        → IsKeyOf board.now (position_of board.now player boxes)
        (record { boxes = boxes; least = result }) }
    ensures reached { (boxes : List ℕ) → IsPlaced board.now boxes player
        → Draws board.now (λ n. Contains boxes n → ⊥) free.now
        → ReachesFrom board.now player boxes seen.new }
{
    drawing::flood_from(seen, free, board, player);
    match seen.first() {
        Some(spot) => board.square(spot).unwrap(),
        None => unreachable!(),
    }
}
