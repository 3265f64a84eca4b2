//! Laws of positions that differ only by walking.

ghost use Rattle.sok_rules.specs.Squares.{Rows};
ghost use Rattle.sok_rules.specs.Levels.{IsProper};
ghost use Rattle.sok_board.specs.Area.{BoardView, IsArea};
ghost use Rattle.sok_region.specs.States.{IsReflexive, IsTransitive, IsSymmetric, KeepsBoxes};
ghost use Rattle.sok_region.specs.States.{KeepsNumbers};

/// Being the same state is reflexive and transitive. It is symmetric if the player stands on a
/// square of the area without a box, since walking back undoes walking.
pub fn states_are_classes()
    ensures reflexive { (rows : Rows) → IsReflexive rows }
    ensures transitive { (rows : Rows) → IsTransitive rows }
    ensures symmetric { (rows : Rows) → IsProper rows → IsSymmetric rows }
{}

/// Letters without a push leave the boxes where they are.
pub fn walks_keep_boxes()
    ensures { (rows : Rows) → KeepsBoxes rows }
{}

/// Letters without a push keep the player on squares of the area without a box.
pub fn walks_keep_numbers()
    ensures { (b : BoardView) → IsProper b.rows → IsArea b.rows b.area → KeepsNumbers b }
{}
