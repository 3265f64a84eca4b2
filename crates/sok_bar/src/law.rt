//! The law of reasons.

ghost use Rattle.sok_bar.specs.Bars.{ReasonsBar};
ghost use Rattle.sok_board.specs.Area.{IsAccepted, BoardView};

/// If a reason's claim is true of a position, then what is still to be shown is true of it, and of
/// each other position of the same state. Prices bound the pushes from below, and a position with a
/// crowd or a jam has no solution. Boxes and player stand on squares of their own.
pub fn reasons_bar()
    ensures { (b : BoardView) → IsAccepted b → ReasonsBar b }
{}
