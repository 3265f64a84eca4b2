//! A law of pushes by the rules.

ghost use Rattle.sok_board.specs.Area.{IsArea, BoardView};
ghost use Rattle.sok_distance.specs.Pushes.{PushesAlone, PushesKnownBoxes};

/// Each push by the rules, with the player in the area, moves its box as a push without other boxes
/// would. If the boxes are known by their numbers, the pushed box is one of them.
pub fn pushes_are_lone()
    ensures alone { (b : BoardView) → IsArea b.rows b.area → PushesAlone b }
    ensures known { (b : BoardView) → IsArea b.rows b.area → PushesKnownBoxes b }
{}
