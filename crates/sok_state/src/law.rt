//! A law of keys.

ghost use Rattle.sok_rules.specs.Levels.{IsProper};
ghost use Rattle.sok_board.specs.Area.{IsArea, BoardView};
ghost use Rattle.sok_state.specs.Keys.{TellsStates};

/// Positions with their boxes and player on squares of the area are the same state exactly if their
/// keys are equal.
pub fn keys_tell_states()
    ensures { (b : BoardView) → IsArea b.rows b.area → IsProper b.rows → TellsStates b }
{}
