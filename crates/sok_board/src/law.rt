//! Laws of levels and their areas: play stays in the area, and a level has at most one fault.

ghost use Rattle.std.specs.Prelude.{◌≡◌, ◌≢◌};
ghost use Rattle.sok_rules.specs.Squares.{Rows};
ghost use Rattle.sok_board.specs.Area.{IsAccepted, IsArea, BoardView};
ghost use Rattle.sok_board.specs.Confined.{ConfinesPlay, KeepsDecorations};
ghost use Rattle.sok_board.specs.Refusals.{IsAcceptable, IsRefused};
ghost use Rattle.sok_board.specs.declared.fault.BoardFault.{BoardFault};
ghost use Rattle.sok_board.specs.declared.fault.BoardFault.TheVariants.{Memory};

/// No letters lead the player out of the area, and none move a box that stands outside it.
pub fn play_is_confined()
    ensures confined { (rows : Rows) → ConfinesPlay rows }
    ensures decorations { (b : BoardView) → IsArea b.rows b.area → KeepsDecorations b }
{}

/// Apart from `Memory`, a level is refused for at most one reason, and no refused level is
/// accepted. An accepted level has one area.
pub fn levels_have_one_refusal()
    ensures one { (rows : Rows) (f g : BoardFault) → f ≢ Memory → g ≢ Memory
        → IsRefused rows f → IsRefused rows g → f ≡ g }
    ensures accepted { (rows : Rows) (f : BoardFault) → f ≢ Memory
        → IsRefused rows f → IsAcceptable rows → ⊥ }
    ensures area { (b c : BoardView) → b.rows ≡ c.rows → IsAccepted b → IsAccepted c → b ≡ c }
{}
