//! The reason that no more pushes are asked for.

ghost use Rattle.std.specs.Prelude.{IfOk, IsTrue};
ghost use Rattle.sok_bar.specs.Bars.{Barring, IsJudged};
ghost use Rattle.sok_bar.specs.Rests.{IsBarred};

use crate::bar::Bar;
use crate::rest::Rest;
use sok_board::area::Sq;
use sok_board::box_set::BoxSet;
use sok_distance::setting::Setting;
use sok_rules::fault::Memory;
use std::alloc::Global;

/// No more pushes are asked for: each solution has at least 0.
#[derive(Clone, Copy, PartialEq, Eq)]
pub struct Spent;

impl Bar for Spent {
    ghost says = { λ _. Barring.spent };

    /// Returns true if at least 0 pushes are to be shown, whatever the position, and otherwise
    /// false. It allocates nothing.
    fn holds(
        &self,
        _alloc: Global,
        setting: &Setting<'_>,
        boxes: &BoxSet,
        player: Sq,
        rest: Rest,
    ) -> Result<bool, Memory>
        ensures law { IfOk result
            (λ holds. IsTrue holds → IsBarred setting.now.board.now player boxes.now rest) }
        ensures exact { IsJudged setting.now.board.now player boxes.now Barring.spent rest result }
    {
        Ok(matches!(rest, Rest::AtLeast(0)))
    }
}
