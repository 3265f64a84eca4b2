//! The trait of the reasons for barring a position.

ghost use Rattle.std.specs.Prelude.{IfOk, IsTrue};
ghost use Rattle.sok_region.specs.Regions.{IsPlaced};
ghost use Rattle.sok_bar.specs.Bars.{Barring, IsJudged};
ghost use Rattle.sok_bar.specs.Rests.{IsBarred};

use crate::rest::Rest;
use sok_board::area::Sq;
use sok_board::box_set::BoxSet;
use sok_distance::setting::Setting;
use sok_rules::fault::Memory;
use std::alloc::Global;

/// A reason for barring a position, that is, for not going on from it.
pub trait Bar {
    /// What it claims, with its numbers.
    ghost says: { Self → Barring };

    /// Returns whether its claim is true of a position, which is given by the squares of its boxes
    /// and of its player. `setting` has the board with its distances. If it returns true, `rest` is
    /// shown for each position of the same state. Errors: `Memory`.
    fn holds(
        &self,
        alloc: Global,
        setting: &Setting<'_>,
        boxes: &BoxSet,
        player: Sq,
        rest: Rest,
    ) -> Result<bool, Memory>
        requires placed { IsPlaced setting.now.board.now boxes.now player }
        ensures law { IfOk result
            (λ holds. IsTrue holds → IsBarred setting.now.board.now player boxes.now rest) }
        ensures exact { IsJudged setting.now.board.now player boxes.now
            (says self.now) rest result };
}
