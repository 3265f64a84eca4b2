//! Some of the boxes of a position.

ghost use Rattle.std.specs.Prelude.{IfOk};
ghost use Rattle.sok_alone.specs.Losses.{AreChosen};

use sok_board::area::Sq;
use sok_board::box_set::BoxSet;
use sok_rules::fault::Memory;
use std::alloc::Global;

/// Returns those of the boxes that are on these squares.
pub(crate) fn chosen(alloc: Global, boxes: &BoxSet, squares: &[Sq]) -> Result<BoxSet, Memory>
    ensures { IfOk result (AreChosen boxes.now squares.now) }
{
    let mut list = Vec::new(alloc);
    let all = boxes.list();
    for square in all {
        if squares.contains(square) {
            list.push(*square)?;
        }
    }
    BoxSet::of(alloc, &list)
}
