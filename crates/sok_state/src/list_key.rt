//! Keys as short lists of squares.

ghost use Rattle.std.specs.Prelude.{◌<◌, ◌↔◌, IsTrue};
ghost use Rattle.sok_board.specs.Limits.{square_limit};
ghost use Rattle.sok_state.specs.PackedKeys.{IsShortList, TakesListMove, list_state};

use crate::key::Key;
use crate::packed::Packed;
use arrayvec::ArrayVec;
use sok_board::area::Sq;
use sok_board::box_set::BoxSet;
use sok_rules::fault::Memory;
use std::alloc::Global;

/// The greatest number of boxes of such a key.
pub(crate) const BOXES: usize = 16;

/// A packed `Key`: the squares of its boxes in ascending order, and the least square that the
/// player can walk to.
#[derive(PartialEq, Eq, Hash, Drop)]
pub(crate) struct ListKey {
    boxes: ArrayVec<Sq, BOXES>,
    least: Sq,
}

impl ListKey {
    /// Returns whether the key after a push is short enough for a list, too.
    pub(crate) fn takes_move(&self, from: Sq, to: Sq) -> bool
        requires fits { IsShortList self.now }
        requires to { to < square_limit }
        ensures { IsTrue result ↔ TakesListMove (list_state self.now) from to }
    {
        let boxes = self.boxes.as_slice();
        boxes.len() < BOXES || boxes.contains(&from) || boxes.contains(&to)
    }
}

impl Packed for ListKey {
    ghost use Rattle.sok_state.specs.PackedKeys.{TakesList};
    ghost use Rattle.sok_state.specs.PackedLaws.{same_list};

    ghost state_of = { list_state };

    ghost fits = { IsShortList };

    ghost takes = { TakesList };

    ghost takes_move = { TakesListMove };

    ghost tells = { same_list };

    fn of(key: &Key) -> ListKey {
        let mut boxes = ArrayVec::new();
        boxes.try_extend_from_slice(key.boxes.list()).unwrap();
        ListKey {
            boxes,
            least: key.least,
        }
    }

    fn least(&self) -> Sq {
        self.least
    }

    fn boxes(&self, alloc: Global) -> Result<BoxSet, Memory> {
        BoxSet::of(alloc, self.boxes.as_slice())
    }

    fn moved(&self, from: Sq, to: Sq, least: Sq) -> ListKey {
        let mut boxes = ArrayVec::new();
        let mut below = 0;
        for square in self.boxes.as_slice() {
            if *square != from && *square != to {
                boxes.push(*square);
                if *square < to {
                    below = boxes.len();
                }
            }
        }
        boxes.insert(below, to);
        ListKey { boxes, least }
    }
}
