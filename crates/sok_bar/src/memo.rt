//! A memo of lists of positions that were found closed.

ghost use Rattle.std.specs.Prelude.{◌≡◌, ◌↔◌, Contains, IfOk, IsTrue};
ghost use Rattle.sok_board.specs.Area.{IsAccepted, BoardView};
ghost use Rattle.sok_region.specs.Regions.{IsPlaced};
ghost use Rattle.sok_bar.specs.Memos.{IsClosedKept, KeepsClosed};
ghost use Rattle.sok_bar.specs.Patterns.{AreClosedAlone};

use crate::alone::are_closed_alone;
use crate::inners::are_same;
use sok_board::area::Sq;
use sok_board::box_set::BoxSet;
use sok_distance::setting::Setting;
use sok_entry::inners::Inners;
use sok_rules::fault::Memory;
use sok_state::key::Key;
use std::alloc::Global;

/// The most lists that are kept. They are few, since a look-up goes through all of them.
const LISTS: usize = 256;

/// The most positions that are kept, in all lists together.
const POSITIONS: usize = 65_536;

/// A state of some boxes alone, and positions that are closed under pushes from there.
#[derive(Drop)]
struct Kept {
    key: Key,
    inner: Inners,
}

impl Kept {
    /// Returns whether this is the list `inner`, kept for the state `key`.
    fn is(&self, key: &Key, inner: &Inners) -> bool
        ensures { IsTrue result ↔ (self.now ≡ record { key = key.now; inner = inner.now }) }
    {
        self.key == *key && are_same(self.inner.as_slice(), inner.as_slice())
    }
}

/// Lists of positions of boxes alone that were checked and found closed. A certificate mostly has
/// few different ones, which recur in many of its patterns; a list that is kept is not checked
/// again.
#[derive(Drop)]
pub struct Memo {
    lists: Vec<Kept>,
    /// How many more positions may be kept.
    room: usize,
}

impl Memo {
    /// Returns a memo without lists. It keeps the allocator for later ones.
    pub fn new(alloc: Global) -> Memo
        ensures { (b : BoardView) → KeepsClosed b result }
    {
        Memo {
            lists: Vec::new(alloc),
            room: POSITIONS,
        }
    }

    /// Returns whether positions of some boxes alone are closed under pushes, with the player's
    /// position among them at depth 0. A list that is not kept for this state is checked, and kept
    /// if it is closed and there is room. Errors: `Memory`.
    pub(crate) fn are_closed_alone(
        &mut self,
        alloc: Global,
        setting: &Setting<'_>,
        boxes: &BoxSet,
        player: Sq,
        inner: &Inners,
    ) -> Result<bool, Memory>
        requires accepted { IsAccepted setting.now.board.now }
        requires placed { IsPlaced setting.now.board.now boxes.now player }
        requires memo { KeepsClosed setting.now.board.now self.old }
        ensures exact { IfOk result
            (λ closed. IsTrue closed
            ↔ AreClosedAlone setting.now.board.now player boxes.now inner.now) }
        ensures memo { KeepsClosed setting.now.board.now self.new }
    {
        let key = Key::of(alloc, setting.board, boxes, player)?;
        if self.has(&key, inner) {
            return Ok(true);
        }
        if !are_closed_alone(alloc, setting, boxes, player, inner)? {
            return Ok(false);
        }
        self.keep(key, inner)?;
        Ok(true)
    }

    /// Returns whether a list is kept for a state.
    fn has(&self, key: &Key, inner: &Inners) -> bool
        ensures { IsTrue result
            ↔ Contains self.now.lists.items (record { key = key.now; inner = inner.now }) }
    {
        for kept in &self.lists {
            if kept.is(key, inner) {
                return true;
            }
        }
        false
    }

    /// Keeps a list for a state, if there is room for it.
    fn keep(&mut self, key: Key, inner: &Inners) -> Result<(), Memory>
        ensures { (b : BoardView) → IsClosedKept b (record { key = key; inner = inner.now })
            → KeepsClosed b self.old → KeepsClosed b self.new }
    {
        let Some(room) = self.room.checked_sub(inner.as_slice().len()) else {
            return Ok(());
        };
        if self.lists.len() >= LISTS {
            return Ok(());
        }
        let inner = inner.share()?;
        self.lists.push(Kept { key, inner })?;
        self.room = room;
        Ok(())
    }
}
