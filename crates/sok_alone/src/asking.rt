//! Which boxes of a position are checked for a loss, and when.

ghost use Rattle.std.specs.Prelude.{◌<◌, All, Contains, IfNone, IfOk, IsTrue, OnOk, length};
ghost use Rattle.sok_board.specs.BoxSets.{put_in_order};
ghost use Rattle.sok_region.specs.Regions.{IsPlaced};
ghost use Rattle.sok_alone.specs.Asking.{MayAsk, TellsAsked};
ghost use Rattle.sok_alone.specs.Losses.{ArePairsGivenUp, ArePushed, HasRoom, IsLostBy, KeepsLosses};
ghost use Rattle.sok_alone.specs.Losses.{TellsLoss, losses_of};

use crate::choosing::chosen;
use crate::hints::{Hint, hint_of};
use crate::losses::Losses;
use sok_board::area::Sq;
use sok_board::board::Board;
use sok_board::box_set::BoxSet;
use sok_distance::distances::Distances;
use sok_distance::setting::Setting;
use sok_rules::cell::Dir;
use sok_rules::fault::Memory;
use std::alloc::Global;
use std::mem;

/// The greatest distance of boxes that are close to each other, in rows and in columns.
const REACH: u32 = 2;

/// Pairs that are not close are checked only once this many states are known. In a smaller search,
/// that takes longer than it saves.
const KNOWN: usize = 1_000;

/// A push of one of some boxes that is to be checked for a loss, when `known` states are known.
#[derive(Clone, Copy)]
pub(crate) struct Asking<'a> {
    alloc: Global,
    board: &'a Board,
    distances: &'a Distances,
    known: usize,
    boxes: &'a BoxSet,
    from: Sq,
    dir: Dir,
    to: Sq,
}

impl Asking<'_> {
    /// Returns whether the pushed box is checked together with another one: with any box once many
    /// states are known, and before that only with a box that is close to it.
    fn reaches(&self, one: Sq) -> bool
        requires to { self.now.to < length self.now.board.now.area }
        requires one { one < length self.now.board.now.area }
    {
        self.known >= KNOWN || are_close(self.board, self.to, one)
    }

    /// Lists the other boxes that are close to the pushed one, in ascending order.
    fn list_near(&self, near: &mut Vec<Sq>) -> Result<(), Memory>
        requires { ArePushed self.now.board.now self.now.boxes.now self.now.from self.now.to }
        ensures { OnOk result
            (All (λ square. square < length self.now.board.now.area) near.new.items) }
    {
        near.clear();
        for one in self.boxes.list() {
            if *one != self.from && are_close(self.board, self.to, *one) {
                near.push(*one)?;
            }
        }
        Ok(())
    }

    /// Returns whether boxes are on all of these squares after the push.
    fn leaves(&self, squares: &[Sq]) -> bool
        ensures { IsTrue result → All
            (Contains (put_in_order self.now.from self.now.to self.now.boxes.now)) squares.now }
    {
        for square in squares {
            if !self.leaves_one(*square) {
                return false;
            }
        }
        true
    }

    /// Returns whether a box is on a square after the push.
    fn leaves_one(&self, square: Sq) -> bool
        ensures { IsTrue result
            → Contains (put_in_order self.now.from self.now.to self.now.boxes.now) square }
    {
        square == self.to || square != self.from && self.boxes.has(square)
    }
}

impl Losses {
    /// Finds a loss that shows that no solution follows a push of one of the boxes, and returns its
    /// index. The loss is of the pushed box and another one, or of it and two others if the three
    /// are close: alone on the board, they can't be solved from there. Results are kept. Boxes that
    /// were not checked before are searched only if that is worth it with `known` states. If `pairs`
    /// is false, only groups of three are checked. `None` does not mean that there is no loss.
    pub fn loss_after(
        &mut self,
        alloc: Global,
        setting: &Setting<'_>,
        known: usize,
        boxes: &BoxSet,
        from: Sq,
        dir: Dir,
        to: Sq,
        pairs: bool,
    ) -> Result<Option<u32>, Memory>
        requires pushed { ArePushed setting.now.board.now boxes.now from to }
        requires losses { KeepsLosses setting.now.board.now self.old }
        ensures { IfOk result
            (TellsLoss setting.now.board.now from
            (put_in_order from to boxes.now) self.old self.new) }
    {
        let asking = Asking {
            alloc,
            board: setting.board,
            distances: setting.distances,
            known,
            boxes,
            from,
            dir,
            to,
        };
        if pairs {
            let found = self.loss_of_two(&asking)?;
            if found.is_some() {
                return Ok(found);
            }
        }
        let mut near = mem::replace(&mut self.near, Vec::new(alloc));
        asking.list_near(&mut near)?;
        let found = self.loss_of_three(&asking, &near);
        self.near = near;
        found
    }

    /// Returns the index of a loss of the pushed box and another one.
    fn loss_of_two(&mut self, asking: &Asking<'_>) -> Result<Option<u32>, Memory>
        requires { MayAsk asking.now self.old }
        ensures { IfOk result (TellsAsked asking.now self.old self.new) }
    {
        for one in asking.boxes.list() {
            if *one == asking.from || !asking.reaches(*one) {
                continue;
            }
            let found = self.ask(asking, *one, None)?;
            if found.is_some() {
                return Ok(found);
            }
        }
        Ok(None)
    }

    /// Returns the index of a loss of the pushed box and two others that are close to each other.
    /// `near` lists the boxes that are close to the pushed one.
    fn loss_of_three(&mut self, asking: &Asking<'_>, near: &[Sq]) -> Result<Option<u32>, Memory>
        requires asking { MayAsk asking.now self.old }
        requires exist { All (λ square. square < length asking.now.board.now.area) near.now }
        ensures { IfOk result (TellsAsked asking.now self.old self.new) }
    {
        for (index, one) in near.iter().enumerate() {
            for two in &near[index + 1..] {
                if !are_close(asking.board, *one, *two) {
                    continue;
                }
                let found = self.ask(asking, *one, Some(*two))?;
                if found.is_some() {
                    return Ok(found);
                }
            }
        }
        Ok(None)
    }

    /// Returns the index of a loss of the pushed box and one or two others. Uses the hint if there
    /// is one that holds. Otherwise looks the boxes up or searches them, if that is worth it.
    fn ask(&mut self, asking: &Asking<'_>, one: Sq, two: Option<Sq>) -> Result<Option<u32>, Memory>
        requires { MayAsk asking.now self.old }
        ensures { IfOk result (TellsAsked asking.now self.old self.new) }
    {
        let number = hint_of(asking.board, asking.dir, asking.to, one, two);
        let hint = self.hints.at(number);
        if let Hint::Lost(place) = hint
            && self.shows(asking, u32::from(place))
        {
            return Ok(Some(u32::from(place)));
        }
        if matches!(hint, Hint::Clear) || !self.is_worth_it(asking.board, asking.known) {
            return Ok(None);
        }
        let found = self.loss_pushed(asking, &[asking.from, one, two.unwrap_or(one)])?;
        self.hints.note(number, found);
        Ok(found)
    }

    /// Returns whether the loss at an index shows that no solution follows the push.
    fn shows(&self, asking: &Asking<'_>, place: u32) -> bool
        requires { MayAsk asking.now self.now }
        ensures { IsTrue result → IsLostBy asking.now.board.now asking.now.from
            (put_in_order asking.now.from asking.now.to asking.now.boxes.now)
            (losses_of self.now) place }
    {
        match self.loss_at(place) {
            Some(loss) => loss.region.has(asking.from) && asking.leaves(loss.key.boxes.list()),
            None => false,
        }
    }

    /// Returns the index of a loss after the push, of the boxes that are on these squares before
    /// it.
    fn loss_pushed(&mut self, asking: &Asking<'_>, squares: &[Sq]) -> Result<Option<u32>, Memory>
        requires asking { MayAsk asking.now self.old }
        requires among { Contains squares.now asking.now.from }
        ensures { IfOk result (TellsAsked asking.now self.old self.new) }
    {
        let before = chosen(asking.alloc, asking.boxes, squares)?;
        let after = before.moved(asking.alloc, asking.from, asking.to)?;
        self.loss_of(
            asking.alloc,
            &Setting {
                board: asking.board,
                distances: asking.distances,
            },
            after,
            asking.from,
        )
    }

    /// Returns the index of a loss of two of the boxes: alone on the board, they can't be solved
    /// from where the player stands. Returns None if each two of them have a solution or reach more
    /// than 200 states, or if no more losses can be kept.
    pub fn loss_among(
        &mut self,
        alloc: Global,
        setting: &Setting<'_>,
        boxes: &BoxSet,
        player: Sq,
    ) -> Result<Option<u32>, Memory>
        requires placed { IsPlaced setting.now.board.now boxes.now player }
        requires losses { KeepsLosses setting.now.board.now self.old }
        ensures tells { IfOk result
            (TellsLoss setting.now.board.now player boxes.now self.old self.new) }
        ensures none { IfOk result (λ found. IfNone found (HasRoom self.new
            → ArePairsGivenUp setting.now.board.now player boxes.now)) }
    {
        let all = boxes.list();
        for one in all {
            for other in all {
                if *other <= *one {
                    continue;
                }
                let pair = BoxSet::of(alloc, &[*one, *other])?;
                let found = self.loss_of(alloc, setting, pair, player)?;
                if found.is_some() {
                    return Ok(found);
                }
            }
        }
        Ok(None)
    }
}

/// Returns whether two boxes are close to each other.
fn are_close(board: &Board, one: Sq, other: Sq) -> bool
    requires one { one < length board.now.area }
    requires other { other < length board.now.area }
{
    let (one, other) = (board.spot(one), board.spot(other));
    one.row.abs_diff(other.row) <= REACH && one.col.abs_diff(other.col) <= REACH
}
