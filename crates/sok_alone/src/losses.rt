//! Losses: some boxes that can't be solved alone on the board. They are kept for a whole search.

ghost use Rattle.std.specs.Prelude.{ℕ, ◌≡◌, ◌≤◌, All, IfNone, IfOk, IfSome, OnOk, Some, length, slice_get};
ghost use Rattle.sok_bar.specs.Patterns.{IsPattern};
ghost use Rattle.sok_board.specs.Area.{BoardView, position_of};
ghost use Rattle.sok_entry.specs.Text.{FitsInner};
ghost use Rattle.sok_region.specs.Regions.{IsPlaced};
ghost use Rattle.sok_state.specs.Keys.{IsKey, key_position};
ghost use Rattle.sok_alone.specs.GivenUp.{IsGivenUp};
ghost use Rattle.sok_alone.specs.Losses.{AddsLosses, HasKeyAt, HasRoom, IsLostBy, IsNumbered};
ghost use Rattle.sok_alone.specs.Losses.{KeepsLosses, TellsLoss, loss_limit, losses_of};

use crate::closing::close_unless;
use crate::finding::members_of;
use crate::found::FoundPattern;
use crate::hints::Hints;
use crate::probing::are_soon_solved;
use crate::workspace::Workspace;
use sok_board::area::Sq;
use sok_board::board::Board;
use sok_board::box_set::BoxSet;
use sok_distance::setting::Setting;
use sok_entry::inners::Inners;
use sok_region::region::Region;
use sok_rules::fault::Memory;
use sok_state::key::Key;
use sok_state::table::Table;
use std::alloc::Global;

/// The greatest number of states in one search of some boxes alone.
const STATES: u32 = 200;

/// How many searches there may be in addition to one for each known state. So with many boxes on a
/// large board they take no longer than the states themselves.
const SEARCHES: usize = 4_096;

/// The greatest product of these searches and the squares of the board. So there are fewer searches
/// on boards of more than 1,024 squares.
const SQUARES: usize = 4_194_304;

/// The greatest number of losses, as many as a hint can name.
const LOSSES: usize = 65_536;

/// A state of some boxes alone that has no solution, the region of the player in it, and positions
/// that show it.
#[derive(Drop)]
pub struct Loss {
    pub key: Key,
    pub region: Region,
    pub inner: Inners,
}

/// What is known of groups of two or three boxes: which of their states were checked, and the
/// losses among them.
#[derive(Drop)]
pub struct Losses {
    /// Pushes after which no loss is known, or which one.
    pub(crate) hints: Hints,
    /// The states that were checked. The depth of a state is 0 if it has no loss, otherwise one
    /// more than the index of its loss.
    asked: Table,
    losses: Vec<Loss>,
    /// The boxes that are close to the pushed one: a buffer that `loss_after` reuses.
    pub(crate) near: Vec<Sq>,
    workspace: Workspace,
}

impl Losses {
    /// Returns an empty collection for a board.
    pub fn new(alloc: Global, board: &Board) -> Result<Losses, Memory>
        ensures { IfOk result (KeepsLosses board.now) }
    {
        let squares = board.squares();
        Ok(Losses {
            hints: Hints::new(alloc, squares)?,
            asked: Table::new(alloc, squares),
            losses: Vec::new(alloc),
            near: Vec::new(alloc),
            workspace: Workspace::new(alloc, board),
        })
    }

    /// Frees the losses.
    pub fn let_go(self) {
        self.asked.let_go();
    }

    /// Returns the loss at an index, as a pattern of some of these boxes.
    pub fn pattern_at(
        &self,
        alloc: Global,
        boxes: &BoxSet,
        place: u32,
    ) -> Result<FoundPattern, Memory>
        requires lost { (b : BoardView) × (player : ℕ)
            × IsLostBy b player boxes.now (losses_of self.now) place }
        ensures holds { (b : BoardView) (player : ℕ)
            → IsLostBy b player boxes.now (losses_of self.now) place → IfOk result
            (λ pattern. IsPattern b player boxes.now pattern.members pattern.inner) }
        ensures few { IfOk result (λ pattern. length pattern.inner ≤ loss_limit) }
        ensures fit { IfOk result (λ pattern. All FitsInner pattern.inner) }
    {
        let loss = &self.losses[place as usize];
        let members = members_of(alloc, boxes.list(), loss.key.boxes.list())?;
        let inner = loss.inner.share()?;
        Ok(FoundPattern { members, inner })
    }

    /// Returns the loss at an index, if there is one.
    pub(crate) fn loss_at(&self, place: u32) -> Option<&Loss>
        ensures { IfSome result (λ loss. slice_get (losses_of self.now) place ≡ Some loss.now) }
    {
        self.losses.get(place as usize)
    }

    /// Returns whether boxes that were not checked yet may be searched when `known` states are
    /// known.
    pub(crate) fn is_worth_it(&self, board: &Board, known: usize) -> bool {
        let searches = SEARCHES.min(SQUARES / board.squares().max(1));
        self.asked.len().saturating_sub(searches) <= known
    }

    /// Returns the index of a loss of these boxes alone, from where the player stands. Returns None
    /// if they have a solution or reach more than 200 states, or if no more losses can be kept.
    pub(crate) fn loss_of(
        &mut self,
        alloc: Global,
        setting: &Setting<'_>,
        boxes: BoxSet,
        player: Sq,
    ) -> Result<Option<u32>, Memory>
        requires placed { IsPlaced setting.now.board.now boxes player }
        requires losses { KeepsLosses setting.now.board.now self.old }
        ensures tells { IfOk result
            (TellsLoss setting.now.board.now player boxes self.old self.new) }
        ensures none { IfOk result (λ found. IfNone found (HasRoom self.new
            → IsGivenUp setting.now.board.now.rows
            (position_of setting.now.board.now player boxes) loss_limit)) }
    {
        let key = self.workspace.normalizer.key(setting.board, boxes, player);
        self.recall(alloc, setting, &key)
    }

    /// Returns the index of the loss of a state of boxes alone. If the state was not checked yet,
    /// it is searched, and the result is kept. Once no more losses can be kept, nothing is searched.
    fn recall(
        &mut self,
        alloc: Global,
        setting: &Setting<'_>,
        key: &Key,
    ) -> Result<Option<u32>, Memory>
        requires state { IsKey setting.now.board.now key.now }
        requires losses { KeepsLosses setting.now.board.now self.old }
        ensures more { OnOk result (AddsLosses setting.now.board.now self.old self.new) }
        ensures there { IfOk result (λ found. IfSome found
            (λ place. HasKeyAt (losses_of self.new) place key.now)) }
        ensures none { IfOk result (λ found. IfNone found (HasRoom self.new
            → IsGivenUp setting.now.board.now.rows
            (key_position setting.now.board.now key.now) loss_limit)) }
    {
        if let Some(index) = self.asked.get(key) {
            return Ok(self.asked.depth(index).checked_sub(1));
        }
        if self.losses.len() >= LOSSES {
            return Ok(None);
        }
        let number = self.find(alloc, setting, key)?;
        let (_index, _is_new) = self.asked.insert(key, number)?;
        Ok(number.checked_sub(1))
    }

    /// Searches a state of boxes alone, unless they are soon solved. The search stops at a state
    /// that was checked and has no loss. If a loss is found, it is appended, and its number from 1
    /// is returned; otherwise 0.
    fn find(&mut self, alloc: Global, setting: &Setting<'_>, key: &Key) -> Result<u32, Memory>
        requires state { IsKey setting.now.board.now key.now }
        requires losses { KeepsLosses setting.now.board.now self.old }
        requires room { HasRoom self.old }
        ensures more { OnOk result (AddsLosses setting.now.board.now self.old self.new) }
        ensures asked { self.new.asked ≡ self.old.asked }
        ensures number { IfOk result
            (IsNumbered setting.now.board.now (losses_of self.new) key.now) }
    {
        if are_soon_solved(alloc, setting, &mut self.workspace, key)? {
            return Ok(0);
        }
        let found = close_unless(
            alloc,
            setting,
            &self.asked,
            &mut self.workspace,
            key,
            STATES,
        )?;
        let Some(inner) = found else {
            return Ok(0);
        };
        let region = Region::of(alloc, setting.board, &key.boxes, key.least)?;
        let key = key.copy(alloc)?;
        self.losses.push(Loss { key, region, inner })?;
        Ok(self.losses.len() as u32)
    }
}
