//! Boxes that fence off a corral: which boxes are tried. `testing` says whether they do.

ghost use Rattle.std.specs.Prelude.{◌≡◌, ◌<◌, IfOk, IfSome, IsTrue, OnOk, All, length};
ghost use Rattle.sok_board.specs.Area.{IsAccepted};
ghost use Rattle.sok_state.specs.declared.key.Key.{Key};
ghost use Rattle.sok_state.specs.Keys.{IsKey};
ghost use Rattle.sok_state.specs.Pushes.{IsLegal, IsOpened};
ghost use Rattle.sok_corral.specs.Fences.{IsFence};
ghost use Rattle.sok_corral.specs.Fencing.{IsFenceScratch};

use crate::fencing::FenceScratch;
use crate::sets::has;
use crate::testing::{DIRS, Finding, is_astray, look};
use sok_board::area::Sq;
use sok_board::board::Board;
use sok_distance::setting::Setting;
use sok_field::drawing;
use sok_field::field::{self, Field};
use sok_region::layout::put;
use sok_rules::cell::Spot;
use sok_rules::fault::Memory;
use sok_state::key::Key;
use sok_state::push::Push;
use sok_state::scene::Scene;
use std::mem;

/// The maximum number of boxes of a fence. Larger ones are rare, and looking for them takes long.
const FENCE_BOXES: usize = 8;

/// How often boxes are added to a fence before it is given up.
const ROUNDS: usize = 4;

/// Boxes that are collected to be a fence, and what is known of the state.
#[derive(Drop)]
pub(crate) struct Candidate {
    /// The squares of the boxes.
    chosen: Field,
    /// How many they are.
    count: usize,
    /// The boxes that can be in no fence of the state.
    loose: Field,
    /// The part of the area that was flooded last.
    part: Field,
    /// All parts that were flooded for the state.
    parts: Field,
}

/// What happens to a fence when boxes are added.
#[derive(Clone, Copy)]
enum Growth {
    /// It has more boxes.
    Grown,
    /// It has them all already.
    Same,
    /// One of them can be in no fence.
    Loose,
}

/// Looks for fences whose boxes have fewer pushes than the state. Returns whether there is one, and
/// leaves the boxes of the one with the fewest pushes in `scratch.best`.
pub(crate) fn guess(
    scratch: &mut FenceScratch,
    setting: &Setting<'_>,
    key: &Key,
    scene: &Scene,
    pushes: &[Push],
) -> Result<bool, Memory>
    requires accepted { IsAccepted setting.now.board.now }
    requires state { IsKey setting.now.board.now key.now }
    requires opened { IsOpened setting.now.board.now key.now scene.now }
    requires ready { IsFenceScratch setting.now.board.now scratch.old }
    requires legal { All (IsLegal setting.now.board.now key.now) pushes.now }
    ensures ready { OnOk result (IsFenceScratch setting.now.board.now scratch.new) }
    ensures fence { IfOk result (λ found. IsTrue found
        → IsFence setting.now.board.now key.now.least key.now.boxes scratch.new.best.items) }
{
    let mut fewest = pushes.len();
    scratch.candidate.begin(setting, scene, pushes);
    for from in key.boxes.list() {
        let Some(start) = scratch.candidate.start_beside(setting.board, scene, *from) else {
            continue;
        };
        if !scratch.patience.lets(start) {
            continue;
        }
        let found = guess_around(scratch, setting, key, scene, pushes, start, fewest)?;
        if let Some(fewer) = found {
            fewest = fewer;
            mem::swap(&mut scratch.best, &mut scratch.lone.boxes);
            scratch.patience.regain(start);
        }
    }
    Ok(fewest < pushes.len())
}

/// Looks for a fence around the part of the area that has a square. If its boxes have fewer pushes than
/// `fewest`, returns how many, and leaves the boxes in `scratch.lone`.
fn guess_around(
    scratch: &mut FenceScratch,
    setting: &Setting<'_>,
    key: &Key,
    scene: &Scene,
    pushes: &[Push],
    start: Sq,
    fewest: usize,
) -> Result<Option<usize>, Memory>
    requires accepted { IsAccepted setting.now.board.now }
    requires state { IsKey setting.now.board.now key.now }
    requires opened { IsOpened setting.now.board.now key.now scene.now }
    requires ready { IsFenceScratch setting.now.board.now scratch.old }
    requires legal { All (IsLegal setting.now.board.now key.now) pushes.now }
    requires exists { start < length setting.now.board.now.area }
    ensures ready { OnOk result (IsFenceScratch setting.now.board.now scratch.new) }
    ensures best { scratch.new.best ≡ scratch.old.best }
    ensures fence { IfOk result (λ found. IfSome found (λ _.
        IsFence setting.now.board.now key.now.least key.now.boxes scratch.new.lone.boxes.items)) }
{
    let boxes = key.boxes.list();
    scratch.candidate.clear();
    let mut growth = scratch.candidate.shut(setting.board, boxes, scene, start);
    'rounds: for _ in 0..ROUNDS {
        if !matches!(growth, Growth::Grown) || scratch.candidate.count > FENCE_BOXES {
            return Ok(None);
        }
        let count = count(setting.board, &scratch.candidate.chosen, pushes);
        if count >= fewest {
            return Ok(None);
        }
        let (lone, layout) = (&mut scratch.lone, &mut scratch.layout);
        lone.lay(setting.board, key, &scratch.candidate.chosen, layout)?;
        match look(setting, scene, lone, layout) {
            Finding::Shut => {
                if !is_astray(setting.board, boxes, &scratch.lone.reached) {
                    return Ok(None);
                }
                return Ok(Some(count));
            }
            Finding::Ajar(first, second) => {
                growth = scratch
                    .candidate
                    .grow(setting.board, boxes, scene, first, second);
            }
        }
    }
    Ok(None)
}

/// Returns how many pushes are those of boxes in a set.
fn count(board: &Board, boxes: &Field, pushes: &[Push]) -> usize
    requires accepted { IsAccepted board.now }
    requires legal { (key : Key) × All (IsLegal board.now key) pushes.now }
{
    let mut count = 0;
    for push in pushes {
        if has(board, boxes, push.from) {
            count += 1;
        }
    }
    count
}

impl Candidate {
    /// Makes an empty candidate.
    pub(crate) fn new() -> Candidate {
        Candidate {
            chosen: Field::new(),
            count: 0,
            loose: Field::new(),
            part: Field::new(),
            parts: Field::new(),
        }
    }

    /// Begins with a state that has these pushes. A box that can be pushed to a square that the
    /// player reaches is taken for no fence, unless that square is stuck.
    fn begin(&mut self, setting: &Setting<'_>, scene: &Scene, pushes: &[Push])
        requires accepted { IsAccepted setting.now.board.now }
        requires legal { (key : Key) × All (IsLegal setting.now.board.now key) pushes.now }
    {
        let board = setting.board;
        self.parts.clear();
        self.loose.clear();
        for push in pushes {
            if let Some(to) = board.neighbour(push.from, push.dir)
                && has(board, &scene.reached, to)
                && !setting.distances.stuck(to)
            {
                put(&mut self.loose, board, push.from);
            }
        }
    }

    /// Removes the boxes.
    fn clear(&mut self) {
        self.chosen.clear();
        self.count = 0;
    }

    /// Returns a square beside a box that may be in a fence: it is free, the player can't reach it,
    /// and it is in no part that was flooded for the state.
    fn start_beside(&self, board: &Board, scene: &Scene, square: Sq) -> Option<Sq>
        requires accepted { IsAccepted board.now }
        requires exists { square < length board.now.area }
        ensures { IfSome result (λ start. start < length board.now.area) }
    {
        if has(board, &self.loose, square) {
            return None;
        }
        for dir in DIRS {
            if let Some(start) = board.neighbour(square, dir)
                && !has(board, &scene.reached, start)
                && has(board, scene.layout.free(), start)
                && !has(board, &self.parts, start)
            {
                return Some(start);
            }
        }
        None
    }

    /// Adds the boxes that shut the player out from a square, or else those of another one.
    fn grow(&mut self, board: &Board, boxes: &[Sq], scene: &Scene, first: Sq, second: Sq) -> Growth
        requires accepted { IsAccepted board.now }
        requires exist { All (λ n. n < length board.now.area) boxes.now }
        requires first { first < length board.now.area }
        requires second { second < length board.now.area }
    {
        let growth = self.shut(board, boxes, scene, first);
        if second == first || !matches!(growth, Growth::Same) {
            return growth;
        }
        self.shut(board, boxes, scene, second)
    }

    /// Adds the boxes that shut the player out from a square: the one there, or those beside the part
    /// of the area that has it.
    fn shut(&mut self, board: &Board, boxes: &[Sq], scene: &Scene, square: Sq) -> Growth
        requires accepted { IsAccepted board.now }
        requires exist { All (λ n. n < length board.now.area) boxes.now }
        requires exists { square < length board.now.area }
    {
        let free = scene.layout.free();
        if !has(board, free, square) {
            return self.add(board, square);
        }
        drawing::flood_from(&mut self.part, free, board, square);
        self.parts.join(&self.part);
        let mut growth = Growth::Same;
        for one in boxes {
            if self.is_beside(board, *one) {
                match self.add(board, *one) {
                    Growth::Same => {}
                    Growth::Loose => return Growth::Loose,
                    Growth::Grown => growth = Growth::Grown,
                }
            }
        }
        growth
    }

    /// Adds a box, unless it is there or in no fence.
    fn add(&mut self, board: &Board, square: Sq) -> Growth
        requires accepted { IsAccepted board.now }
        requires exists { square < length board.now.area }
    {
        if has(board, &self.loose, square) {
            return Growth::Loose;
        }
        if has(board, &self.chosen, square) {
            return Growth::Same;
        }
        put(&mut self.chosen, board, square);
        self.count = self.count.saturating_add(1);
        Growth::Grown
    }

    /// Returns whether a box is beside the part.
    fn is_beside(&self, board: &Board, square: Sq) -> bool
        requires accepted { IsAccepted board.now }
        requires exists { square < length board.now.area }
    {
        let Spot { row, col } = board.spot(square);
        self.is_in_part(row, col.wrapping_sub(1))
            || self.is_in_part(row.wrapping_sub(1), col)
            || self.is_in_part(row, col.wrapping_add(1))
            || self.is_in_part(row.wrapping_add(1), col)
    }

    /// Returns whether the part has the square in this row and column.
    fn is_in_part(&self, row: u32, col: u32) -> bool {
        col < field::COLUMNS && self.part.has(Spot { row, col })
    }
}
