//! Whether some boxes alone are soon solved. This is a guess: one that misses a solution only costs
//! time.

ghost use Rattle.std.specs.Prelude.{◌<◌, All, IfOk, IfSome, IsTrue, List, OnOk, length};
ghost use Rattle.sok_rules.specs.Play.{SolvesFrom};
ghost use Rattle.sok_rules.specs.declared.cell.Dir.{Dir};
ghost use Rattle.sok_state.specs.Keys.{IsKey, key_position};
ghost use Rattle.sok_state.specs.Pushes.{IsLegal};
ghost use Rattle.sok_alone.specs.Workspace.{IsWorkspace};

use crate::workspace::Workspace;
use sok_board::area::Sq;
use sok_board::box_set::BoxSet;
use sok_closed::solved::is_solved;
use sok_distance::setting::Setting;
use sok_rules::fault::Memory;
use sok_state::key::Key;
use sok_state::push::Push;
use std::alloc::Global;

/// Tries to solve boxes alone on the board by hill climbing: each push brings its box nearer to a
/// free goal. Makes at most as many pushes as the board has squares. Returns whether all boxes come
/// to goals.
pub(crate) fn are_soon_solved(
    alloc: Global,
    setting: &Setting<'_>,
    workspace: &mut Workspace,
    start: &Key,
) -> Result<bool, Memory>
    requires workspace { IsWorkspace setting.now.board.now workspace.old }
    requires state { IsKey setting.now.board.now start.now }
    ensures workspace { OnOk result (IsWorkspace setting.now.board.now workspace.new) }
    ensures solved { IfOk result (λ solved. IsTrue solved → (w : List Dir)
        × SolvesFrom setting.now.board.now.rows (key_position setting.now.board.now start.now) w) }
{
    // Called for its clause that the boxes are few.
    let _boxes = start.boxes.list();
    let mut key = start.copy(alloc)?;
    workspace.expansion.open(setting.board, &key)?;
    for _ in 0..setting.board.squares() {
        if is_solved(setting.board, &key.boxes) {
            return Ok(true);
        }
        let Some(push) = nearer(setting, &key, &workspace.expansion.pushes) else {
            return Ok(false);
        };
        key = workspace
            .expansion
            .follow(alloc, setting.board, &key, push)?;
    }
    Ok(false)
}

/// Returns the first of these pushes that brings its box nearer to a free goal.
fn nearer(setting: &Setting<'_>, key: &Key, pushes: &[Push]) -> Option<Push>
    requires legal { All (IsLegal setting.now.board.now key.now) pushes.now }
    ensures { IfSome result (IsLegal setting.now.board.now key.now) }
{
    for push in pushes {
        if is_nearer(setting, &key.boxes, *push) {
            return Some(*push);
        }
    }
    None
}

/// Returns whether a push brings its box nearer to a free goal.
fn is_nearer(setting: &Setting<'_>, boxes: &BoxSet, push: Push) -> bool
    requires exists { push.from < length setting.now.board.now.area }
{
    match setting.board.neighbour(push.from, push.dir) {
        Some(to) => {
            way(setting, boxes, push.from, to) < way(setting, boxes, push.from, push.from)
        }
        None => false,
    }
}

/// Returns the fewest pushes from `square` to a goal without a box, not counting the box on
/// `moved`. If no pushes lead to one, returns `u16::MAX`.
fn way(setting: &Setting<'_>, boxes: &BoxSet, moved: Sq, square: Sq) -> u16
    requires exists { square < length setting.now.board.now.area }
{
    let mut least = u16::MAX;
    for (index, goal) in setting.board.goals().iter().enumerate() {
        if let Some(pushes) = setting.distances.dist(index, square)
            && pushes < least
            && (*goal == moved || !boxes.has(*goal))
        {
            least = pushes;
        }
    }
    least
}
