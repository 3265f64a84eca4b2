//! The replay of a list of letters.

ghost use Rattle.std.specs.Prelude.{MatchResult};

use crate::cell::Dir;
use crate::fault::PlayFault;
use crate::level::Level;
use crate::scene::Scene;
use std::alloc::Global;

/// The result of a list of letters that was played to its end.
#[derive(Clone, Copy, PartialEq, Eq)]
pub struct Tally {
    /// Whether all boxes stand on goals at the end.
    pub solved: bool,
    /// How many letters pushed a box.
    pub pushes: u64,
    /// How many letters there were, pushes included.
    pub moves: u64,
}

ghost use Rattle.sok_rules.specs.Replay.{AreMarks, IsTally, IsReplayFault};

/// Plays a list of letters, of any length, from the start of a level. Only the last position
/// decides whether the list solves the level.
///
/// Errors: `Blocked` with the place of the first letter that is not legal; `Memory`.
pub fn replay(alloc: Global, level: &Level, dirs: &[Dir]) -> Result<Tally, PlayFault>
    ensures { MatchResult result (IsTally level.now dirs.now) (IsReplayFault level.now dirs.now) }
{
    let mut scene = Scene::new(alloc, level)?;
    let mut pushes = 0;
    for (at, dir) in dirs.iter().enumerate() {
        match scene.step(*dir) {
            Some(pushed) => pushes += u64::from(pushed),
            None => return Err(PlayFault::Blocked(at)),
        }
    }
    Ok(Tally {
        solved: scene.is_solved(),
        pushes,
        moves: dirs.len() as u64,
    })
}

/// Returns for each letter of a list, of any length, whether it pushes when the list is played from
/// the start of a level.
///
/// Errors: `Blocked` with the place of the first letter that is not legal; `Memory`.
pub fn mark_pushes(alloc: Global, level: &Level, dirs: &[Dir]) -> Result<Vec<bool>, PlayFault>
    ensures { MatchResult result
        (λ marks. AreMarks level.now dirs.now marks.items) (IsReplayFault level.now dirs.now) }
{
    let mut scene = Scene::new(alloc, level)?;
    let mut marks = Vec::with_capacity(alloc, dirs.len())?;
    for (place, dir) in dirs.iter().enumerate() {
        match scene.step(*dir) {
            Some(pushed) => marks.push(pushed)?,
            None => return Err(PlayFault::Blocked(place)),
        }
    }
    Ok(marks)
}
