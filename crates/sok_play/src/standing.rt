//! A level as it is after letters.

ghost use Rattle.std.specs.Prelude.{◌≡◌, ◌≤◌, ◌<◌, [], IfOk, IsSome, MatchResult, Some, length};
ghost use Rattle.std.specs.Prelude.{slice_index_or};
ghost use Rattle.sok_rules.specs.Limits.{letter_limit, size_limit};
ghost use Rattle.sok_rules.specs.Play.{Position};
ghost use Rattle.sok_rules.specs.Replay.{IsReplayFault};
ghost use Rattle.sok_rules.specs.Session.{position_of};
ghost use Rattle.sok_play.specs.Drawings.{after_letters, rows_at, shown_row};

use sok_rules::cell::{Cell, Dir, Spot};
use sok_rules::fault::{Memory, PlayFault};
use sok_rules::level::Level;
use sok_rules::session::Session;
use std::alloc::Global;

/// Returns a session in which these letters were played. Fails if one of them is not legal.
pub(crate) fn session_after(
    alloc: Global,
    level: &Level,
    letters: &[Dir],
) -> Result<Session, PlayFault>
    requires { length letters.now ≤ letter_limit }
    ensures { MatchResult result
        (λ session. (session ≡ after_letters level.now letters.now) × IsSome (position_of session))
        (IsReplayFault level.now letters.now) }
{
    let mut session = Session::new(alloc, level)?;
    for dir in letters {
        session.step(*dir)?;
    }
    Ok(session)
}

/// Returns the level as it is in a session of it.
pub(crate) fn level_now(alloc: Global, level: &Level, session: &Session) -> Result<Level, Memory>
    requires rows { session.now.rows ≡ level.now }
    requires legal { IsSome (position_of session.now) }
    ensures { IfOk result (λ now. (x : Position) → position_of session.now ≡ Some x → now ≡ rows_at level.now x) }
{
    let mut rows = Vec::new(alloc);
    for (row, cells) in level.rows().iter().enumerate() {
        rows.push(row_now(alloc, session, row, cells.len())?)?;
    }
    Ok(Level::new(rows).unwrap())
}

/// Returns a row of the session's level as it is now.
fn row_now(alloc: Global, session: &Session, row: usize, width: usize) -> Result<Vec<Cell>, Memory>
    requires few_rows { length session.now.rows ≤ size_limit }
    requires few_columns { width ≤ size_limit }
    requires within { row < length session.now.rows }
    requires width { width ≡ length (slice_index_or session.now.rows row []) }
    ensures { IfOk result (λ cells. (x : Position) → position_of session.now ≡ Some x
        → cells.items ≡ shown_row x row 0 (slice_index_or session.now.rows row [])) }
{
    let mut cells = Vec::with_capacity(alloc, width)?;
    for col in 0..width {
        let spot = Spot {
            row: row as u32,
            col: col as u32,
        };
        cells.push(session.cell(spot).unwrap())?;
    }
    Ok(cells)
}
