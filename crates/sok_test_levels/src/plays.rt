//! What the replay of a text reports, and play letter by letter with undo and redo.

use sok_rules::cell::{Dir, Spot};
use sok_rules::fault::PlayFault;
use sok_rules::play::{Tally, replay};
use sok_rules::session::Session;
use sok_sketch::acts::{Act, answer};
use sok_sketch::sketch;
use sok_text::lurd::read_lurd;
use sok_text::xsb::cell_of;
use std::alloc::Global;
use std::process::Abort;
use std::test::Fail;

/// Plays letters one by one.
fn step_each(session: &mut Session, letters: &[Dir]) -> Result<(), PlayFault> {
    for dir in letters {
        session.step(*dir)?;
    }
    Ok(())
}

/// Plays letters one by one, undoes them all and plays them again. Returns what the session shows.
fn told_after(session: &mut Session, letters: &[Dir]) -> Result<Tally, PlayFault> {
    step_each(session, letters)?;
    for _ in letters {
        let _undone = session.undo();
    }
    for _ in letters {
        let _redone = session.redo();
    }
    Ok(Tally {
        solved: session.solved(),
        pushes: session.pushes(),
        moves: session.moves(),
    })
}

/// Does the same in a session on a board.
fn played(alloc: Global, board: &str, letters: &[Dir]) -> Result<Result<Tally, PlayFault>, Fail> {
    let level = sketch::level(alloc, board)?;
    let mut session = Session::new(alloc, &level)?;
    Ok(told_after(&mut session, letters))
}

/// Returns whether this is reported of a text on a board: whole, and letter by letter.
fn tells(
    alloc: Global,
    board: &str,
    text: &str,
    told: Result<Tally, PlayFault>,
) -> Result<bool, Fail> {
    let letters = read_lurd(alloc, text.as_bytes())?;
    Ok(replayed(alloc, board, &letters)? == told && played(alloc, board, &letters)? == told)
}

fn replayed(alloc: Global, board: &str, letters: &[Dir]) -> Result<Result<Tally, PlayFault>, Fail> {
    let level = sketch::level(alloc, board)?;
    Ok(replay(alloc, &level, letters))
}

/// Asserts whether a text solves a board, and its pushes and moves; or its first letter that is not
/// legal.
fn assert_told(
    rt: &impl Abort,
    alloc: Global,
    board: &str,
    text: &str,
    told: Result<(bool, u64, u64), usize>,
) -> Result<(), Fail> {
    let told = match told {
        Ok((solved, pushes, moves)) => Ok(Tally {
            solved,
            pushes,
            moves,
        }),
        Err(at) => Err(PlayFault::Blocked(at)),
    };
    assert!(rt; tells(alloc, board, text, told)?, "{text} on {board}");
    Ok(())
}

#[test]
fn texts_on_boards(rt: HostRuntime) -> Result<(), Fail> {
    for &(board, text, told) in &[
        (sketch::ROOM_OF_TWO_ROWS, "ulldRR", Ok((true, 2, 6))),
        (sketch::ROOM_OF_TWO_ROWS, "ulldR", Ok((false, 1, 5))),
        (sketch::ROOM_OF_TWO_ROWS, "", Ok((false, 0, 0))),
        // letters may stand on several lines
        (sketch::ROOM_OF_TWO_ROWS, " U\nl", Ok((false, 0, 2))),
        (
            sketch::ROOM_OF_TWO_ROWS,
            "ududududud ududududud ulldRR",
            Ok((true, 2, 26)),
        ),
        (
            sketch::CORRIDOR_OF_SIX_PUSHES,
            "RRurrdLLLL",
            Ok((true, 6, 10)),
        ),
        (
            sketch::CORRIDOR_OF_SIX_PUSHES,
            "RRdrruLLLL",
            Ok((true, 6, 10)),
        ),
        // the first of them with numbers
        (
            sketch::CORRIDOR_OF_SIX_PUSHES,
            "2Ru2rd4L",
            Ok((true, 6, 10)),
        ),
        (
            sketch::TWO_BOXES_AND_THREE_GOALS,
            "rrrdRullldR",
            Ok((true, 2, 11)),
        ),
        // a board that is open at the side, which play takes for a wall
        (sketch::OPEN_AT_THE_SIDE, "R", Ok((true, 1, 1))),
        (sketch::SOLVED, "", Ok((true, 0, 0))),
        // solved on the way, and not at the end
        (sketch::ROOM_BEYOND_THE_GOAL, "RR", Ok((false, 2, 2))),
        (sketch::ROOM_OF_TWO_ROWS, "uu", Err(1)),
        (sketch::ROOM_OF_TWO_ROWS, "rr", Err(1)),
        // a second box behind the first
        (sketch::TWO_IN_A_ROW, "R", Err(0)),
        (sketch::BOX_AT_A_WALL, "R", Err(0)),
        // the goal at the open side is entered, and nothing beyond it
        (sketch::OPEN_AT_THE_SIDE, "RR", Err(1)),
        (sketch::NO_ROW_ABOVE, "u", Err(0)),
    ] {
        assert_told(&rt, rt.alloc(), board, text, told)?;
    }
    Ok(())
}

/// Returns whether a session has these pushes and moves, and shows this middle row. It must be
/// solved if the row has no box off a goal, and only then.
fn shows(session: &Session, pushes: u64, moves: u64, row: &str) -> bool {
    let is_solved = !row.as_bytes().contains(&b'$');
    session.pushes() == pushes
        && session.moves() == moves
        && session.dirs().len() as u64 == moves
        && session.solved() == is_solved
        && has_row(session, row)
}

fn has_row(session: &Session, row: &str) -> bool {
    for (symbol, col) in row.bytes().zip(0..128) {
        if session.cell(Spot { row: 1, col }) != cell_of(symbol) {
            return false;
        }
    }
    let col = row.len().min(128) as u32;
    session.cell(Spot { row: 1, col }).is_none()
}

/// An act in a session, its answer, and the pushes, the moves and the middle row after it.
type Turn = (Act, Result<bool, PlayFault>, u64, u64, &'static str);

/// Asserts what a session answers and shows, act by act.
fn act_in_turn(rt: &impl Abort, session: &mut Session, turns: &[Turn]) {
    for (act, told, pushes, moves, row) in turns {
        assert_eq!(rt; answer(session, *act), *told, "before {row}");
        let shown = shows(session, *pushes, *moves, row);
        assert!(rt; shown, "{pushes} pushes, {moves} moves, {row}");
    }
}

#[test]
fn letters_are_taken_back_and_played_again(rt: HostRuntime) -> Result<(), Fail> {
    let level = sketch::level(rt.alloc(), sketch::ROOM_BEYOND_THE_GOAL)?;
    let level = level.copy(rt.alloc())?;
    let mut session = Session::new(rt.alloc(), &level)?;
    let first: &[Turn] = &[
        (Act::Play(Dir::Right), Ok(true), 1, 1, "# @* #"),
        (Act::Undo, Ok(true), 0, 0, "#@$. #"),
        (Act::Redo, Ok(true), 1, 1, "# @* #"),
        (Act::Undo, Ok(true), 0, 0, "#@$. #"),
        (Act::Undo, Ok(false), 0, 0, "#@$. #"),
        // a refused letter keeps those undone
        (
            Act::Play(Dir::Up),
            Err(PlayFault::Blocked(0)),
            0,
            0,
            "#@$. #",
        ),
        (Act::Redo, Ok(true), 1, 1, "# @* #"),
        (Act::Redo, Ok(false), 1, 1, "# @* #"),
    ];
    act_in_turn(&rt, &mut session, first);
    let then: &[Turn] = &[
        (Act::Play(Dir::Left), Ok(false), 1, 2, "#@ * #"),
        (Act::Undo, Ok(true), 1, 1, "# @* #"),
        // a letter that is played drops the undone ones
        (Act::Play(Dir::Right), Ok(true), 2, 2, "#  +$#"),
        (Act::Redo, Ok(false), 2, 2, "#  +$#"),
        (Act::Reset, Ok(true), 0, 0, "#@$. #"),
        (Act::Undo, Ok(false), 0, 0, "#@$. #"),
        (Act::Redo, Ok(false), 0, 0, "#@$. #"),
    ];
    act_in_turn(&rt, &mut session, then);
    Ok(())
}
