//! The fewest pushes of worked levels, or that they have no solution; and what a limit means.

use sok_board::board::Board;
use sok_board::fault::BoardFault;
use sok_cert::check::check;
use sok_cert::claim::Claim;
use sok_cert::entry::{Certificate, Entry, Reason};
use sok_cert::limits::fits;
use sok_rules::cell::{Dir, Spot};
use sok_rules::level::Level;
use sok_rules::play::replay;
use sok_search::fault::SolveFault;
use sok_search::found::Found;
use sok_search::improved::Improved;
use sok_search::outcome::Outcome;
use sok_search::solve::{bound, find, improve, improve_into, solve};
use sok_sketch::rooms::{ROOM_OF_1024, ROOM_OF_4096, Room};
use sok_sketch::sketch::{self, level};
use std::alloc::Global;
use std::process::Abort;
use std::test::Fail;

/// Asserts that a certificate makes a claim, fits, has at most so many entries, and is accepted.
fn assert_certified(
    rt: &impl Abort,
    alloc: Global,
    level: &Level,
    limit: u32,
    claim: Claim,
    certificate: &Certificate,
) -> Result<(), Fail> {
    assert_eq!(rt; certificate.claim, claim);
    assert!(rt; fits(certificate));
    assert!(rt; certificate.entries.len() <= limit as usize);
    let board = Board::new(alloc, level)?;
    let _accepted = check(alloc, &board, certificate)?;
    Ok(())
}

/// Returns whether letters solve a level with so many pushes.
fn solves(alloc: Global, level: &Level, letters: &[Dir], pushes: u32) -> Result<bool, Fail> {
    let tally = replay(alloc, level, letters)?;
    Ok(tally.solved && tally.pushes == u64::from(pushes))
}

/// Returns the pushes of an outcome, or `None` if there is no solution. Asserts that the letters
/// solve the level with as many pushes, and that the certificate is accepted.
fn pushes_in(
    rt: &impl Abort,
    alloc: Global,
    level: &Level,
    limit: u32,
    outcome: &Outcome,
) -> Result<Option<u32>, Fail> {
    match outcome {
        Outcome::Solved {
            dirs,
            pushes,
            certificate,
        } => {
            assert!(rt; solves(alloc, level, dirs, *pushes)?);
            assert_certified(rt, alloc, level, limit, Claim::Pushes(*pushes), certificate)?;
            Ok(Some(*pushes))
        }
        Outcome::Unsolvable { certificate } => {
            assert_certified(rt, alloc, level, limit, Claim::Unsolvable, certificate)?;
            Ok(None)
        }
        Outcome::Limit { .. } => {
            assert!(rt; false);
            Ok(None)
        }
    }
}

/// Returns the pushes of a level's solution, or `None` if there is none.
fn pushes_of(rt: &impl Abort, alloc: Global, board: &str, limit: u32) -> Result<Option<u32>, Fail> {
    let level = level(alloc, board)?;
    let outcome = solve(alloc, &level, limit)?;
    pushes_in(rt, alloc, &level, limit, &outcome)
}

/// Returns the pushes of a solution that is found without a certificate, or `None` if none is
/// found. Asserts that the letters solve the level with as many pushes.
fn found_pushes(
    rt: &impl Abort,
    alloc: Global,
    board: &str,
    limit: u32,
) -> Result<Option<u32>, Fail> {
    let level = level(alloc, board)?;
    match find(alloc, &level, limit)? {
        Found::Solved { dirs, pushes } => {
            assert!(rt; solves(alloc, &level, &dirs, pushes)?);
            Ok(Some(pushes))
        }
        _ => Ok(None),
    }
}

/// Returns whether a limit is met.
fn meets(alloc: Global, board: &str, limit: u32) -> Result<bool, Fail> {
    let level = level(alloc, board)?;
    match solve(alloc, &level, limit)? {
        Outcome::Limit {
            states,
            certificate,
            ..
        } => Ok(states == limit && certificate.is_none()),
        _ => Ok(false),
    }
}

/// "Zerkalo" by GRIGoRusha (public domain), of 20 pushes.
pub(crate) const ZERKALO: &str = "\
---#####
####   #
# $  #.##
#   *   #
##.#  $ #
 # @ ####
 #####
";

/// The shortest solution passes a state that is first found with two pushes more. If depths were
/// not lowered, the answer would be nine.
const LOWERED: &str = "\
#######
###--.#
##----#
#--$#-#
#@-$.-#
#######
";

#[test]
fn fewest_pushes(rt: HostRuntime) -> Result<(), Fail> {
    for &(board, limit, pushes) in &[
        // as many as the level has states
        (sketch::ONE_PUSH, 2, Some(1)),
        (sketch::CORRIDOR_OF_SIX_PUSHES, 14, Some(6)),
        (sketch::SOLVED, 10, Some(0)),
        (sketch::BOX_BEYOND_THE_GOAL, 10, None),
        (sketch::TWO_IN_A_ROW, 10, None),
        // two of its boxes can't be solved, even alone
        (sketch::PAIR_THAT_IS_LOST, 1, None),
        (sketch::ROOM_OF_TWO_ROWS, 100, Some(2)),
        (sketch::TWO_BOXES_FOR_ONE_GOAL, 1_000, None),
        (sketch::DECORATED, 10, Some(1)),
        (sketch::TWO_BOXES_AND_THREE_GOALS, 1_000, Some(2)),
        (sketch::NO_BOX_INSIDE, 1, Some(0)),
        (sketch::BOX_IN_THE_DOORWAY, 1_000, Some(4)),
        (ZERKALO, 1_000_000, Some(20)),
        (LOWERED, 1_000, Some(7)),
    ] {
        assert_eq!(rt; pushes_of(&rt, rt.alloc(), board, limit)?, pushes);
    }
    Ok(())
}

/// Rooms of 96, 160, 1,024 and 4,096 squares, with the box beside the goal.
#[test]
fn large_rooms(rt: HostRuntime) -> Result<(), Fail> {
    for &(room, times) in &[
        (ROOM_OF_1024, 2),
        (ROOM_OF_1024, 4),
        (ROOM_OF_1024, 31),
        (ROOM_OF_4096, 63),
    ] {
        let room = Room { times, ..room };
        let board = room.text(rt.alloc())?;
        assert_eq!(rt; pushes_of(&rt, rt.alloc(), board.as_str(), 3)?, Some(1));
    }
    Ok(())
}

/// Returns the fault of the call, if there is one.
fn fault_of(alloc: Global, board: &str, limit: u32) -> Result<Option<SolveFault>, Fail> {
    let level = level(alloc, board)?;
    match solve(alloc, &level, limit) {
        Ok(_) => Ok(None),
        Err(fault) => Ok(Some(fault)),
    }
}

/// The fault of the level that is open at the side.
const OPEN: SolveFault = SolveFault::Level(BoardFault::NotEnclosed(Spot { row: 1, col: 3 }));

/// The fault of the level with a box outside.
const STRAY: SolveFault = SolveFault::Level(BoardFault::BoxOutside(Spot { row: 1, col: 5 }));

#[test]
fn refusals(rt: HostRuntime) -> Result<(), Fail> {
    for &(board, limit, fault) in &[
        (sketch::OPEN_AT_THE_SIDE, 10, OPEN),
        (sketch::STRAY_BOX, 10, STRAY),
        (
            sketch::NO_GOAL,
            10,
            SolveFault::Level(BoardFault::TooFewGoals),
        ),
        (sketch::ONE_PUSH, 0, SolveFault::BadLimit),
        (sketch::ONE_PUSH, 1_000_001, SolveFault::BadLimit),
        // the limit is refused first
        (sketch::NO_GOAL, 0, SolveFault::BadLimit),
    ] {
        assert_eq!(rt; fault_of(rt.alloc(), board, limit)?, Some(fault));
    }
    Ok(())
}

/// If a limit is met, each lower one is met too. The least one that is not met has an answer.
#[test]
fn limits(rt: HostRuntime) -> Result<(), Fail> {
    assert!(rt; meets(rt.alloc(), sketch::ONE_PUSH, 1)?);
    assert!(rt; meets(rt.alloc(), sketch::CORRIDOR_OF_SIX_PUSHES, 2)?);
    let mut least = 1;
    for limit in 1..100 {
        if meets(rt.alloc(), sketch::CORRIDOR_OF_SIX_PUSHES, limit)? {
            assert_eq!(rt; least, limit);
            least = limit + 1;
        }
    }
    let pushes = pushes_of(&rt, rt.alloc(), sketch::CORRIDOR_OF_SIX_PUSHES, least)?;
    assert_eq!(rt; pushes, Some(6));
    Ok(())
}

/// Returns the lower bound of a level, shown by a certificate with at most `limit` entries, or
/// `None` if there is no solution.
fn bound_of(rt: &impl Abort, alloc: Global, board: &str, limit: u32) -> Result<Option<u32>, Fail> {
    let level = level(alloc, board)?;
    let outcome = bound(alloc, &level, limit)?;
    if let Outcome::Limit {
        states,
        at_least,
        certificate: Some(certificate),
    } = &outcome
    {
        assert_eq!(rt; *states, limit);
        let claim = Claim::Pushes(*at_least);
        assert_certified(rt, alloc, &level, limit, claim, certificate)?;
        return Ok(Some(*at_least));
    }
    pushes_in(rt, alloc, &level, limit, &outcome)
}

/// Returns the lower bound of a search without a certificate that was cut off, or `None` if it was
/// not cut off.
fn found_bound(alloc: Global, board: &str, limit: u32) -> Result<Option<u32>, Fail> {
    let level = level(alloc, board)?;
    match find(alloc, &level, limit)? {
        Found::Limit { at_least, .. } => Ok(Some(at_least)),
        _ => Ok(None),
    }
}

/// While the start alone is in the open list, a search that is cut off shows the lower bound of the
/// start. In the end it shows the fewest pushes.
#[test]
fn bounds(rt: HostRuntime) -> Result<(), Fail> {
    for &(board, limit, pushes) in &[
        (sketch::CORRIDOR_OF_SIX_PUSHES, 1, Some(2)),
        (sketch::CORRIDOR_OF_SIX_PUSHES, 14, Some(6)),
        // nothing is in the open list if the start is barred
        (sketch::TWO_IN_A_ROW, 1, None),
        (sketch::PAIR_THAT_IS_LOST, 1, None),
    ] {
        assert_eq!(rt; bound_of(&rt, rt.alloc(), board, limit)?, pushes);
    }
    assert_eq!(rt;
        found_bound(rt.alloc(), sketch::CORRIDOR_OF_SIX_PUSHES, 1)?,
        Some(2)
    );
    let mut last = Some(0);
    for &limit in &[1, 2, 4, 8, 16, 32, 64] {
        let pushes = bound_of(&rt, rt.alloc(), LOWERED, limit)?;
        assert!(rt; last <= pushes && pushes <= Some(7));
        last = pushes;
    }
    assert_eq!(rt; last, Some(7));
    Ok(())
}

/// Returns how many pushes a level needs at least, if a solution with `best` pushes is known: those
/// of a solution with fewer, or `best`, or `None` if the limit is met.
fn improved_pushes(
    rt: &impl Abort,
    alloc: Global,
    board: &str,
    limit: u32,
    best: u32,
) -> Result<Option<u32>, Fail> {
    let level = level(alloc, board)?;
    match improve(alloc, &level, limit, best)? {
        Improved::Fewer { dirs, pushes } => {
            assert!(rt; pushes < best);
            assert!(rt; solves(alloc, &level, &dirs, pushes)?);
            Ok(Some(pushes))
        }
        Improved::Optimal => Ok(Some(best)),
        Improved::Limit { states, at_least } => {
            assert!(rt; states == limit && at_least < best);
            Ok(None)
        }
    }
}

#[test]
fn improvements(rt: HostRuntime) -> Result<(), Fail> {
    for &(board, limit, best, pushes) in &[
        (sketch::CORRIDOR_OF_SIX_PUSHES, 14, 8, Some(6)),
        (sketch::CORRIDOR_OF_SIX_PUSHES, 14, 7, Some(6)),
        (sketch::CORRIDOR_OF_SIX_PUSHES, 14, 6, Some(6)),
        (sketch::CORRIDOR_OF_SIX_PUSHES, 14, 5, Some(5)),
        // the start's bound is 2
        (sketch::CORRIDOR_OF_SIX_PUSHES, 1, 2, Some(2)),
        (sketch::CORRIDOR_OF_SIX_PUSHES, 1, 6, None),
        (sketch::CORRIDOR_OF_SIX_PUSHES, 14, 0, Some(0)),
        (sketch::CORRIDOR_OF_SIX_PUSHES, 14, u32::MAX, Some(6)),
        (sketch::SOLVED, 10, 0, Some(0)),
        (sketch::SOLVED, 10, 1, Some(0)),
        // no number of pushes solves it
        (sketch::TWO_IN_A_ROW, 10, 1_000, Some(1_000)),
        (LOWERED, 1_000, 8, Some(7)),
        (LOWERED, 1_000, 7, Some(7)),
        (ZERKALO, 300, 21, Some(20)),
        (ZERKALO, 300, 20, Some(20)),
    ] {
        assert_eq!(rt;
            improved_pushes(&rt, rt.alloc(), board, limit, best)?,
            pushes
        );
    }
    Ok(())
}

/// Returns how many pushes a certificate shows that a level needs, if a solution with `best` pushes
/// is known. Asserts that it is accepted.
fn shown_pushes(
    rt: &impl Abort,
    alloc: Global,
    board: &str,
    limit: u32,
    best: u32,
) -> Result<u32, Fail> {
    let level = level(alloc, board)?;
    let mut entries = Vec::new(alloc);
    let shown = match improve_into(
        alloc,
        &level,
        limit,
        best.min(1_000_000),
        true,
        &mut entries,
    )? {
        Improved::Fewer { dirs, pushes } => {
            assert!(rt; solves(alloc, &level, &dirs, pushes)?);
            pushes
        }
        Improved::Optimal => best,
        Improved::Limit { at_least, .. } => at_least,
    };
    let claim = Claim::Pushes(shown);
    let certificate = Certificate { claim, entries };
    assert_certified(rt, alloc, &level, limit, claim, &certificate)?;
    Ok(shown)
}

#[test]
fn certified_improvements(rt: HostRuntime) -> Result<(), Fail> {
    for &(board, limit, best, pushes) in &[
        (sketch::CORRIDOR_OF_SIX_PUSHES, 14, 8, 6),
        (sketch::CORRIDOR_OF_SIX_PUSHES, 14, 6, 6),
        (sketch::CORRIDOR_OF_SIX_PUSHES, 14, 5, 5),
        // the start's bound is 2
        (sketch::CORRIDOR_OF_SIX_PUSHES, 1, 2, 2),
        (sketch::CORRIDOR_OF_SIX_PUSHES, 1, 6, 2),
        (sketch::CORRIDOR_OF_SIX_PUSHES, 14, 0, 0),
        (sketch::TWO_IN_A_ROW, 10, 1_000_000, 1_000_000),
        (LOWERED, 1_000, 8, 7),
        (LOWERED, 1_000, 7, 7),
    ] {
        assert_eq!(rt; shown_pushes(&rt, rt.alloc(), board, limit, best)?, pushes);
    }
    Ok(())
}

/// Returns whether the reason of some entry is a pattern of so many boxes.
fn has_pattern_of(entries: &[Entry], count: usize) -> bool {
    for entry in entries {
        if let Reason::Pattern { members, .. } = &entry.reason {
            if members.as_slice().len() == count {
                return true;
            }
        }
    }
    false
}

/// A start in which two boxes are lost is one entry, a pattern of these two.
#[test]
fn a_lost_pair_is_one_entry(rt: HostRuntime) -> Result<(), Fail> {
    let level = sketch::level(rt.alloc(), sketch::PAIR_THAT_IS_LOST)?;
    let Outcome::Unsolvable { certificate } = solve(rt.alloc(), &level, 1)? else {
        panic!(rt; "a lost pair is unsolvable");
    };
    assert!(rt; has_pattern_of(&certificate.entries, 2));
    assert_eq!(rt; certificate.entries.len(), 1);
    Ok(())
}

/// A push that makes three boxes lost, though no two of them, leads to a pattern of these three.
#[test]
fn three_lost_boxes_are_a_pattern(rt: HostRuntime) -> Result<(), Fail> {
    let level = sketch::level(rt.alloc(), sketch::THREE_THAT_ARE_LOST)?;
    let Outcome::Solved {
        pushes,
        certificate,
        ..
    } = solve(rt.alloc(), &level, 100)?
    else {
        panic!(rt; "the box comes to the third goal");
    };
    assert_eq!(rt; pushes, 3);
    assert!(rt; has_pattern_of(&certificate.entries, 3));
    Ok(())
}

/// Without a certificate, states from which a box reaches no goal are not kept, and of some states only
/// the pushes of a corral are followed. So a limit suffices that is exceeded if they are kept.
#[test]
fn fewer_states(rt: HostRuntime) -> Result<(), Fail> {
    for &(board, limit, pushes) in &[
        (sketch::CORRIDOR_OF_SIX_PUSHES, 7, 6),
        (sketch::BOX_IN_THE_DOORWAY, 8, 4),
        (ZERKALO, 300, 20),
        (LOWERED, 30, 7),
    ] {
        assert!(rt; meets(rt.alloc(), board, limit)?);
        assert_eq!(rt; found_pushes(&rt, rt.alloc(), board, limit)?, Some(pushes));
    }
    Ok(())
}
