//! Worked levels, the limits, and levels whose states were all searched.

use crate::engines::{check_bytes, find_bytes, replay_bytes, solve_bytes};
use sok_cert::reading::read;
use sok_sketch::sketch;
use sok_text::line::cut_line;
use std::alloc::Global;
use std::test::Fail;

/// What is written and returned when a level is solved.
#[derive(Drop)]
pub(crate) struct Reply {
    pub status: u8,
    pub out: Vec<u8>,
    pub cert: Vec<u8>,
}

/// Returns a collection with a board as its second level. Its first level is faulty.
fn second(alloc: Global, board: &str) -> Result<String, Fail> {
    let mut boards = String::from_str(alloc, "#####\n#$ .#\n#####\n\n")?;
    boards.push_str(board)?;
    Ok(boards)
}

/// Solves the second level of a collection.
pub(crate) fn answered(alloc: Global, board: &str, limit: u32) -> Result<Reply, Fail> {
    let boards = second(alloc, board)?;
    let mut out = Vec::new(alloc);
    let mut cert = Vec::new(alloc);
    let mut input = boards.as_bytes();
    let status = solve_bytes(alloc, &mut input, 2, limit, false, &mut out, &mut cert)?;
    Ok(Reply { status, out, cert })
}

/// Returns whether the answer is the same without a certificate, except that other letters may solve
/// the level with this many pushes.
fn is_found(
    alloc: Global,
    board: &str,
    limit: u32,
    reply: &Reply,
    pushes: Option<u32>,
) -> Result<bool, Fail> {
    let boards = second(alloc, board)?;
    let mut out = Vec::new(alloc);
    let status = find_bytes(alloc, &mut boards.as_bytes(), 2, limit, false, &mut out)?;
    let is_told = match pushes {
        Some(pushes) => tells(alloc, board, &out, pushes)?,
        None => out.as_slice() == reply.out.as_slice(),
    };
    Ok(is_told && status == reply.status)
}

/// Returns how many entries a certificate has. The lines inside a pattern are not counted.
fn entries_of(alloc: Global, text: &[u8]) -> Result<usize, Fail> {
    let certificate = read(alloc, text)?;
    Ok(certificate.entries.len())
}

/// Returns whether a certificate has at most `limit` entries, and is accepted with this line.
fn is_accepted(
    alloc: Global,
    board: &str,
    limit: u32,
    cert: &[u8],
    line: &str,
) -> Result<bool, Fail> {
    let mut out = Vec::new(alloc);
    let status = check_bytes(alloc, &mut board.as_bytes(), 1, &mut { cert }, &mut out)?;
    let entries = entries_of(alloc, cert)?;
    Ok(entries <= limit as usize && status == 0 && out.as_slice() == line.as_bytes())
}

/// Returns whether a text replays on a board to this line.
fn replays(alloc: Global, board: &str, text: &[u8], line: &[u8]) -> Result<bool, Fail> {
    let mut out = Vec::new(alloc);
    let status = replay_bytes(alloc, &mut board.as_bytes(), 1, text, &mut out)?;
    Ok(status == 0 && cut_line(out.as_slice()).0 == line)
}

/// Returns whether an answer has so many pushes, and a text that replays to its line.
fn tells(alloc: Global, board: &str, out: &[u8], pushes: u32) -> Result<bool, Fail> {
    let (line, text) = cut_line(out);
    let front = format!(in alloc; "solved {pushes} ")?;
    Ok(line.starts_with(front.as_bytes()) && replays(alloc, board, text, line)?)
}

/// Returns whether a level is solved with so many pushes: the text that is written is replayed, and
/// the certificate is judged.
pub(crate) fn is_solved(alloc: Global, board: &str, limit: u32, pushes: u32) -> Result<bool, Fail> {
    let reply = answered(alloc, board, limit)?;
    let accepted = format!(in alloc; "accepted at least {pushes} pushes\n")?;
    Ok(
        reply.status == 0
            && tells(alloc, board, &reply.out, pushes)?
            && is_shown(alloc, board, limit, &reply, Some(pushes), &accepted)?,
    )
}

/// Returns whether a level has no solution, and its certificate says so.
pub(crate) fn is_unsolvable(alloc: Global, board: &str, limit: u32) -> Result<bool, Fail> {
    let reply = answered(alloc, board, limit)?;
    Ok(
        reply.status == 0
            && reply.out.as_slice() == b"unsolvable\n".as_slice()
            && is_shown(alloc, board, limit, &reply, None, "accepted unsolvable\n")?,
    )
}

/// Returns whether an answer is the same without a certificate, except for the letters that solve the
/// level with this many pushes, and its certificate is accepted.
fn is_shown(
    alloc: Global,
    board: &str,
    limit: u32,
    reply: &Reply,
    pushes: Option<u32>,
    accepted: &str,
) -> Result<bool, Fail> {
    Ok(
        is_found(alloc, board, limit, reply, pushes)?
            && is_accepted(alloc, board, limit, reply.cert.as_slice(), accepted)?,
    )
}

/// A level, a limit, and the fewest pushes, or none if there is no solution. The limit is the
/// number of the level's states. Unless another source is named, both numbers come from a plain
/// breadth-first search over all states of the level.
const LEVELS: [(&str, u32, Option<u32>); 22] = [
    (sketch::ONE_PUSH, 2, Some(1)),
    (sketch::SOLVED, 1, Some(0)),
    (sketch::BOX_BEYOND_THE_GOAL, 1, None),
    (sketch::TWO_IN_A_ROW, 1, None),
    (sketch::ROOM_OF_TWO_ROWS, 4, Some(2)),
    (sketch::CORRIDOR_OF_SIX_PUSHES, 14, Some(6)),
    (sketch::TWO_BOXES_FOR_ONE_GOAL, 10, None),
    (sketch::TWO_BOXES_AND_THREE_GOALS, 15, Some(2)),
    // this one was worked out by hand, with the greatest limit
    (sketch::DECORATED, 1_000_000, Some(1)),
    (sketch::NO_BOX_INSIDE, 1, Some(0)),
    (sketch::BOX_IN_THE_OPEN, 9, Some(2)),
    (sketch::WIDE_ROOM_OF_TWO_ROWS, 6, Some(2)),
    (sketch::NEAREST_GOAL_NEEDED_BY_ANOTHER, 4, None),
    (sketch::PILLARS, 224, Some(10)),
    (THREE_WAYS_OUT, 1_542, Some(9)),
    (GOALS_IN_THREE_CORNERS, 216, Some(4)),
    (ROUND_THE_BLOCK, 990, Some(6)),
    (RING_OF_BOXES, 1_140, Some(3)),
    (PASSAGE_BEHIND_A_BOX, 125, Some(4)),
    (TWO_CHAMBERS, 54, Some(4)),
    (SLANTED_ROOM, 86, None),
    // this one was worked out by hand: the box on each square but the first
    (CORRIDOR_OF_96_PUSHES, 97, Some(96)),
];

/// A packed line of 100 columns. The box is in the lower half of its row, the goal in the upper one.
pub(crate) const CORRIDOR_OF_96_PUSHES: &str = "100#|#@$95-.#|100#\n";

const THREE_WAYS_OUT: &str = "\
#######
#.#  .#
#  $  #
# $@  #
#  $ ##
#.   #
######
";

pub(crate) const GOALS_IN_THREE_CORNERS: &str = "\
########
#  .   #
# #$## #
# .@$  #
#  # $.#
########
";

const ROUND_THE_BLOCK: &str = "\
#######
#.@.  #
# $#$ #
#  $ .#
#     #
#######
";

pub(crate) const RING_OF_BOXES: &str = "\
#######
#  .  #
# .$. #
# $@$ #
#     #
#######
";

const PASSAGE_BEHIND_A_BOX: &str = "\
########
#   .  #
# $#.$ #
#   @  #
########
";

pub(crate) const TWO_CHAMBERS: &str = "\
########
#. #   #
#  $ $ #
#  #@. #
########
";

pub(crate) const SLANTED_ROOM: &str = "\
########
###  . #
#  $#  #
#@ *   #
#    ###
########
";

#[test]
fn levels(rt: HostRuntime) -> Result<(), Fail> {
    for &(board, limit, pushes) in &LEVELS {
        let is_so = match pushes {
            Some(pushes) => is_solved(rt.alloc(), board, limit, pushes)?,
            None => is_unsolvable(rt.alloc(), board, limit)?,
        };
        assert!(rt; is_so, "{board}");
    }
    Ok(())
}

/// Returns whether a level has this answer, with a certificate that begins with this line, or with
/// none if it is empty.
fn is_answered(
    alloc: Global,
    board: &str,
    limit: u32,
    text: &str,
    status: u8,
    front: &str,
) -> Result<bool, Fail> {
    let reply = answered(alloc, board, limit)?;
    Ok(
        reply.status == status
            && reply.out.as_slice() == text.as_bytes()
            && cut_line(&reply.cert).0 == front.as_bytes()
            && reply.cert.is_empty() == front.is_empty()
            && is_found(alloc, board, limit, &reply, None)?,
    )
}

const FIRST: &str = "sokoban-certificate 1";

const SECOND: &str = "sokoban-certificate 2";

/// Whole answers: the text of the solution, or the limit, which has no certificate. A certificate
/// has version 2 if an entry is a pattern.
#[test]
fn whole_answers(rt: HostRuntime) -> Result<(), Fail> {
    for &(board, limit, text, status, front) in &[
        (sketch::ONE_PUSH, 2, "solved 1 1\nR\n", 0, FIRST),
        (sketch::SOLVED, 1, "solved 0 0\n\n", 0, FIRST),
        (sketch::DECORATED, 2, "solved 1 1\nR\n", 0, FIRST),
        (sketch::NO_BOX_INSIDE, 1, "solved 0 0\n\n", 0, FIRST),
        (sketch::PAIR_THAT_IS_LOST, 1, "unsolvable\n", 0, SECOND),
        (sketch::CORRIDOR_OF_SIX_PUSHES, 1, "limit 1\n", 4, ""),
        (sketch::CORRIDOR_OF_SIX_PUSHES, 2, "limit 2\n", 4, ""),
    ] {
        assert!(rt;
            is_answered(rt.alloc(), board, limit, text, status, front)?,
            "{text}"
        );
    }
    Ok(())
}

/// Returns whether a limit that was met has this answer if a bound is asked for: with a
/// certificate, which is accepted for as many pushes, and without one.
fn is_bounded(alloc: Global, limit: u32, line: &str, accepted: &str) -> Result<bool, Fail> {
    let board = sketch::CORRIDOR_OF_SIX_PUSHES;
    let mut out = Vec::new(alloc);
    let mut cert = Vec::new(alloc);
    let mut input = board.as_bytes();
    let status = solve_bytes(alloc, &mut input, 1, limit, true, &mut out, &mut cert)?;
    Ok(
        status == 4
            && out.as_slice() == line.as_bytes()
            && is_bounded_alone(alloc, board, limit, line)?
            && is_accepted(alloc, board, limit, cert.as_slice(), accepted)?,
    )
}

/// Returns whether this is the answer without a certificate.
fn is_bounded_alone(alloc: Global, board: &str, limit: u32, line: &str) -> Result<bool, Fail> {
    let mut out = Vec::new(alloc);
    let status = find_bytes(alloc, &mut board.as_bytes(), 1, limit, true, &mut out)?;
    Ok(status == 4 && out.as_slice() == line.as_bytes())
}

/// The start alone is in the open list, and its box is two pushes from the goal. Or it was pushed
/// once, and is then three pushes away.
#[test]
fn bounds_are_told(rt: HostRuntime) -> Result<(), Fail> {
    for &(limit, line, accepted) in &[
        (1, "limit 1 at least 2\n", "accepted at least 2 pushes\n"),
        (2, "limit 2 at least 4\n", "accepted at least 4 pushes\n"),
    ] {
        assert!(rt; is_bounded(rt.alloc(), limit, line, accepted)?, "{line}");
    }
    Ok(())
}
