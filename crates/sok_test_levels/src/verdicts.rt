//! Certificates of worked levels, judged.

ghost use Rattle.std.specs.Prelude.{◌<◌};

use sok_board::board::Board;
use sok_cert::check::check;
use sok_cert::claim::Claim;
use sok_cert::fault::CertFault;
use sok_cert::reading::read;
use sok_cert::stream::judge_pieces;
use sok_rules::cell::Dir;
use sok_sketch::{sets, sketch};
use std::alloc::Global;
use std::process::Abort;
use std::test::Fail;

const NO_PUSHES: Result<Claim, CertFault> = Ok(Claim::Pushes(0));

const TWO_PUSHES: Result<Claim, CertFault> = Ok(Claim::Pushes(2));

const SIX_PUSHES: Result<Claim, CertFault> = Ok(Claim::Pushes(6));

const UNSOLVABLE: Result<Claim, CertFault> = Ok(Claim::Unsolvable);

/// The lines of a certificate after the first, and the claim or fault that it has.
type Case = (&'static str, Result<Claim, CertFault>);

const ONE_PUSH: [Case; 11] = [
    // a claim that is longer than any valid one
    (
        "pushes 00000000000000000000000000000000000000000000000000000000000000000000000000000001\n\
         b 0 0 1 1 1 0\nend\n",
        Err(CertFault::Header),
    ),
    ("pushes 1\nb 0 0 1 1 1 0\nend\n", Ok(Claim::Pushes(1))),
    ("pushes 1\ns 1 0 1 1\nend\n", Err(CertFault::Start)),
    ("pushes 1\nend\n", Err(CertFault::Start)),
    ("pushes 1\ns 0 0 1 9\nend\n", Err(CertFault::BadEntry(0))),
    ("pushes 1\ns 0 0 1 9", Err(CertFault::Truncated)),
    ("pushes 1\nb 0 0 1 1 1 0\n", Err(CertFault::Truncated)),
    ("pushes 1\nb 0 0 1 1 1 0\nend\n\n", Err(CertFault::Line(5))),
    ("pushes 1\nb 0 00 1 1 1 0\nend\n", Err(CertFault::Line(3))),
    ("unsolvable\ns 0 0 1 1\nend\n", Err(CertFault::BadReason(0))),
    (
        "pushes 1\nx 0 0 1 1\nend\n",
        Err(CertFault::OpenPush(0, 1, Dir::Right)),
    ),
];

const SOLVED: [Case; 3] = [
    ("pushes 0\ns 0 0 1 2\nend\n", NO_PUSHES),
    ("pushes 0\nx 0 0 1 2\nend\n", Err(CertFault::SolvedEntry(0))),
    (
        "unsolvable\nf 0 0 1 2 1 0\nend\n",
        Err(CertFault::BadReason(0)),
    ),
];

const ROOM_OF_TWO_ROWS: [Case; 2] = [
    ("pushes 2\nb 0 6 1 5 2 0\nend\n", TWO_PUSHES),
    (
        "unsolvable\nf 0 6 1 5 1 0\nend\n",
        Err(CertFault::BadReason(0)),
    ),
];

const TWO_BOXES_AND_THREE_GOALS: [Case; 3] = [
    ("pushes 2\nb 0 0 2 8 10 1 1 0 0 0\nend\n", TWO_PUSHES),
    (
        "pushes 2\nb 0 0 2 8 10 1 1 1 0 0\nend\n",
        Err(CertFault::BadReason(0)),
    ),
    (
        "pushes 3\nb 0 0 2 8 10 2 2 0 1 1\nend\n",
        Err(CertFault::BadReason(0)),
    ),
];

const TWO_IN_A_ROW: [Case; 2] = [
    ("unsolvable\nf 0 0 2 1 2 2 0 1\nend\n", UNSOLVABLE),
    // no push is there
    ("unsolvable\nx 0 0 2 1 2\nend\n", UNSOLVABLE),
];

const CORRIDOR_OF_SIX_PUSHES: [Case; 13] = [
    // with each line end, and with a last line that has none
    (
        "pushes 6\r\nx 0 4 1 5\r\nx 1 5 1 6\nb 2 6 1 7 4 0\r\nend\r\n",
        SIX_PUSHES,
    ),
    (
        "pushes 6\r\nx 0 4 1 5\r\nx 1 5 1 6\nb 2 6 1 7 4 0\r\nend\r",
        Err(CertFault::Truncated),
    ),
    // a fault of the text comes before that of an entry
    (
        "pushes 6\nx 0 4 1 5\nx 1 5 1 6\nb 2 6 1 7 5 0\n",
        Err(CertFault::Truncated),
    ),
    // in each order
    (
        "pushes 6\nx 0 4 1 5\nx 1 5 1 6\nb 2 6 1 7 4 0\nend\n",
        SIX_PUSHES,
    ),
    (
        "pushes 6\nx 0 4 1 5\nb 2 6 1 7 4 0\nx 1 5 1 6\nend\n",
        SIX_PUSHES,
    ),
    (
        "pushes 6\nx 1 5 1 6\nx 0 4 1 5\nb 2 6 1 7 4 0\nend\n",
        SIX_PUSHES,
    ),
    (
        "pushes 6\nx 1 5 1 6\nb 2 6 1 7 4 0\nx 0 4 1 5\nend\n",
        SIX_PUSHES,
    ),
    (
        "pushes 6\nb 2 6 1 7 4 0\nx 0 4 1 5\nx 1 5 1 6\nend\n",
        SIX_PUSHES,
    ),
    (
        "pushes 6\nb 2 6 1 7 4 0\nx 1 5 1 6\nx 0 4 1 5\nend\n",
        SIX_PUSHES,
    ),
    // without the entry that the one push leads to
    (
        "pushes 6\nx 0 4 1 5\nb 2 6 1 7 4 0\nend\n",
        Err(CertFault::OpenPush(0, 5, Dir::Right)),
    ),
    // with a price that is too high
    (
        "pushes 6\nx 0 4 1 5\nx 1 5 1 6\nb 2 6 1 7 5 0\nend\n",
        Err(CertFault::BadReason(2)),
    ),
    // with the start twice, the player on two squares of it
    (
        "pushes 6\nx 0 4 1 5\nx 0 3 1 5\nx 1 5 1 6\nb 2 6 1 7 4 0\nend\n",
        Err(CertFault::Duplicate(1)),
    ),
    // with the box on one square twice, the player on either side
    (
        "pushes 6\nx 0 4 1 5\nx 1 5 1 6\nb 2 6 1 7 4 0\nb 3 8 1 6 3 0\nend\n",
        SIX_PUSHES,
    ),
];

/// The corridor with other claims.
const CORRIDOR_OF_OTHER_PUSHES: [Case; 8] = [
    (
        "pushes 5\nx 0 4 1 5\nx 1 5 1 6\nb 2 6 1 7 4 0\nend\n",
        Ok(Claim::Pushes(5)),
    ),
    (
        "pushes 7\nx 0 4 1 5\nx 1 5 1 6\nb 2 6 1 7 4 0\nend\n",
        Err(CertFault::BadReason(2)),
    ),
    (
        "unsolvable\nx 0 4 1 5\nx 1 5 1 6\nb 2 6 1 7 4 0\nend\n",
        Err(CertFault::BadReason(2)),
    ),
    // two pushes are made, and no more is claimed
    (
        "pushes 2\nx 0 4 1 5\nx 1 5 1 6\ns 2 6 1 7\nend\n",
        TWO_PUSHES,
    ),
    (
        "pushes 3\nx 0 4 1 5\nx 1 5 1 6\ns 2 6 1 7\nend\n",
        Err(CertFault::BadReason(2)),
    ),
    (
        "pushes 2\nx 0 4 1 5\ns 2 6 1 7\nend\n",
        Err(CertFault::OpenPush(0, 5, Dir::Right)),
    ),
    (
        "pushes 2\nx 1 5 1 6\nx 0 4 1 5\ns 2 6 1 7\nend\n",
        TWO_PUSHES,
    ),
    // a box with the player on one side of it does not stand for the player on the other side
    (
        "\
unsolvable
x 0 4 1 5
x 0 5 1 6
x 0 6 1 7
c 0 7 1 8 1 0
c 0 7 1 1 1 0
c 0 7 1 10 1 0
end
",
        Err(CertFault::OpenPush(2, 7, Dir::Left)),
    ),
];

const NO_BOX_INSIDE: [Case; 1] = [("pushes 0\ns 0 0 0\nend\n", NO_PUSHES)];

const BOX_BEYOND_THE_GOAL: [Case; 1] = [("unsolvable\nc 0 0 1 2 1 0\nend\n", UNSOLVABLE)];

const TWO_BOXES_FOR_ONE_GOAL: [Case; 1] = [("unsolvable\nc 0 12 2 1 3 2 0 1\nend\n", UNSOLVABLE)];

const ONE_PUSH_LEFT: [Case; 1] = [(
    "pushes 1\nx 0 2 1 1\nend\n",
    Err(CertFault::OpenPush(0, 1, Dir::Left)),
)];

const ONE_PUSH_UP: [Case; 1] = [(
    "pushes 1\nx 0 2 1 1\nend\n",
    Err(CertFault::OpenPush(0, 1, Dir::Up)),
)];

const ONE_PUSH_DOWN: [Case; 1] = [(
    "pushes 1\nx 0 0 1 1\nend\n",
    Err(CertFault::OpenPush(0, 1, Dir::Down)),
)];

/// Returns the claim that a text shows for a board, or its first fault.
pub(crate) fn judged(alloc: Global, board: &Board, text: &[u8]) -> Result<Claim, CertFault> {
    let certificate = read(alloc, text)?;
    Ok(check(alloc, board, &certificate)?.claim())
}

/// Does the same for a text that comes in pieces of so many bytes.
fn judged_in_pieces(
    alloc: Global,
    board: &Board,
    text: &[u8],
    size: usize,
) -> Result<Claim, CertFault>
    requires { 0 < size }
{
    let mut pieces = Vec::new(alloc);
    for piece in text.chunks(size) {
        pieces.push(Vec::from_slice(alloc, piece)?)?;
    }
    Ok(judge_pieces(alloc, board, pieces.as_slice())?.claim())
}

/// Judges a text, whole and in pieces of several sizes.
pub(crate) fn judge_text(
    rt: &impl Abort,
    alloc: Global,
    board: &Board,
    text: &[u8],
    told: Result<Claim, CertFault>,
) {
    assert_eq!(rt; judged(alloc, board, text), told);
    assert_eq!(rt; judged_in_pieces(alloc, board, text, 1000), told);
    for size in 1..8 {
        assert_eq!(rt;
            judged_in_pieces(alloc, board, text, size),
            told,
            "in pieces of {size}"
        );
    }
}

/// Judges the certificate with these lines after the first.
fn judge_lines(
    rt: &impl Abort,
    alloc: Global,
    board: &Board,
    lines: &str,
    told: Result<Claim, CertFault>,
) -> Result<(), Fail> {
    let mut text = String::from_str(alloc, "sokoban-certificate 1\n")?;
    text.push_str(lines)?;
    judge_text(rt, alloc, board, text.as_bytes(), told);
    Ok(())
}

/// Judges each case of a board.
fn judge(rt: &impl Abort, alloc: Global, rows: &str, cases: &[Case]) -> Result<(), Fail> {
    let board = sets::board(alloc, rows)?;
    for (lines, told) in cases {
        judge_lines(rt, alloc, &board, lines, *told)?;
    }
    Ok(())
}

/// Levels of one push, and levels that are solved at their start.
fn judge_corridors(rt: &impl Abort, alloc: Global) -> Result<(), Fail> {
    judge(rt, alloc, sketch::ONE_PUSH, &ONE_PUSH)?;
    judge(rt, alloc, sketch::SOLVED, &SOLVED)?;
    judge(rt, alloc, sketch::NO_BOX_INSIDE, &NO_BOX_INSIDE)?;
    judge(rt, alloc, sketch::ONE_PUSH_LEFT, &ONE_PUSH_LEFT)?;
    judge(rt, alloc, sketch::ONE_PUSH_UP, &ONE_PUSH_UP)?;
    judge(rt, alloc, sketch::ONE_PUSH_DOWN, &ONE_PUSH_DOWN)
}

/// Levels without a solution.
fn judge_unsolvable(rt: &impl Abort, alloc: Global) -> Result<(), Fail> {
    judge(rt, alloc, sketch::TWO_IN_A_ROW, &TWO_IN_A_ROW)?;
    judge(rt, alloc, sketch::BOX_BEYOND_THE_GOAL, &BOX_BEYOND_THE_GOAL)?;
    let crowd = &TWO_BOXES_FOR_ONE_GOAL;
    judge(rt, alloc, sketch::TWO_BOXES_FOR_ONE_GOAL, crowd)
}

/// Rooms.
fn judge_rooms(rt: &impl Abort, alloc: Global) -> Result<(), Fail> {
    judge(rt, alloc, sketch::ROOM_OF_TWO_ROWS, &ROOM_OF_TWO_ROWS)?;
    let two_boxes = &TWO_BOXES_AND_THREE_GOALS;
    judge(rt, alloc, sketch::TWO_BOXES_AND_THREE_GOALS, two_boxes)
}

fn judge_six_pushes(rt: &impl Abort, alloc: Global) -> Result<(), Fail> {
    let cases = &CORRIDOR_OF_SIX_PUSHES;
    judge(rt, alloc, sketch::CORRIDOR_OF_SIX_PUSHES, cases)
}

fn judge_other_pushes(rt: &impl Abort, alloc: Global) -> Result<(), Fail> {
    let cases = &CORRIDOR_OF_OTHER_PUSHES;
    judge(rt, alloc, sketch::CORRIDOR_OF_SIX_PUSHES, cases)
}

#[test]
fn certificates_of_levels(rt: HostRuntime) -> Result<(), Fail> {
    judge_corridors(&rt, rt.alloc())?;
    judge_unsolvable(&rt, rt.alloc())?;
    judge_rooms(&rt, rt.alloc())?;
    judge_six_pushes(&rt, rt.alloc())?;
    judge_other_pushes(&rt, rt.alloc())
}

/// Judges the fronts of each length of a text whose certificate ends after 69 bytes.
fn judge_each_front(rt: &impl Abort, alloc: Global, board: &Board, text: &[u8]) {
    for length in 0..=text.len() {
        let told = match length {
            0..=29 => Err(CertFault::Header),
            30..=67 => Err(CertFault::Truncated),
            68 | 69 => SIX_PUSHES,
            _ => Err(CertFault::Line(7)),
        };
        judge_text(rt, alloc, board, &text[..length], told);
    }
}

/// A certificate that is cut off anywhere is refused. Only its last line may lack its line end.
/// Nothing may follow it, not even the same certificate again.
#[test]
fn corridor_cut_at_each_length(rt: HostRuntime) -> Result<(), Fail> {
    let alloc = rt.alloc();
    let once = "sokoban-certificate 1\npushes 6\nx 0 4 1 5\nx 1 5 1 6\nb 2 6 1 7 4 0\nend\n";
    let twice = once.repeat(alloc, 2)?;
    let board = sets::board(alloc, sketch::CORRIDOR_OF_SIX_PUSHES)?;
    judge_each_front(&rt, alloc, &board, twice.as_bytes());
    Ok(())
}
