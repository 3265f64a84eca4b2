//! Two or three boxes that can't be solved, even alone.

ghost use Rattle.std.specs.Prelude.{OnOk};
ghost use Rattle.sok_alone.specs.Losses.{KeepsLosses};

use crate::setting::{board, distances, placed, setting};
use sok_alone::finding::find_pattern;
use sok_alone::losses::Losses;
use sok_board::area::Sq;
use sok_distance::setting::Setting;
use sok_rules::cell::Dir;
use sok_sketch::sketch::{PAIR_THAT_IS_LOST, THREE_THAT_ARE_LOST};
use std::alloc::Global;
use std::process::Abort;
use std::test::Fail;

/// Two boxes, a limit, and how many positions of them alone are listed, if they can't be solved.
type Case = (Sq, Sq, u32, Option<usize>);

const CASES: [Case; 5] = [
    // the first push brings the box on 10 before the one on 12, and it stays there
    (10, 12, 2, Some(2)),
    (10, 12, 1000, Some(2)),
    (10, 12, 1, None),
    // the box on 7 reaches 16, and the one on 10 reaches 13
    (7, 10, 1000, None),
    (7, 12, 1000, None),
];

/// Returns how many positions the pattern of two boxes has, if there is one.
fn positions(
    rt: &impl Abort,
    alloc: Global,
    setting: &Setting<'_>,
    first: Sq,
    second: Sq,
    limit: u32,
) -> Result<Option<usize>, Fail> {
    let boxes = placed(rt, alloc, setting.board, &[7, 10, 12], 9)?;
    assert!(rt; first < second && limit > 0);
    assert!(rt; boxes.has(first) && boxes.has(second));
    match find_pattern(alloc, setting, &boxes, 9, first, second, limit)? {
        Some(pattern) => Ok(Some(pattern.inner.as_slice().len())),
        None => Ok(None),
    }
}

/// Asserts for each two boxes how many positions of them alone are listed.
fn ask_each(rt: &impl Abort, alloc: Global, setting: &Setting<'_>) -> Result<(), Fail> {
    for &(first, second, limit, answer) in &CASES {
        let found = positions(rt, alloc, setting, first, second, limit)?;
        assert_eq!(rt; found, answer, "{first} and {second} within {limit}");
    }
    Ok(())
}

#[test]
fn two_boxes_alone(rt: HostRuntime) -> Result<(), Fail> {
    let alloc = rt.alloc();
    let board = board(alloc, PAIR_THAT_IS_LOST)?;
    let distances = distances(alloc, &board)?;
    let setting = setting(&board, &distances);
    ask_each(&rt, alloc, &setting)
}

/// Boxes, one of them, the direction in which it is pushed, the square that it reaches, and whether
/// it can't be solved from there with another box, or with two that are close, even alone.
pub(crate) type PushCase = ([Sq; 3], Sq, Dir, Sq, bool);

pub(crate) const PUSHES_OF_TWO: [PushCase; 6] = [
    // two boxes that follow one another into the corridor
    ([7, 9, 12], 9, Dir::Right, 10, true),
    ([7, 10, 12], 10, Dir::Right, 11, true),
    // the player has gone around them
    ([7, 11, 12], 11, Dir::Left, 10, false),
    ([6, 7, 12], 7, Dir::Right, 8, false),
    // the two lost boxes are not those of which one is pushed
    ([7, 10, 12], 7, Dir::Left, 6, false),
    ([7, 9, 12], 7, Dir::Left, 6, false),
];

const PUSHES_OF_THREE: [PushCase; 4] = [
    ([6, 14, 15], 6, Dir::Left, 5, true),
    // the goal below is free, or can be left
    ([6, 15, 16], 6, Dir::Left, 5, false),
    ([6, 14, 16], 6, Dir::Left, 5, false),
    // the box reaches another goal
    ([6, 14, 15], 6, Dir::Right, 7, false),
];

/// Returns whether the pushed box and one or two others are lost after the push.
fn is_lost(
    rt: &impl Abort,
    alloc: Global,
    setting: &Setting<'_>,
    losses: &mut Losses,
    player: Sq,
    case: &PushCase,
) -> Result<bool, Fail>
    requires { KeepsLosses setting.now.board.now losses.old }
    ensures { OnOk result (KeepsLosses setting.now.board.now losses.new) }
{
    let (squares, from, dir, to, _lost) = case;
    let boxes = placed(rt, alloc, setting.board, squares, player)?;
    assert!(rt; boxes.has(*from) && !boxes.has(*to));
    assert!(rt; (*to as usize) < setting.board.squares());
    let place = losses.loss_after(alloc, setting, 1_000, &boxes, *from, *dir, *to, true)?;
    Ok(place.is_some())
}

/// Asks the same losses for each push twice.
fn ask_twice(
    rt: &impl Abort,
    alloc: Global,
    setting: &Setting<'_>,
    player: Sq,
    cases: &[PushCase],
) -> Result<(), Fail> {
    let mut losses = Losses::new(alloc, setting.board)?;
    let asked = ask_by(rt, alloc, setting, &mut losses, player, cases);
    losses.let_go();
    asked
}

/// Does the same with borrowed losses, since a proof would treat the drop of owned ones at each
/// exit.
fn ask_by(
    rt: &impl Abort,
    alloc: Global,
    setting: &Setting<'_>,
    losses: &mut Losses,
    player: Sq,
    cases: &[PushCase],
) -> Result<(), Fail>
    requires { KeepsLosses setting.now.board.now losses.old }
{
    for _round in 0..2 {
        for case in cases {
            let lost = is_lost(rt, alloc, setting, losses, player, case)?;
            assert_eq!(rt; lost, case.4, "{} to {}", case.1, case.3);
        }
    }
    Ok(())
}

#[test]
fn a_pair_is_lost_however_often_it_is_asked(rt: HostRuntime) -> Result<(), Fail> {
    let alloc = rt.alloc();
    let board = board(alloc, PAIR_THAT_IS_LOST)?;
    let distances = distances(alloc, &board)?;
    let setting = setting(&board, &distances);
    ask_twice(&rt, alloc, &setting, 15, &PUSHES_OF_TWO)
}

#[test]
fn three_boxes_are_lost_though_no_two_are(rt: HostRuntime) -> Result<(), Fail> {
    let alloc = rt.alloc();
    let board = board(alloc, THREE_THAT_ARE_LOST)?;
    let distances = distances(alloc, &board)?;
    let setting = setting(&board, &distances);
    ask_twice(&rt, alloc, &setting, 12, &PUSHES_OF_THREE)
}
