//! The states of a level, and their pushes.

ghost use Rattle.std.specs.Prelude.{IfOk};
ghost use Rattle.sok_state.specs.Keys.{IsKey};

use crate::setting::{board, placed};
use sok_board::area::Sq;
use sok_board::board::Board;
use sok_rules::cell::Dir;
use sok_sketch::sketch;
use sok_state::key::Key;
use sok_state::legal::pushes;
use sok_state::push::Push;
use sok_state::stepping::after;
use std::alloc::Global;
use std::process::Abort;
use std::test::Fail;

/// Returns the key of a position. Its boxes must rise, and its squares must exist.
fn key(rt: &impl Abort, alloc: Global, board: &Board, boxes: &[Sq], player: Sq) -> Result<Key, Fail>
    ensures { IfOk result (IsKey board.now) }
{
    let boxes = placed(rt, alloc, board, boxes, player)?;
    Ok(Key::of(alloc, board, &boxes, player)?)
}

/// Returns whether the key of a box and a player has this least square, and whether it is the state
/// with the box on 6 and the player on its left, as `same` says.
fn has_key(
    rt: &impl Abort,
    alloc: Global,
    board: &Board,
    square: Sq,
    player: Sq,
    least: Sq,
    same: bool,
) -> Result<bool, Fail> {
    let left = key(rt, alloc, board, &[6], 5)?;
    let found = key(rt, alloc, board, &[square], player)?;
    Ok(found.boxes.list() == [square].as_slice() && found.least == least && (found == left) == same)
}

/// The corridor, with the box on some square and the player on either side of it.
#[test]
fn keys_of_positions(rt: HostRuntime) -> Result<(), Fail> {
    let board = board(rt.alloc(), sketch::CORRIDOR_OF_SIX_PUSHES)?;
    // the box, the player, the least square of the player's region, and whether it is the state
    // with the box on 6 and the player on its left
    for &(square, player, least, same) in &[
        (5, 4, 3, false),
        (6, 3, 3, true),
        (6, 5, 3, true),
        (6, 8, 0, false),
        (6, 1, 0, false),
    ] {
        assert!(rt;
            has_key(&rt, rt.alloc(), &board, square, player, least, same)?,
            "{player}"
        );
    }
    Ok(())
}

/// Returns whether these are the pushes: from which square, and in which direction.
fn are(pushes: &[Push], told: &[(Sq, Dir)]) -> bool {
    for (i, push) in pushes.iter().enumerate() {
        if told.get(i) != Some(&(push.from, push.dir)) {
            return false;
        }
    }
    pushes.len() == told.len()
}

/// Returns whether these are the legal pushes of a state.
fn has_pushes(
    rt: &impl Abort,
    alloc: Global,
    text: &str,
    boxes: &[Sq],
    player: Sq,
    told: &[(Sq, Dir)],
) -> Result<bool, Fail> {
    let board = board(alloc, text)?;
    let state = key(rt, alloc, &board, boxes, player)?;
    let legal = pushes(alloc, &board, &state)?;
    Ok(are(&legal, told))
}

/// Returns the state after the first legal push.
fn next(alloc: Global, board: &Board, state: &Key) -> Result<Option<Key>, Fail>
    requires { IsKey board.now state.now }
{
    let legal = pushes(alloc, board, state)?;
    if legal.len() == 0 {
        return Ok(None);
    }
    Ok(Some(after(alloc, board, state, legal[0])?))
}

/// Returns whether the state after the first legal push has these boxes and this least square.
fn leads_to(
    rt: &impl Abort,
    alloc: Global,
    text: &str,
    boxes: &[Sq],
    player: Sq,
    boxes_after: &[Sq],
    least: Sq,
) -> Result<bool, Fail> {
    let board = board(alloc, text)?;
    let state = key(rt, alloc, &board, boxes, player)?;
    match next(alloc, &board, &state)? {
        Some(next) => Ok(next.boxes.list() == boxes_after && next.least == least),
        None => Ok(false),
    }
}

#[test]
fn pushes_of_states(rt: HostRuntime) -> Result<(), Fail> {
    // in the second case the player reaches each side of both boxes, below which there is a wall
    let cases: &[(&str, &[Sq], Sq, &[(Sq, Dir)])] = &[
        (sketch::CORRIDOR_OF_SIX_PUSHES, &[5], 4, &[(5, Dir::Right)]),
        (
            sketch::TWO_BOXES_AND_THREE_GOALS,
            &[8, 10],
            0,
            &[
                (8, Dir::Left),
                (8, Dir::Right),
                (10, Dir::Left),
                (10, Dir::Right),
            ],
        ),
        (
            sketch::BOX_IN_THE_OPEN,
            &[4],
            6,
            &[
                (4, Dir::Left),
                (4, Dir::Up),
                (4, Dir::Right),
                (4, Dir::Down),
            ],
        ),
    ];
    for &(text, boxes, player, told) in cases {
        assert!(rt;
            has_pushes(&rt, rt.alloc(), text, boxes, player, told)?,
            "{text}"
        );
    }
    Ok(())
}

#[test]
fn states_after_pushes(rt: HostRuntime) -> Result<(), Fail> {
    let cases: &[(&str, &[Sq], Sq, &[Sq], Sq)] = &[
        (sketch::CORRIDOR_OF_SIX_PUSHES, &[5], 4, &[6], 3),
        (sketch::TWO_BOXES_AND_THREE_GOALS, &[8, 10], 0, &[7, 10], 0),
        (sketch::BOX_IN_THE_OPEN, &[4], 6, &[3], 0),
    ];
    for &(text, boxes, player, boxes_after, least) in cases {
        assert!(rt;
            leads_to(&rt, rt.alloc(), text, boxes, player, boxes_after, least)?,
            "{text}"
        );
    }
    Ok(())
}
