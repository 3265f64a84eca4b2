//! Sets of boxes, and moving a box of one.

use crate::setting::board;
use sok_board::area::Sq;
use sok_sketch::sets::box_set;
use sok_sketch::{rooms, sketch};
use std::alloc::Global;
use std::process::Abort;
use std::test::Fail;

/// Returns whether a copy of a set has the same squares.
fn copies(alloc: Global, boxes: &[Sq]) -> Result<bool, Fail> {
    let copy = box_set(alloc, boxes)?.copy(alloc)?;
    Ok(copy.list() == boxes)
}

/// Returns whether a set begins with these squares after a box is moved, and has as many as before.
fn moves(
    rt: &impl Abort,
    alloc: Global,
    boxes: &[Sq],
    from: Sq,
    to: Sq,
    front: &[Sq],
) -> Result<bool, Fail> {
    let set = box_set(alloc, boxes)?;
    assert!(rt; set.has(from) && !set.has(to));
    let after = set.moved(alloc, from, to)?;
    let after = after.list();
    Ok(after.len() == boxes.len() && after.starts_with(front))
}

/// Returns whether a board has so many boxes, and their set can be copied and changed.
fn has_boxes(
    rt: &impl Abort,
    alloc: Global,
    text: &str,
    count: usize,
    from: Sq,
    to: Sq,
    front: &[Sq],
) -> Result<bool, Fail> {
    let board = board(alloc, text)?;
    let (_, boxes) = board.start();
    Ok(boxes.len() == count && copies(alloc, boxes)? && moves(rt, alloc, boxes, from, to, front)?)
}

#[test]
fn one_box(rt: HostRuntime) -> Result<(), Fail> {
    let text = sketch::CORRIDOR_OF_SIX_PUSHES;
    assert!(rt; has_boxes(&rt, rt.alloc(), text, 1, 5, 6, &[6])?);
    Ok(())
}

/// Sets that need an allocation.
#[test]
fn many_boxes(rt: HostRuntime) -> Result<(), Fail> {
    for &(room, count) in &[
        (rooms::ROOM_OF_17_BOXES, 17),
        (rooms::ROOM_OF_128_BOXES, 128),
    ] {
        let text = room.text(rt.alloc())?;
        assert!(rt; has_boxes(&rt, rt.alloc(), text.as_str(), count, 32, 0, &[0, 33, 34])?);
    }
    Ok(())
}
