//! Levels around the columns 63 and 64, between which a word of a bit row ends, and levels of 128
//! rows and 128 columns.

use crate::answers::{
    GOALS_IN_THREE_CORNERS, RING_OF_BOXES, SLANTED_ROOM, TWO_CHAMBERS, is_solved, is_unsolvable,
};
use sok_sketch::rooms::CORRIDOR_AROUND;
use std::alloc::{AllocError, Global};
use std::test::Fail;

/// Returns a board with so many columns of walls before it.
fn moved(alloc: Global, board: &str, columns: usize) -> Result<String, AllocError> {
    let walls = "#".repeat(alloc, columns)?;
    let mut text = String::new(alloc);
    for row in board.lines() {
        text.push_str(walls.as_str())?;
        text.push_str(row)?;
        text.push_str("\n")?;
    }
    Ok(text)
}

/// Each square of a board comes to be on either side of the two columns, and boxes are pushed along
/// and across them.
#[test]
fn levels_about_two_columns(rt: HostRuntime) -> Result<(), Fail> {
    for columns in 57..64 {
        for &(board, limit, pushes) in &[
            (RING_OF_BOXES, 1_140, 3),
            (GOALS_IN_THREE_CORNERS, 216, 4),
            (TWO_CHAMBERS, 54, 4),
        ] {
            let board = moved(rt.alloc(), board, columns)?;
            assert!(rt;
                is_solved(rt.alloc(), board.as_str(), limit, pushes)?,
                "{board}"
            );
        }
        let board = moved(rt.alloc(), SLANTED_ROOM, columns)?;
        assert!(rt; is_unsolvable(rt.alloc(), board.as_str(), 86)?, "{board}");
    }
    Ok(())
}

/// The player walks once around, and pushes the box from column 62 to 66.
#[test]
fn a_level_of_128_rows_and_columns(rt: HostRuntime) -> Result<(), Fail> {
    let board = CORRIDOR_AROUND.text(rt.alloc())?;
    assert!(rt; is_solved(rt.alloc(), board.as_str(), 126, 4)?);
    Ok(())
}
