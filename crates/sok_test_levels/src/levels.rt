//! Which rows are a level.

use sok_rules::cell::Cell;
use sok_rules::fault::LevelFault;
use sok_rules::level::Level;
use sok_sketch::sketch;
use std::alloc::{AllocError, Global};
use std::test::Fail;

const WALLS: &[Cell] = &[Cell::Wall, Cell::Wall];

const PLAYERS: &[Cell] = &[Cell::ManOff, Cell::ManOff];

/// A player and a box.
const BOTH: &[Cell] = &[Cell::ManOff, Cell::BoxOff];

/// Rows without a wall, which no board line holds.
#[test]
fn rows_without_a_wall(rt: HostRuntime) -> Result<(), Fail> {
    let cases: &[(&[&[Cell]], LevelFault)] = &[
        (&[BOTH], LevelFault::NoWall(0)),
        (&[WALLS, &[Cell::Floor], BOTH], LevelFault::NoWall(1)),
        // the first fault in the order of refusal
        (&[PLAYERS], LevelFault::NoWall(0)),
        (&[], LevelFault::NoPlayer),
    ];
    for &(cells, fault) in cases {
        let mut rows = Vec::new(rt.alloc());
        for row in cells {
            rows.push(Vec::from_slice(rt.alloc(), row)?)?;
        }
        assert_eq!(rt; Level::new(rows).err(), Some(fault), "{cells:?}");
    }
    Ok(())
}

/// Returns the fault of a level with so many columns in the second row and rows of walls below it.
fn fault_of(alloc: Global, columns: usize, walls: usize) -> Result<Option<LevelFault>, AllocError> {
    let mut board = String::from_str(alloc, "#@$.#\n")?;
    board.push_str("#".repeat(alloc, columns)?.as_str())?;
    board.push_str("   \n")?;
    board.push_str("#\n".repeat(alloc, walls)?.as_str())?;
    Ok(sketch::level(alloc, board.as_str()).err())
}

/// The widest and the tallest level, and one larger each. Floor at the end of a row does not count.
#[test]
fn sizes_of_levels(rt: HostRuntime) -> Result<(), Fail> {
    for &(columns, walls, fault) in &[
        (128, 0, None),
        (129, 0, Some(LevelFault::TooWide)),
        (1, 126, None),
        (1, 127, Some(LevelFault::TooTall)),
        (1, 1000, Some(LevelFault::TooTall)),
        (129, 127, Some(LevelFault::TooTall)),
    ] {
        let found = fault_of(rt.alloc(), columns, walls)?;
        assert_eq!(rt; found, fault, "{columns} columns, {walls} rows");
    }
    Ok(())
}
