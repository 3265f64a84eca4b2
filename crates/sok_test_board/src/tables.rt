//! Tables of states: a key is inserted once and can be read back.

ghost use Rattle.std.specs.Prelude.{◌<◌, ◌≤◌, All, IfOk};

use crate::setting::are_below;
use sok_board::area::{SQUARE_LIMIT, Sq};
use sok_sketch::sets::box_set;
use sok_state::key::Key;
use sok_state::table::Table;
use std::alloc::Global;
use std::process::Abort;
use std::test::Fail;

/// Returns the key with a least square and boxes on rising squares, on a board of `squares`
/// squares.
fn key(rt: &impl Abort, alloc: Global, squares: usize, boxes: &[Sq], least: Sq) -> Result<Key, Fail>
    ensures { IfOk result (λ key. All (λ square. square < squares) key.boxes) }
{
    assert!(rt; are_below(boxes, squares));
    let boxes = box_set(alloc, boxes)?;
    Ok(Key { boxes, least })
}

/// Returns whether a table has a key at an index, with a depth: it is found, and can be read back.
fn has_key(
    alloc: Global,
    squares: usize,
    table: &Table,
    key: &Key,
    index: usize,
    depth: u32,
) -> Result<bool, Fail>
    requires wide { squares ≤ table.now.room }
    requires exist { All (λ square. square < squares) key.now.boxes }
{
    let Some(at) = table.get(key) else {
        return Ok(false);
    };
    if at >= table.len() {
        return Ok(false);
    }
    let found = table.key(alloc, at)?;
    Ok(at == index && table.depth(at) == depth && found == *key)
}

/// Returns whether a table takes a key at first, and does not change when it is inserted again.
fn keeps(alloc: Global, squares: usize, table: &mut Table, key: &Key) -> Result<bool, Fail>
    requires wide { squares ≤ table.old.room }
    requires exist { All (λ square. square < squares) key.now.boxes }
{
    let first = table.insert(key, 0)?;
    let again = table.insert(key, 1)?;
    Ok(first == (0, true) && again == (0, false) && has_key(alloc, squares, table, key, 0, 0)?)
}

/// Asserts this for an empty table for so many squares.
fn assert_table(
    rt: &impl Abort,
    alloc: Global,
    squares: usize,
    boxes: &[Sq],
    least: Sq,
) -> Result<(), Fail> {
    assert!(rt; squares <= SQUARE_LIMIT);
    let key = key(rt, alloc, squares, boxes, least)?;
    let mut table = Table::new(alloc, squares);
    let kept = keeps(alloc, squares, &mut table, &key);
    table.let_go();
    assert!(rt; kept?, "{boxes:?} of {squares}");
    Ok(())
}

/// The start of the corridor, and boxes on the first and the last square of boards of each width of
/// a table, with as many boxes as a list has at most and one more.
#[test]
fn a_state_is_inserted_once(rt: HostRuntime) -> Result<(), Fail> {
    let cases: &[(usize, &[Sq], Sq)] = &[
        (12, &[5], 3),
        (128, &[0, 127], 1),
        (256, &[0, 255], 1),
        (1_024, &[0, 1_023], 1),
        (4_096, &[0, 4_095], 1),
        (
            4_096,
            &[0, 1, 2, 3, 4, 5, 6, 7, 8, 9, 10, 11, 12, 13, 14, 15, 4_095],
            16,
        ),
    ];
    for &(squares, boxes, least) in cases {
        assert_table(&rt, rt.alloc(), squares, boxes, least)?;
    }
    Ok(())
}
