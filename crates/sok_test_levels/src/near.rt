//! Which lines of a text are almost lines of a board, whatever pieces its bytes come in.

use sok_near::near::NearLine;
use sok_near::scan::NearScan;
use std::test::Fail;

/// Scans a text that comes as a whole.
fn scanned(text: &str) -> NearScan {
    let mut scan = NearScan::new();
    scan.pass(text.as_bytes());
    scan.end();
    scan
}

/// Scans a text that comes byte by byte.
fn scanned_slowly(text: &str) -> NearScan {
    let mut scan = NearScan::new();
    for byte in text.as_bytes() {
        scan.pass(&[*byte]);
    }
    scan.end();
    scan
}

fn is_found(scan: &NearScan, first: &[(u64, usize)], count: u64) -> bool {
    let first = first.iter().map(|(line, place)| NearLine {
        line: *line,
        place: *place,
    });
    scan.count() == count && scan.first().iter().copied().eq(first)
}

/// A text, the first lines in it that are almost lines of a board, by number and place, and how
/// many there are.
type Row = (&'static str, &'static [(u64, usize)], u64);

const ROWS: [Row; 5] = [
    (
        "#####\n#@$.#\n#####\n; #1\nTitle: ##\n\n6#|#4-#|6#\n",
        &[],
        0,
    ),
    // a byte order mark, only at the front; a tab; digits and bars of no packed line
    (
        "\u{feff}#####\n#\u{feff}#\n# \t#\n\t\t##\n#3\n#|3\n",
        &[(1, 0), (3, 2), (5, 1)],
        3,
    ),
    // a carriage return belongs to a line end, and otherwise to the line
    ("##\r\n##\r\r\n#\r#\r\n##\r", &[(2, 2), (3, 1), (4, 2)], 3),
    // letters are not part of boards, and a line without a wall is not a line of a board
    ("# @ x #\n  x\nx#", &[(1, 4), (3, 0)], 2),
    (
        "#x\n#x\n#x\n#x\n#x\n#x\n#x\n#x\n#x\n#x\n#x\n#x\n",
        &[
            (1, 1),
            (2, 1),
            (3, 1),
            (4, 1),
            (5, 1),
            (6, 1),
            (7, 1),
            (8, 1),
            (9, 1),
            (10, 1),
        ],
        12,
    ),
];

#[test]
fn lines_near_a_board(rt: HostRuntime) -> Result<(), Fail> {
    for &(text, first, count) in &ROWS {
        assert!(rt; is_found(&scanned(text), first, count), "{text:?}");
        assert!(rt; is_found(&scanned_slowly(text), first, count), "{text:?}");
    }
    Ok(())
}
