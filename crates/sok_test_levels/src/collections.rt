//! Which levels a text holds, their titles and their texts.

use sok_rules::cell::{Cell, Dir};
use sok_rules::fault::LevelFault;
use sok_rules::level::Level;
use sok_sketch::sketch;
use sok_text::collection::Collection;
use sok_text::lurd::print_lurd;
use sok_text::print::print_level;
use std::alloc::{AllocError, Global};
use std::process::Abort;
use std::test::Fail;

/// Returns the text of a level's rows.
fn drawn(alloc: Global, level: &Level) -> Result<String, AllocError> {
    let mut text = String::new(alloc);
    for row in level.rows() {
        for cell in row {
            text.push_str(match cell {
                Cell::Wall => "#",
                Cell::Floor => " ",
                Cell::Goal => ".",
                Cell::BoxOff => "$",
                Cell::BoxOn => "*",
                Cell::ManOff => "@",
                Cell::ManOn => "+",
            })?;
        }
        text.push_str("\n")?;
    }
    Ok(text)
}

/// Three levels, of which the second has two players.
const NOTES: &str = "\
; First
#####
#@$.#
#####

######
#@$@.#
######

#####
#@$.#
#####
Title: Third";

/// Returns whether a level of a text is drawn like this, or has this fault.
fn is_drawn(
    alloc: Global,
    text: &[u8],
    n: usize,
    told: Result<&str, LevelFault>,
) -> Result<bool, Fail> {
    let collection = Collection::read(alloc, text)?;
    match collection.level(alloc, n) {
        Ok(level) => Ok(told == Ok(drawn(alloc, &level)?.as_str())),
        Err(fault) => Ok(told == Err(fault)),
    }
}

/// Lines that end with CR LF.
const RETURNS: &str = "-#####\r\n-#@$.#\r\n-#####\r\n";

/// Levels of a text by their numbers, or their faults.
#[test]
fn levels_by_their_numbers(rt: HostRuntime) -> Result<(), Fail> {
    for &(text, n, told) in &[
        (NOTES, 0, Err(LevelFault::NoSuchLevel)),
        (NOTES, 1, Ok(sketch::ONE_PUSH)),
        (NOTES, 2, Err(LevelFault::ManyPlayers)),
        (NOTES, 3, Ok(sketch::ONE_PUSH)),
        (NOTES, 4, Err(LevelFault::NoSuchLevel)),
        (RETURNS, 1, Ok(" #####\n #@$.#\n #####\n")),
        (RETURNS, 2, Err(LevelFault::NoSuchLevel)),
        (sketch::NO_PLAYER, 1, Err(LevelFault::NoPlayer)),
        (
            sketch::TWO_PLAYERS_ONE_ON_A_GOAL,
            1,
            Err(LevelFault::ManyPlayers),
        ),
        (sketch::NO_BOX, 1, Err(LevelFault::NoBox)),
        // the first fault in the order of refusal
        (sketch::NEITHER_PLAYER_NOR_BOX, 1, Err(LevelFault::NoPlayer)),
    ] {
        assert!(rt;
            is_drawn(rt.alloc(), text.as_bytes(), n, told)?,
            "level {n}"
        );
    }
    Ok(())
}

/// A title follows `Title:` after a board. Otherwise it is in the last note before the board.
#[test]
fn titles_by_their_numbers(rt: HostRuntime) -> Result<(), Fail> {
    let collection = Collection::read(rt.alloc(), NOTES.as_bytes())?;
    let titles: &[(usize, Option<&[u8]>)] = &[
        (0, None),
        (1, Some(b"First")),
        (2, None),
        (3, Some(b"Third")),
        (4, None),
    ];
    for &(n, title) in titles {
        assert!(rt; collection.title(n) == title, "level {n}");
    }
    Ok(())
}

/// Returns whether the first level of a text is printed like this, and a letter to the right on it
/// like that.
fn prints(alloc: Global, text: &str, level: &str, letter: &str) -> Result<bool, Fail> {
    let first = Collection::read(alloc, text.as_bytes())?.level(alloc, 1)?;
    let rows = print_level(alloc, &first)?;
    let letters = print_lurd(alloc, &first, &[Dir::Right])?;
    Ok(rows.as_slice() == level.as_bytes() && letters.as_slice() == letter.as_bytes())
}

/// Each row is printed with LF after it, and without the floor at its end. A letter that pushes is
/// in upper case.
#[test]
fn levels_and_letters_are_printed(rt: HostRuntime) -> Result<(), Fail> {
    for &(text, level, letter) in &[
        ("####\n#@$.#  \n#####\n", "####\n#@$.#\n#####\n", "R"),
        (RETURNS, " #####\n #@$.#\n #####\n", "R"),
        (sketch::ROOM_OF_TWO_ROWS, sketch::ROOM_OF_TWO_ROWS, "r"),
    ] {
        assert!(rt; prints(rt.alloc(), text, level, letter)?, "{text:?}");
    }
    Ok(())
}

/// Returns how many levels a text has, and the fault of the first.
fn levels_and_fault(alloc: Global, text: &[u8]) -> Result<(usize, Option<LevelFault>), Fail> {
    let collection = Collection::read(alloc, text)?;
    let fault = collection.level(alloc, 1).err();
    Ok((collection.len(), fault))
}

/// Packed lines of many rows and of long rows. Floor at the ends of rows does not count.
#[test]
fn packed_lines_at_their_limits(rt: HostRuntime) -> Result<(), Fail> {
    for &(part, times, behind, fault) in &[
        ("", 0, "128#|#@$.#", None),
        ("", 0, "128##|#@$.#", Some(LevelFault::TooWide)),
        ("", 0, "#127-#|#@$.#", Some(LevelFault::TooWide)),
        ("", 0, "64#128-128-|#@$.#128-", None),
        ("", 0, "64#128-128-*|#@$.#", Some(LevelFault::TooWide)),
        ("", 0, "128#128#|#@$.#", Some(LevelFault::TooWide)),
        ("#|", 127, "#@$.#", None),
        ("#|", 128, "#@$.#", Some(LevelFault::TooTall)),
        ("#|", 127, "#@$.#|", None),
        ("128#|", 129, "#@$.#", Some(LevelFault::TooTall)),
    ] {
        let mut text = part.repeat(rt.alloc(), times)?;
        text.push_str(behind)?;
        let found = levels_and_fault(rt.alloc(), text.as_bytes())?;
        assert!(rt; found == (1, fault), "{times} times {part} and {behind}");
    }
    Ok(())
}

/// Returns whether a text has so many levels, and the first one so many rows.
fn has_levels(
    alloc: Global,
    text: &[u8],
    levels: usize,
    rows: Option<usize>,
) -> Result<bool, Fail> {
    let collection = Collection::read(alloc, text)?;
    Ok(collection.len() == levels && rows_of(alloc, &collection, 1).ok() == rows)
}

/// Returns how many rows a level has.
fn rows_of(alloc: Global, collection: &Collection<'_>, n: usize) -> Result<usize, LevelFault> {
    Ok(collection.level(alloc, n)?.rows().len())
}

/// The number of levels in a text, and the number of rows of the first.
#[test]
fn board_lines_and_notes(rt: HostRuntime) -> Result<(), Fail> {
    let cases: &[(&[u8], usize, Option<usize>)] = &[
        (b"", 0, None),
        (b"#####\n#@$.#\n#####", 1, Some(3)),
        (b"#####\n#@$.#\n#####\r", 1, Some(2)),
        (b"#####\n#@$.#\n#####\r\r\n", 1, Some(2)),
        (
            b"; one\r\n#####\r\n#@$.#\r\n\r\n#@$.#\r\nTitle: two\r\n",
            2,
            Some(2),
        ),
        (b"#####\n#@$.#\n\n#####\n", 2, Some(2)),
        (b"#####\n#@$.#\n \t\n#####\n", 2, Some(2)),
        (b"#####\n#@$.#\n;####\n#####\n", 2, Some(2)),
        (b"#####\n#@$.#\n@ $ .\n#####\n", 2, Some(2)),
        (b"#####\n#@$.#\n#p$.#\n#####\n", 2, Some(2)),
        (b"#####\n#@$.#\n#\t$.#\n#####\n", 2, Some(2)),
        (b"#@$.#\n\xef\xbb\xbf#####\n", 1, Some(1)),
        (b"\xef\xbb\xbf#####\n#@$.#\n", 1, Some(1)),
        (b"\xff\x00\n#_@-$ *  .#\n", 1, Some(1)),
        (b"#@$.#\r#####\n", 0, None),
        // packed lines, each a level by itself
        (b"6#|#4-#|#-$@.#|6#", 1, Some(4)),
        (b"6#|#4-#|#-$@.#|6#|\r\n", 1, Some(4)),
        (b"5#|#@$.#|5#\n5#|#@$.#\n", 2, Some(3)),
        (b"#@$.#\n5#|#@$.#|005#\n#####\n", 3, Some(1)),
        (b"#####\n5#\n#@$.#\n", 2, None),
        (b"0#|#", 0, None),
        (b"129#|#@$.#", 0, None),
        (b"0005#|#@$.#", 0, None),
        (b"5#|#@$.#5", 0, None),
        (b"5#|#@$.#3|#", 0, None),
        (b"5-|@$.", 0, None),
    ];
    for &(text, levels, rows) in cases {
        assert!(rt; has_levels(rt.alloc(), text, levels, rows)?, "in {text:?}");
    }
    Ok(())
}

/// A small level with notes.
const SMALL: &str = "\
; A level of the microscopic kind, number one
####
# .#
#  ###
#*@  #
#  $ #
#  ###
####
Author: nobody in particular, and nothing else is known of it, nor of it

";

/// Asserts that a collection has so many levels, the last of them of seven rows.
fn assert_levels(rt: &impl Abort, alloc: Global, collection: &Collection<'_>, times: usize) {
    assert_eq!(rt; collection.len(), times);
    assert_eq!(rt; rows_of(alloc, collection, times), Ok(7));
    assert_eq!(rt;
        rows_of(alloc, collection, times.saturating_add(1)),
        Err(LevelFault::NoSuchLevel)
    );
}

/// Some 100,000 small levels in 16 MiB.
#[test]
fn sixteen_mebibytes_of_small_levels(rt: HostRuntime) -> Result<(), Fail> {
    let small = SMALL.as_bytes();
    let times = 16 * 1024 * 1024 / small.len();
    let text = small.repeat(rt.alloc(), times)?;
    let collection = Collection::read(rt.alloc(), &text)?;
    assert_levels(&rt, rt.alloc(), &collection, times);
    Ok(())
}
