//! The engines over memory, with all that they write.

use crate::answers::CORRIDOR_OF_96_PUSHES;
use sok_engine::fault::ToolFault;
use sok_play::listing::list_bytes;
use sok_play::play::replay_bytes;
use sok_rules::fault::{LevelFault, PlayFault};
use sok_sketch::sketch::ROOM_OF_TWO_ROWS;
use sok_text::lurd::LurdFault;
use std::alloc::Global;
use std::test::Fail;

const COLLECTION: &str = "; First\n#####\n#@$.#\n#####\n\n#####\n#$ .#\n#####\n\
    ; Third\n####        \n#.@#\n#$*#\n# .#\n######\n";

/// A faulty level between others, and the same board with a title after it.
const WITH_A_FAULT: &[u8] = b"; First\n#####\n#@$.#\n#####\n\n######\n#@$@.#\n######\n\n\
    #####\n#@$.#\n#####\nTitle: Third";

/// Returns whether a collection is listed with these lines.
fn lists(alloc: Global, mut collection: &[u8], lines: &[u8]) -> bool {
    let mut out = Vec::new(alloc);
    let result = list_bytes(alloc, &mut collection, &mut out);
    result == Ok(0) && out.as_slice() == lines
}

#[test]
fn lists_levels_and_faults(rt: HostRuntime) -> Result<(), Fail> {
    let cases: &[(&[u8], &[u8])] = &[
        (b"", b""),
        (
            COLLECTION.as_bytes(),
            b"1 3 5 1 1 First\n2 fault 3 NoPlayer\n3 5 6 2 3 Third\n",
        ),
        (
            WITH_A_FAULT,
            b"1 3 5 1 1 First\n2 fault 4 ManyPlayers\n3 3 5 1 1 Third\n",
        ),
        // a box on a goal outside the area
        (b"#######\n#@$.#*#\n#######\n", b"1 3 7 2 2\n"),
        // a title after the board comes first
        (b"; A\n\n#####\n#@$.#\n#####\nTitle: B\n", b"1 3 5 1 1 B\n"),
        // the last note that is not blank has no semicolon
        (b"; A\nx\n#####\n#@$.#\n#####\n", b"1 3 5 1 1\n"),
        (b";\n#####\n#@$.#\n#####\n", b"1 3 5 1 1\n"),
        (b"#####\n#@$.#\n#####\nTitle:\nTitle: C\n", b"1 3 5 1 1 C\n"),
        (b";  A b\t\n#####\n#@$.#\n#####\n", b"1 3 5 1 1 A b\n"),
        // packed lines, and lines with counts that are no packed lines
        (b"5#|#@$.#|5#", b"1 3 5 1 1\n"),
        (b"5#||#@$.#", b"1 fault 17 NoWall 1\n"),
        (b"5#", b""),
        (b"0#|#", b""),
        (CORRIDOR_OF_96_PUSHES.as_bytes(), b"1 3 100 1 1\n"),
        // bytes that are no text
        (
            b"; \xff\x00\xe9\n#####\n#@$.#\n#####\n",
            b"1 3 5 1 1 \xff\x00\xe9\n",
        ),
    ];
    for &(collection, lines) in cases {
        assert!(rt; lists(rt.alloc(), collection, lines), "of {collection:?}");
    }
    // of all texts of one byte, only a wall is a board, and it has no player
    for byte in 0..=u8::MAX {
        let lines: &[u8] = match byte {
            b'#' => b"1 fault 3 NoPlayer\n",
            _ => b"",
        };
        assert!(rt; lists(rt.alloc(), &[byte], lines), "of the byte {byte}");
    }
    Ok(())
}

/// Returns whether a text on a level of a collection has this line as its answer.
fn is_answered(
    alloc: Global,
    mut collection: &[u8],
    n: usize,
    text: &[u8],
    line: &str,
    answer: Result<u8, ToolFault>,
) -> bool {
    let mut out = Vec::new(alloc);
    let result = replay_bytes(alloc, &mut collection, n, text, &mut out);
    result == answer && out.as_slice() == line.as_bytes()
}

/// A collection, the number of a level, a text on it, the line that is written, and the status or the
/// fault.
type Replay = (
    &'static str,
    usize,
    &'static str,
    &'static str,
    Result<u8, ToolFault>,
);

const TOO_LONG: Result<u8, ToolFault> = Err(ToolFault::Lurd(LurdFault::TooLong));

const REPLAYS: [Replay; 13] = [
    (COLLECTION, 1, "R", "solved 1 1\n", Ok(0)),
    (COLLECTION, 3, "l", "open 0 1\n", Ok(1)),
    (
        COLLECTION,
        1,
        "x",
        "",
        Err(ToolFault::Lurd(LurdFault::BadLetter(0))),
    ),
    (
        COLLECTION,
        1,
        "rr",
        "",
        Err(ToolFault::Play(PlayFault::Blocked(1))),
    ),
    (
        COLLECTION,
        2,
        "x",
        "",
        Err(ToolFault::Level(LevelFault::NoPlayer)),
    ),
    (
        COLLECTION,
        4,
        "x",
        "",
        Err(ToolFault::Level(LevelFault::NoSuchLevel)),
    ),
    // packed lines
    ("6#|#4-#|#-$@.#|6#", 1, "ulldRR", "solved 2 6\n", Ok(0)),
    ("6#|#4-#|#-$@.#|6#|", 1, "ulldRR", "solved 2 6\n", Ok(0)),
    (CORRIDOR_OF_96_PUSHES, 1, "96R", "solved 96 96\n", Ok(0)),
    (
        CORRIDOR_OF_96_PUSHES,
        1,
        "97R",
        "",
        Err(ToolFault::Play(PlayFault::Blocked(96))),
    ),
    (
        ROOM_OF_TWO_ROWS,
        1,
        "ulxR",
        "",
        Err(ToolFault::Lurd(LurdFault::BadLetter(2))),
    ),
    (
        ROOM_OF_TWO_ROWS,
        1,
        "uu",
        "",
        Err(ToolFault::Play(PlayFault::Blocked(1))),
    ),
    (ROOM_OF_TWO_ROWS, 1, " U\nl", "open 0 2\n", Ok(1)),
];

#[test]
fn replays_on_a_level_by_its_number(rt: HostRuntime) -> Result<(), Fail> {
    for &(boards, n, text, line, answer) in &REPLAYS {
        assert!(rt;
            is_answered(
                rt.alloc(),
                boards.as_bytes(),
                n,
                text.as_bytes(),
                line,
                answer
            ),
            "{n} {text}"
        );
    }
    // a letter more than a text may have
    let text = "u".repeat(rt.alloc(), 1_000_001)?;
    let room = ROOM_OF_TWO_ROWS.as_bytes();
    assert!(rt; is_answered(rt.alloc(), room, 1, text.as_bytes(), "", TOO_LONG));
    Ok(())
}
