//! Commands one after another, each on the book that the last one left.

use crate::answering::{Command, Row, answer, empty_book, first_other};
use sok_book::fault::BookFault;
use sok_engine::fault::ToolFault;
use sok_rules::fault::PlayFault;
use sok_sketch::sketch::{BOX_BEYOND_THE_GOAL, PAIR_THAT_IS_LOST, ROOM_OF_TWO_ROWS, SOLVED};
use sok_store::book::Book;
use sok_text::lurd::LurdFault;
use sqlite::MemStore;
use std::alloc::Global;
use std::process::Abort;
use std::test::Fail;

/// A certificate that the room can't be solved with fewer than two pushes.
pub(crate) const TWO_PUSHES: &str = "sokoban-certificate 1\npushes 2\nb 0 6 1 5 2 0\nend\n";

const NO_PUSHES: &str = "sokoban-certificate 1\npushes 0\ns 0 0 1 2\nend\n";

const NO_SOLUTION: &str = "sokoban-certificate 1\nunsolvable\nc 0 0 1 2 1 0\nend\n";

/// Two of the three boxes are lost, taken alone.
const LOST_PAIR: &str = "\
sokoban-certificate 2
unsolvable
p 0 9 3 7 10 12 2 1 2 2
x 0 9 2 10 12
f 1 10 2 11 12 2 0 1
end
";

/// A room is added, solved and proved.
const ROOM: [Row; 15] = [
    (Command::Add(ROOM_OF_TWO_ROWS), "1 id 1\n", Ok(0)),
    (Command::Add(ROOM_OF_TWO_ROWS), "1 id 1\n", Ok(0)),
    (
        Command::Add("#####\n#@$.\n#####\n"),
        "1 fault 6 NotEnclosed 1 3\n",
        Ok(0),
    ),
    (
        Command::Prove(1, TWO_PUSHES),
        "",
        Err(ToolFault::Book(BookFault::NoBest)),
    ),
    (
        Command::Offer(1, "rlulldRurrdLulldRR"),
        "stored 4 18\n",
        Ok(0),
    ),
    (
        Command::Prove(1, TWO_PUSHES),
        "",
        Err(ToolFault::Book(BookFault::ClaimDiffers)),
    ),
    (Command::Offer(1, "ulldRurrdLulldRR"), "kept 4 18\n", Ok(1)),
    (
        Command::Offer(1, "ulld"),
        "",
        Err(ToolFault::Book(BookFault::NotSolved)),
    ),
    (Command::Offer(1, "ulldRR"), "stored 2 6\n", Ok(0)),
    (Command::Prove(1, TWO_PUSHES), "proved optimal 2\n", Ok(0)),
    (Command::Offer(1, "ulldRR"), "kept 2 6\n", Ok(1)),
    (
        Command::Show(1),
        "######\n#    #\n# $@.#\n######\nbest 2 6 ulldRR\nverdict optimal\n",
        Ok(0),
    ),
    (
        Command::Offer(2, "ulldRR"),
        "",
        Err(ToolFault::Book(BookFault::NoLevel)),
    ),
    (Command::Export, "######\n#    #\n# $@.#\n######\n\n", Ok(0)),
    (
        Command::Solutions,
        "######\n#    #\n# $@.#\n######\nSolution: ulldRR\nPushes: 2 optimal\n\n",
        Ok(0),
    ),
];

#[test]
fn a_room_is_added_solved_and_proved(rt: HostRuntime) -> Result<(), Fail> {
    assert_eq!(rt; first_other(rt.alloc(), &ROOM)?, None);
    Ok(())
}

/// Lines that are stored, kept, skipped or refused. The last one has no line end.
const LINES: &str = "\
1 rlulldRurrdLulldRR
1 ulldRurrdLulldRR\r

 \t
2 ulldRR
1 ulld
1 ul?d
1 uu
one ulldRR
4294967295 R
4294967296 R
1\tU2ld 2R
 1 ulldRR
1";

/// What is written for these lines.
const TOLD: &str = "\
1 stored 4 18
1 kept 4 18
2 fault 30 NoLevel
1 fault 13 NotSolved
1 fault 11 BadLetter 2
1 fault 12 Blocked 1
0 fault 30 NoLevel
4294967295 fault 30 NoLevel
0 fault 30 NoLevel
1 stored 2 6
0 fault 11 BadLetter 1
1 fault 13 NotSolved
";

#[test]
fn lines_of_offers_are_answered_one_by_one(rt: HostRuntime) -> Result<(), Fail> {
    let rows = &[
        (Command::Offers("1 R\n"), "1 fault 30 NoLevel\n", Ok(3)),
        (Command::Add(ROOM_OF_TWO_ROWS), "1 id 1\n", Ok(0)),
        (Command::Offers(LINES), TOLD, Ok(3)),
        (Command::Offers("001 ulldRR\n\n"), "1 kept 2 6\n", Ok(0)),
        (Command::Offers(""), "", Ok(0)),
    ];
    assert_eq!(rt; first_other(rt.alloc(), rows)?, None);
    Ok(())
}

#[test]
fn levels_without_a_push_and_a_lost_pair_are_proved(rt: HostRuntime) -> Result<(), Fail> {
    let rows = &[
        (Command::Add(SOLVED), "1 id 1\n", Ok(0)),
        (Command::Add(BOX_BEYOND_THE_GOAL), "1 id 2\n", Ok(0)),
        (Command::Offer(1, ""), "stored 0 0\n", Ok(0)),
        (
            Command::Show(1),
            "#####\n#@ *#\n#####\nbest 0 0 \nverdict untested\n",
            Ok(0),
        ),
        (Command::Prove(1, NO_PUSHES), "proved optimal 0\n", Ok(0)),
        (
            Command::Prove(1, NO_SOLUTION),
            "",
            Err(ToolFault::Book(BookFault::ClaimDiffers)),
        ),
        (Command::Prove(2, NO_SOLUTION), "proved unsolvable\n", Ok(0)),
        (
            Command::Offer(2, "r"),
            "",
            Err(ToolFault::Book(BookFault::NotSolved)),
        ),
        (Command::Prove(2, NO_SOLUTION), "proved unsolvable\n", Ok(0)),
        (
            Command::Show(2),
            "#####\n#@.$#\n#####\nbest none\nverdict unsolvable\n",
            Ok(0),
        ),
        (Command::Add(PAIR_THAT_IS_LOST), "1 id 3\n", Ok(0)),
        (Command::Prove(3, LOST_PAIR), "proved unsolvable\n", Ok(0)),
        (
            Command::Overview,
            "1 3 5 1 0 0 optimal\n2 3 5 1 - - unsolvable\n3 5 12 3 - - unsolvable\n",
            Ok(0),
        ),
        (
            Command::Solutions,
            "#####\n#@ *#\n#####\nSolution: \nPushes: 0 optimal\n\n#####\n#@.$#\n#####\nUnsolvable\n\n#######\n#     ######\n#  $ @$ $..#\n# .   ######\n#######\nUnsolvable\n\n",
            Ok(0),
        ),
    ];
    assert_eq!(rt; first_other(rt.alloc(), rows)?, None);
    Ok(())
}

#[test]
fn faults_come_in_their_order(rt: HostRuntime) -> Result<(), Fail> {
    let rows = &[
        (Command::Export, "", Ok(0)),
        (Command::Overview, "", Ok(0)),
        (
            Command::Show(1),
            "",
            Err(ToolFault::Book(BookFault::NoLevel)),
        ),
        (
            Command::Show(-1),
            "",
            Err(ToolFault::Book(BookFault::NoLevel)),
        ),
        // a faulty level between others, one with a title
        (
            Command::Add(
                "; A \n#####\n#@$.#\n#####\n\n#####\n#$ .#\n#####\n\n#####\n#@.$#\n#####\n",
            ),
            "1 id 1\n2 fault 3 NoPlayer\n3 id 2\n",
            Ok(0),
        ),
        // a level that is in the book keeps its title
        (
            Command::Add("; B\n#####\n#@$.#\n#####\n"),
            "1 id 1\n",
            Ok(0),
        ),
        (
            Command::Offer(9, "x"),
            "",
            Err(ToolFault::Lurd(LurdFault::BadLetter(0))),
        ),
        (
            Command::Offer(1, "rr"),
            "",
            Err(ToolFault::Book(BookFault::Letters(PlayFault::Blocked(1)))),
        ),
        (
            Command::Prove(9, ""),
            "",
            Err(ToolFault::Book(BookFault::NoLevel)),
        ),
        (Command::Prove(2, ""), "refused 20 Header\n", Ok(1)),
        (
            Command::Show(1),
            "#####\n#@$.#\n#####\ntitle A\nbest none\nverdict untested\n",
            Ok(0),
        ),
        (
            Command::Export,
            "; A\n#####\n#@$.#\n#####\n\n#####\n#@.$#\n#####\n\n",
            Ok(0),
        ),
        (
            Command::Overview,
            "1 3 5 1 - - untested A\n2 3 5 1 - - untested\n",
            Ok(0),
        ),
        // levels of which nothing is known have no notes, and notes after a level are no titles
        (
            Command::Solutions,
            "; A\n#####\n#@$.#\n#####\n\n#####\n#@.$#\n#####\n\n",
            Ok(0),
        ),
        (
            Command::Add("###\n#@#\n#$#\n#.#\n###\nSolution: D\nPushes: 1\n\n####\n#@*#\n####\n"),
            "1 id 3\n2 id 4\n",
            Ok(0),
        ),
        (
            Command::Overview,
            "1 3 5 1 - - untested A\n2 3 5 1 - - untested\n3 5 3 1 - - untested\n4 3 4 1 - - untested\n",
            Ok(0),
        ),
    ];
    assert_eq!(rt; first_other(rt.alloc(), rows)?, None);
    Ok(())
}

/// Offers a solution with an output that is too short for the answer, and then offers it again.
fn offer_twice(rt: &impl Abort, alloc: Global, book: &mut Book<MemStore>) -> Result<(), Fail> {
    let mut out = Vec::new(alloc);
    answer(alloc, book, Command::Add(ROOM_OF_TWO_ROWS), &mut out)?;
    let mut room = [0u8; 4];
    let offer = Command::Offer(1, "ulldRR");
    let offered = answer(alloc, book, offer, &mut room.as_mut_slice());
    assert_eq!(rt; offered, Err(ToolFault::WriteFailed));
    assert_eq!(rt; room.as_slice(), b"stor".as_slice());
    let again = answer(alloc, book, offer, &mut out);
    assert_eq!(rt; again, Ok(1));
    assert_eq!(rt; out.as_slice(), b"1 id 1\nkept 2 6\n".as_slice());
    Ok(())
}

/// Offers two lines with an output that is too short for the second answer, and then again.
fn offer_lines_twice(
    rt: &impl Abort,
    alloc: Global,
    book: &mut Book<MemStore>,
) -> Result<(), Fail> {
    let mut out = Vec::new(alloc);
    answer(alloc, book, Command::Add(ROOM_OF_TWO_ROWS), &mut out)?;
    let mut room = [0u8; 18];
    let offers = Command::Offers("1 rlulldRurrdLulldRR\n1 ulldRR\n");
    let offered = answer(alloc, book, offers, &mut room.as_mut_slice());
    assert_eq!(rt; offered, Err(ToolFault::WriteFailed));
    assert_eq!(rt; room.as_slice(), b"1 stored 4 18\n1 st".as_slice());
    let again = answer(alloc, book, offers, &mut out);
    assert_eq!(rt; again, Ok(0));
    assert_eq!(rt;
        out.as_slice(),
        b"1 id 1\n1 kept 2 6\n1 kept 2 6\n".as_slice()
    );
    Ok(())
}

/// Settles two levels with an output that is too short for the second line, and then again.
fn settle_twice(rt: &impl Abort, alloc: Global, book: &mut Book<MemStore>) -> Result<(), Fail> {
    let mut out = Vec::new(alloc);
    answer(alloc, book, Command::Add(BOX_BEYOND_THE_GOAL), &mut out)?;
    let mut room = [0u8; 20];
    let settle = Command::Settle(4, 1);
    let settled = answer(alloc, book, settle, &mut room.as_mut_slice());
    assert_eq!(rt; settled, Err(ToolFault::WriteFailed));
    assert_eq!(rt; room.as_slice(), b"1 optimal 2 6\n2 unso".as_slice());
    let again = answer(alloc, book, settle, &mut out);
    assert_eq!(rt; again, Ok(0));
    let shown = answer(alloc, book, Command::Overview, &mut out);
    assert_eq!(rt; shown, Ok(0));
    let told = b"1 id 2\n1 4 6 1 2 6 optimal\n2 3 5 1 - - unsolvable\n";
    assert_eq!(rt; out.as_slice(), told.as_slice());
    Ok(())
}

/// If the answer of an offer can't be written, the offer stands, and so does a verdict.
#[test]
fn a_command_stands_without_its_answer(rt: HostRuntime) -> Result<(), Fail> {
    let alloc = rt.alloc();
    let mut book = empty_book(alloc)?;
    offer_twice(&rt, alloc, &mut book)?;
    settle_twice(&rt, alloc, &mut book)
}

/// If the answer of a line of offers can't be written, the line stands.
#[test]
fn a_line_stands_without_its_answer(rt: HostRuntime) -> Result<(), Fail> {
    let alloc = rt.alloc();
    let mut book = empty_book(alloc)?;
    offer_lines_twice(&rt, alloc, &mut book)
}
