//! The commands on a book in a file, which each of them opens anew.

use crate::rows::{MAKE_FAILED, OPEN_FAILED, first_other, prepare};
use sok_engine::input::INPUT_LIMIT;
use sok_sketch::tutorial::Row;
use std::alloc::Global;
use std::fs;
use std::test::Fail;

/// What is written for a database that can't be opened.
const NO_DATABASE: &str = "fault 32 Database\n";

/// Commands on a book that does not exist. None of them makes one.
const ABSENT: [Row; 7] = [
    ("sok export books/book", "", NO_DATABASE, 5),
    ("sok show books/book 1", "", NO_DATABASE, 5),
    ("sok show books/book", "", NO_DATABASE, 5),
    ("sok offer books/book 1 R", "", NO_DATABASE, 5),
    ("sok offers books/book books/cert", "", NO_DATABASE, 5),
    ("sok prove books/book 1 books/cert", "", NO_DATABASE, 5),
    ("sok settle books/book", "", NO_DATABASE, 5),
];

const COMMANDS: [Row; 28] = [
    // the file is made, though the collection has no levels
    ("sok add books/book books/cert", "", "", 0),
    ("sok export books/book", "", "", 0),
    ("sok show books/book", "", "", 0),
    ("sok show books/book 1", "", "fault 30 NoLevel\n", 3),
    ("sok show books/book 0", "", "fault 30 NoLevel\n", 3),
    (
        "sok add books/book books/levels",
        "1 id 1\n2 fault 4 ManyPlayers\n3 fault 8 TooFewGoals\n4 id 2\n",
        "",
        0,
    ),
    ("sok add books/book books/none", "", OPEN_FAILED, 5),
    (
        "sok prove books/book 1 books/cert",
        "",
        "fault 31 NoBest\n",
        3,
    ),
    ("sok offer books/book 1 r", "stored 1 1\n", "", 0),
    ("sok offer books/book 1 R", "kept 1 1\n", "", 1),
    ("sok offer books/book 2 ulld", "", "fault 13 NotSolved\n", 1),
    (
        "sok offer books/book 2 rlulldRurrdLulldRR",
        "stored 4 18\n",
        "",
        0,
    ),
    (
        "sok prove books/book 2 books/cert",
        "",
        "fault 33 ClaimDiffers\n",
        3,
    ),
    (
        "sok prove books/book 1 books/levels",
        "refused 20 Header\n",
        "",
        1,
    ),
    (
        "sok prove books/book 1 books/cert",
        "proved optimal 1\n",
        "",
        0,
    ),
    (
        "sok show books/book 1",
        "#####\n#@$.#\n#####\ntitle First\nbest 1 1 R\nverdict optimal\n",
        "",
        0,
    ),
    (
        "sok show books/book",
        "1 3 5 1 1 1 optimal First\n2 4 6 1 4 18 untested The room\n",
        "",
        0,
    ),
    (
        "sok export books/book",
        "; First\n#####\n#@$.#\n#####\n\n; The room\n######\n#    #\n# $@.#\n######\n\n",
        "",
        0,
    ),
    (
        "sok export books/book --solutions",
        "; First\n#####\n#@$.#\n#####\nSolution: R\nPushes: 1 optimal\n\n; The room\n######\n#    #\n# $@.#\n######\nSolution: rlulldRurrdLulldRR\nPushes: 4\n\n",
        "",
        0,
    ),
    // the letters are read from the input
    ("sok offer books/book 2 -", "stored 2 6\n", "", 0),
    // the text is read before the level is looked for, and the file is opened before both
    ("sok offer books/book 9 x", "", "fault 11 BadLetter 0\n", 3),
    ("sok prove books/book 9 books/none", "", OPEN_FAILED, 5),
    ("sok offers books/book books/none", "", OPEN_FAILED, 5),
    // no line of a certificate is an offer, and each line has an answer
    (
        "sok offers books/book books/cert",
        "0 fault 11 BadLetter 1\n0 fault 11 BadLetter 1\n0 fault 11 BadLetter 1\n0 fault 30 NoLevel\n",
        "",
        3,
    ),
    // there is no database, and none can be made
    ("sok export books/cert", "", NO_DATABASE, 5),
    ("sok show books/none/book 1", "", NO_DATABASE, 5),
    // the database is opened before the file
    ("sok add books/none/book books/none", "", NO_DATABASE, 5),
    ("sok prove books/none/book 1 books/none", "", NO_DATABASE, 5),
];

#[test]
fn a_book_in_a_file(rt: HostRuntime) -> Result<(), Fail> {
    prepare(&rt, "books")?;
    let other = first_other(&rt, &ABSENT)?;
    assert_eq!(rt; other, None);
    for &path in &["books/book", "books/book-wal"] {
        assert!(rt; fs::open(&rt, path).is_err(), "{path}");
    }
    let other = first_other(&rt, &COMMANDS)?;
    assert_eq!(rt; other, None);
    // a file that is no database gets no log beside it
    assert!(rt; fs::open(&rt, "books/cert-wal").is_err());
    fs::remove_dir_all(&rt, "books")?;
    Ok(())
}

/// A room of two pushes, in which the box comes to four places; a box that is lost; a corridor of
/// six pushes, with seven places; and a level that is solved at its start.
const UNSETTLED: &str = "\
######
#    #
# $@.#
######

#####
#@.$#
#####

##########
#@$     .#
##########

#####
#@ *#
#####
";

/// A book is settled within four states, from one level on; then the rest of it; then nothing is
/// left.
const SETTLES: [Row; 15] = [
    (
        "sok add settles/book settles/unsettled",
        "1 id 1\n2 id 2\n3 id 3\n4 id 4\n",
        "",
        0,
    ),
    (
        "sok settle settles/book --limit 0",
        "",
        "fault 16 BadLimit\n",
        3,
    ),
    (
        "sok settle settles/book --limit 1000001",
        "",
        "fault 16 BadLimit\n",
        3,
    ),
    ("sok settle settles/book --from 5", "", "", 0),
    ("sok settle settles/book --to 0", "", "", 0),
    (
        "sok settle settles/book --from 3 --limit 4",
        "3 limit 4 at least 6\n4 optimal 0 0\n",
        "",
        4,
    ),
    (
        "sok show settles/book",
        "1 4 6 1 - - untested\n2 3 5 1 - - untested\n3 3 10 1 - - untested\n4 3 5 1 0 0 optimal\n",
        "",
        0,
    ),
    // a best with more pushes is replaced, and one with as many stays
    (
        "sok offer settles/book 1 rlulldRurrdLulldRR",
        "stored 4 18\n",
        "",
        0,
    ),
    (
        "sok settle settles/book --limit 4 --to 2",
        "1 optimal 2 6\n2 unsolvable\n",
        "",
        0,
    ),
    (
        "sok show settles/book 1",
        "######\n#    #\n# $@.#\n######\nbest 2 6 ulldRR\nverdict optimal\n",
        "",
        0,
    ),
    (
        "sok show settles/book 2",
        "#####\n#@.$#\n#####\nbest none\nverdict unsolvable\n",
        "",
        0,
    ),
    // a best with as many pushes as the lower bound of the start is proved by one state
    ("sok offer settles/book 3 RRRRRR", "stored 6 6\n", "", 0),
    (
        "sok settle settles/book --limit 1",
        "3 optimal 6 6\n",
        "",
        0,
    ),
    ("sok settle settles/book", "", "", 0),
    (
        "sok show settles/book",
        "1 4 6 1 2 6 optimal\n2 3 5 1 - - unsolvable\n3 3 10 1 6 6 optimal\n4 3 5 1 0 0 optimal\n",
        "",
        0,
    ),
];

#[test]
fn levels_of_a_book_are_settled(rt: HostRuntime) -> Result<(), Fail> {
    prepare(&rt, "settles")?;
    fs::write(&rt, "settles/unsettled", UNSETTLED)?;
    let other = first_other(&rt, &SETTLES)?;
    assert_eq!(rt; other, None);
    fs::remove_dir_all(&rt, "settles")?;
    Ok(())
}

/// The same with certificates: each level that is settled has one, and no other level has.
const CERTIFIES: [Row; 19] = [
    (
        "sok add kept/book kept/unsettled",
        "1 id 1\n2 id 2\n3 id 3\n4 id 4\n",
        "",
        0,
    ),
    // if no certificate can be kept, the level stays as it was
    ("sok settle kept/book --certs kept/none", "", MAKE_FAILED, 5),
    (
        "sok show kept/book 1",
        "######\n#    #\n# $@.#\n######\nbest none\nverdict untested\n",
        "",
        0,
    ),
    (
        "sok settle kept/book --limit 4 --certs kept",
        "1 optimal 2 6\n2 unsolvable\n3 limit 4 at least 6\n4 optimal 0 0\n",
        "",
        4,
    ),
    (
        "sok check kept/unsettled 1 kept/1.cert",
        "accepted at least 2 pushes\n",
        "",
        0,
    ),
    (
        "sok check kept/unsettled 2 kept/2.cert",
        "accepted unsolvable\n",
        "",
        0,
    ),
    ("sok check kept/unsettled 3 kept/3.cert", "", OPEN_FAILED, 5),
    (
        "sok check kept/unsettled 4 kept/4.cert",
        "accepted at least 0 pushes\n",
        "",
        0,
    ),
    ("sok offer kept/book 3 RRRRRR", "stored 6 6\n", "", 0),
    (
        "sok settle kept/book --limit 4 --certs kept",
        "3 optimal 6 6\n",
        "",
        0,
    ),
    (
        "sok check kept/unsettled 3 kept/3.cert",
        "accepted at least 6 pushes\n",
        "",
        0,
    ),
    ("sok settle kept/book --certs kept", "", "", 0),
    // a whole certificate is not replaced by another one, and no other file is overwritten
    (
        "sok add kept/other kept/levels",
        "1 id 1\n2 fault 4 ManyPlayers\n3 fault 8 TooFewGoals\n4 id 2\n",
        "",
        0,
    ),
    ("sok settle kept/other --certs kept", "", MAKE_FAILED, 5),
    (
        "sok show kept/other",
        "1 3 5 1 - - untested First\n2 4 6 1 - - untested The room\n",
        "",
        0,
    ),
    (
        "sok solve kept/levels 1 --cert kept/other",
        "",
        MAKE_FAILED,
        5,
    ),
    (
        "sok solve kept/levels 9 --cert kept/other",
        "",
        MAKE_FAILED,
        5,
    ),
    (
        "sok solve kept/levels 1 --cert kept/levels",
        "",
        MAKE_FAILED,
        5,
    ),
    (
        "sok check kept/unsettled 1 kept/1.cert",
        "accepted at least 2 pushes\n",
        "",
        0,
    ),
];

#[test]
fn certificates_of_settled_levels_are_kept(rt: HostRuntime) -> Result<(), Fail> {
    prepare(&rt, "kept")?;
    fs::write(&rt, "kept/unsettled", UNSETTLED)?;
    let other = first_other(&rt, &CERTIFIES)?;
    assert_eq!(rt; other, None);
    fs::remove_dir_all(&rt, "kept")?;
    Ok(())
}

/// A book of two levels, the second with a best.
const BOOK: [Row; 2] = [
    (
        "sok add faulty/book faulty/levels",
        "1 id 1\n2 fault 4 ManyPlayers\n3 fault 8 TooFewGoals\n4 id 2\n",
        "",
        0,
    ),
    ("sok offer faulty/book 2 ulldRR", "stored 2 6\n", "", 0),
];

const BAD_BOOK: &str = "fault 34 BadBook 2\n";

const TOO_MUCH: &str = "fault 52 TooMuch\n";

const UNREADABLE: [Row; 10] = [
    ("sok show faulty/book 1", "", BAD_BOOK, 5),
    ("sok offer faulty/book 1 R", "", BAD_BOOK, 5),
    // the rows of the book are read before the file or the folder is opened
    ("sok add faulty/book faulty/large", "", BAD_BOOK, 5),
    ("sok prove faulty/book 1 faulty/none", "", BAD_BOOK, 5),
    (
        "sok settle faulty/book --certs faulty/none",
        "",
        BAD_BOOK,
        5,
    ),
    ("sok list faulty/large", "", TOO_MUCH, 3),
    ("sok check faulty/large 1 faulty/cert", "", TOO_MUCH, 3),
    ("sok replay faulty/levels 1 R", "solved 1 1\n", "", 0),
    // a database whose making was cut off, which is then made anew
    ("sok show faulty/half 1", "", NO_DATABASE, 5),
    ("sok add faulty/half faulty/cert", "", "", 0),
];

/// Makes a file with one byte more than a collection may have.
fn make_large(rt: &HostRuntime, alloc: Global) -> Result<(), Fail> {
    let bytes = vec![in alloc; b'#'; INPUT_LIMIT + 1]?;
    fs::write(rt, "faulty/large", bytes.as_slice())?;
    Ok(())
}

/// Returns the place of a text in bytes.
pub(crate) fn place_of(bytes: &[u8], text: &[u8]) -> Option<usize> {
    for place in 0..bytes.len() {
        if bytes[place..].starts_with(text) {
            return Some(place);
        }
    }
    None
}

/// Changes the first letter of the best in the book's file, so that it does not solve its level.
fn turn_a_letter(rt: &HostRuntime) -> Result<(), Fail> {
    let mut bytes = fs::read(rt, "faulty/book")?;
    if let Some(place) = place_of(bytes.as_slice(), b"ulldRR") {
        if let Some(letter) = bytes.get_mut(place) {
            *letter = b'd';
        }
    }
    fs::write(rt, "faulty/book", bytes.as_slice())?;
    Ok(())
}

#[test]
fn a_book_with_a_bad_row_and_a_file_that_is_too_large(rt: HostRuntime) -> Result<(), Fail> {
    prepare(&rt, "faulty")?;
    make_large(&rt, rt.alloc())?;
    fs::write(&rt, "faulty/half", "\0")?;
    let other = first_other(&rt, &BOOK)?;
    assert_eq!(rt; other, None);
    turn_a_letter(&rt)?;
    let other = first_other(&rt, &UNREADABLE)?;
    assert_eq!(rt; other, None);
    fs::remove_dir_all(&rt, "faulty")?;
    Ok(())
}
