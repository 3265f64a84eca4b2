//! The commands that only read a book: nothing is written, and it may be in use.

use crate::keeping::place_of;
use crate::rows::{first_other, prepare};
use sok_sketch::tutorial::Row;
use sqlite::{Alter, Connection};
use std::fs::{self, Permissions};
use std::os::unix::fs::{PermissionsExt, symlink};
use std::test::Fail;

/// A book of two levels, the first with a best.
const MADE: [Row; 2] = [
    (
        "sok add copies/book copies/levels",
        "1 id 1\n2 fault 4 ManyPlayers\n3 fault 8 TooFewGoals\n4 id 2\n",
        "",
        0,
    ),
    ("sok offer copies/book 1 r", "stored 1 1\n", "", 0),
];

/// What is shown of the book, by its own name and by a link.
const SHOWN: [Row; 5] = [
    (
        "sok show copies/book 1",
        "#####\n#@$.#\n#####\ntitle First\nbest 1 1 R\nverdict untested\n",
        "",
        0,
    ),
    ("sok show copies/book 3", "", "fault 30 NoLevel\n", 3),
    (
        "sok show copies/book",
        "1 3 5 1 1 1 untested First\n2 4 6 1 - - untested The room\n",
        "",
        0,
    ),
    (
        "sok show copies/link",
        "1 3 5 1 1 1 untested First\n2 4 6 1 - - untested The room\n",
        "",
        0,
    ),
    (
        "sok export copies/book",
        "; First\n#####\n#@$.#\n#####\n\n; The room\n######\n#    #\n# $@.#\n######\n\n",
        "",
        0,
    ),
];

/// The same after the first level got another title.
const CHANGED: [Row; 3] = [
    (
        "sok show copies/book",
        "1 3 5 1 1 1 untested Begun\n2 4 6 1 - - untested The room\n",
        "",
        0,
    ),
    (
        "sok show copies/link",
        "1 3 5 1 1 1 untested Begun\n2 4 6 1 - - untested The room\n",
        "",
        0,
    ),
    (
        "sok export copies/book",
        "; Begun\n#####\n#@$.#\n#####\n\n; The room\n######\n#    #\n# $@.#\n######\n\n",
        "",
        0,
    ),
];

/// The same in files that a writer left when it was cut off.
const CUT: [Row; 1] = [(
    "sok show copies/cut",
    "1 3 5 1 1 1 untested Begun\n2 4 6 1 - - untested The room\n",
    "",
    0,
)];

const NO_DATABASE: &str = "fault 32 Database\n";

/// A database with a rollback journal, one with two names, a folder, and an empty file.
const OTHERS: [Row; 6] = [
    ("sok show copies/torn", "", NO_DATABASE, 5),
    ("sok offer copies/torn 1 R", "", NO_DATABASE, 5),
    ("sok show copies/twin", "", NO_DATABASE, 5),
    ("sok show copies", "", NO_DATABASE, 5),
    ("sok show copies/empty", "", NO_DATABASE, 5),
    ("sok offer copies/empty 1 R", "", NO_DATABASE, 5),
];

/// Another program's database, which no command changes.
const FOREIGN: [Row; 6] = [
    ("sok add copies/songs copies/levels", "", NO_DATABASE, 5),
    ("sok offer copies/songs 1 R", "", NO_DATABASE, 5),
    ("sok offers copies/songs copies/cert", "", NO_DATABASE, 5),
    ("sok prove copies/songs 1 copies/cert", "", NO_DATABASE, 5),
    ("sok settle copies/songs", "", NO_DATABASE, 5),
    ("sok show copies/songs", "", NO_DATABASE, 5),
];

/// A book with the name of another book's log. No book is made for which it would be the log.
const LOG: [Row; 2] = [
    ("sok add copies/name copies/levels", "", NO_DATABASE, 5),
    (
        "sok show copies/name-wal",
        "1 3 5 1 1 1 untested First\n2 4 6 1 - - untested The room\n",
        "",
        0,
    ),
];

/// Makes the book, and a link to it.
fn make(rt: &HostRuntime) -> Result<Option<&'static str>, Fail> {
    prepare(rt, "copies")?;
    symlink(rt, "book", "copies/link")?;
    Ok(first_other(rt, &MADE)?)
}

/// Returns the bytes of the files of a database.
fn files_of(rt: &HostRuntime, path: &str) -> Result<(Vec<u8>, Vec<u8>), Fail> {
    let log = format!(in rt.alloc(); "{path}-wal")?;
    Ok((fs::read(rt, path)?, fs::read(rt, log.as_str())?))
}

/// Returns the first row whose answer differs, or "the files" if those of the database changed.
fn first_changed(rt: &HostRuntime, path: &str, rows: &[Row]) -> Result<Option<&'static str>, Fail> {
    let before = files_of(rt, path)?;
    let other = first_other(rt, rows)?;
    let after = files_of(rt, path)?;
    Ok(if before == after {
        other
    } else {
        Some("the files")
    })
}

/// Sets the modes of the book's files and of their folder.
fn set_modes(rt: &HostRuntime, file: u32, folder: u32) -> Result<(), Fail> {
    fs::set_permissions(rt, "copies/book", Permissions::from_mode(file))?;
    fs::set_permissions(rt, "copies/book-wal", Permissions::from_mode(file))?;
    fs::set_permissions(rt, "copies", Permissions::from_mode(folder))?;
    Ok(())
}

#[test]
fn a_book_that_may_not_be_written(rt: HostRuntime) -> Result<(), Fail> {
    let other = make(&rt)?;
    assert_eq!(rt; other, None);
    set_modes(&rt, 0o444, 0o555)?;
    let other = first_changed(&rt, "copies/book", &SHOWN)?;
    set_modes(&rt, 0o644, 0o755)?;
    assert_eq!(rt; other, None);
    fs::remove_dir_all(&rt, "copies")?;
    Ok(())
}

/// Gives the first level another title. The change is in the log alone as long as the database is
/// open.
fn begin<S: Alter>(connection: &mut Connection<S>) -> Result<(), Fail> {
    connection.execute("UPDATE level SET title = x'426567756e' WHERE id = 1", &[])?;
    Ok(())
}

/// Copies the book as it is.
fn cut(rt: &HostRuntime) -> Result<(), Fail> {
    fs::copy(rt, "copies/book", "copies/cut")?;
    fs::copy(rt, "copies/book-wal", "copies/cut-wal")?;
    Ok(())
}

/// Returns whether the change is in the log alone.
fn is_in_the_log(rt: &HostRuntime) -> Result<bool, Fail> {
    let (db, log) = files_of(rt, "copies/book")?;
    let title = b"Begun";
    Ok(place_of(db.as_slice(), title).is_none() && place_of(log.as_slice(), title).is_some())
}

/// Changes the book and reads it while the change is in the log. Returns the first row whose answer
/// differs. Copies the book as it is then.
fn look_meanwhile<S: Alter>(
    rt: &HostRuntime,
    connection: &mut Connection<S>,
) -> Result<Option<&'static str>, Fail> {
    begin(connection)?;
    cut(rt)?;
    if !is_in_the_log(rt)? {
        return Ok(Some("the log"));
    }
    first_changed(rt, "copies/book", &CHANGED)
}

/// Does the same and closes the connection. It takes a store of any kind, so that the contracts of
/// its calls are read once, and not for the store in a file.
fn look_while_open<S: Alter + Drop>(
    rt: &HostRuntime,
    mut connection: Connection<S>,
) -> Result<Option<&'static str>, Fail> {
    let other = look_meanwhile(rt, &mut connection);
    drop(connection);
    other
}

#[test]
fn a_book_that_another_has_open(rt: HostRuntime) -> Result<(), Fail> {
    let other = make(&rt)?;
    assert_eq!(rt; other, None);
    let other = look_while_open(&rt, Connection::open(&rt, "copies/book")?)?;
    assert_eq!(rt; other, None);
    let other = first_changed(&rt, "copies/cut", &CUT)?;
    assert_eq!(rt; other, None);
    fs::remove_dir_all(&rt, "copies")?;
    Ok(())
}

/// Makes the files of `OTHERS`.
fn make_others(rt: &HostRuntime) -> Result<(), Fail> {
    fs::copy(rt, "copies/book", "copies/torn")?;
    fs::write(rt, "copies/torn-journal", "a page")?;
    fs::copy(rt, "copies/book", "copies/other")?;
    fs::hard_link(rt, "copies/other", "copies/twin")?;
    fs::write(rt, "copies/empty", "")?;
    Ok(())
}

#[test]
fn what_is_no_book_of_its_own(rt: HostRuntime) -> Result<(), Fail> {
    let other = make(&rt)?;
    assert_eq!(rt; other, None);
    make_others(&rt)?;
    let other = first_other(&rt, &OTHERS)?;
    assert_eq!(rt; other, None);
    assert!(rt; fs::read(&rt, "copies/empty")?.is_empty());
    assert!(rt; fs::open(&rt, "copies/empty-wal").is_err());
    fs::copy(&rt, "copies/book", "copies/name-wal")?;
    let other = first_other(&rt, &LOG)?;
    assert_eq!(rt; other, None);
    fs::remove_dir_all(&rt, "copies")?;
    Ok(())
}

/// Makes a table of songs.
fn make_songs<S: Alter>(connection: &mut Connection<S>) -> Result<(), Fail> {
    connection.execute("CREATE TABLE song (name TEXT NOT NULL) STRICT", &[])?;
    Ok(())
}

/// Does the same and closes the connection.
fn make_songs_and_close<S: Alter + Drop>(mut connection: Connection<S>) -> Result<(), Fail> {
    make_songs(&mut connection)
}

#[test]
fn another_programs_database_stays(rt: HostRuntime) -> Result<(), Fail> {
    prepare(&rt, "copies")?;
    make_songs_and_close(Connection::open(&rt, "copies/songs")?)?;
    let other = first_changed(&rt, "copies/songs", &FOREIGN)?;
    assert_eq!(rt; other, None);
    fs::remove_dir_all(&rt, "copies")?;
    Ok(())
}
