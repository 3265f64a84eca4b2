//! What is shown of records.

use sok_book::export::export_text;
use sok_book::overview::overview_text;
use sok_book::record::{Best, Record, Verdict};
use sok_book::show::shown_text;
use sok_book::title::kept_title;
use sok_rules::fault::Memory;
use sok_sketch::sketch::level;
use sok_text::lurd::{LurdFault, read_lurd};
use std::alloc::Global;
use std::process::Abort;
use std::test::Fail;

const ROOM: &str = "######\n#    #\n# $@.#\n######\n";

const UNTITLED: &str = "#####\n#@$.#\n#####\n";

/// Returns a solution of the room.
fn best(alloc: Global) -> Result<Best, LurdFault> {
    Ok(Best {
        letters: read_lurd(alloc, b"ulldrr")?,
        pushes: 2,
        moves: 6,
    })
}

/// Returns the room with its best solution, which is proved.
fn room(alloc: Global) -> Result<Record, Fail> {
    Ok(Record {
        id: 1,
        level: level(alloc, ROOM)?,
        title: Some(b"A room".to_vec(alloc)?),
        best: Some(best(alloc)?),
        verdict: Verdict::Optimal,
    })
}

/// Returns a level of which nothing is known.
fn untitled(alloc: Global) -> Result<Record, Fail> {
    Ok(Record {
        id: 2,
        level: level(alloc, UNTITLED)?,
        title: None,
        best: None,
        verdict: Verdict::Untested,
    })
}

/// Returns both records.
fn records(alloc: Global) -> Result<Vec<Record>, Fail> {
    let mut records = Vec::new(alloc);
    records.push(room(alloc)?)?;
    records.push(untitled(alloc)?)?;
    Ok(records)
}

/// Returns whether a record is shown as this text.
fn is_shown(alloc: Global, kept: &Record, text: &str) -> Result<bool, Memory> {
    Ok(shown_text(alloc, kept)?.as_slice() == text.as_bytes())
}

/// Asserts that each record is shown as its rows and these lines.
fn assert_shown(rt: &impl Abort, alloc: Global, records: &[Record]) -> Result<(), Fail> {
    for (kept, text) in records.iter().zip([
        "######\n#    #\n# $@.#\n######\ntitle A room\nbest 2 6 ulldRR\nverdict optimal\n",
        "#####\n#@$.#\n#####\nbest none\nverdict untested\n",
    ]) {
        assert!(rt; is_shown(alloc, kept, text)?, "{text}");
    }
    Ok(())
}

/// Returns whether both are exported, with these notes after the first: those of its solution, or
/// none.
fn are_exported(alloc: Global, records: &[Record], notes: &str) -> Result<bool, Fail> {
    let told = export_text(alloc, records, !notes.is_empty())?;
    let whole = format!(in alloc; "; A room\n{ROOM}{notes}\n{UNTITLED}\n")?;
    Ok(told.as_slice() == whole.as_bytes())
}

/// Returns whether the overview of both has these lines.
fn are_told(alloc: Global, records: &[Record], lines: &str) -> Result<bool, Fail> {
    Ok(overview_text(alloc, records)?.as_slice() == lines.as_bytes())
}

/// Asserts the texts of both records.
fn assert_texts(rt: &impl Abort, alloc: Global, records: &[Record]) -> Result<(), Fail> {
    for &notes in &["", "Solution: ulldRR\nPushes: 2 optimal\n"] {
        assert!(rt; are_exported(alloc, records, notes)?, "{notes}");
    }
    let lines = "1 4 6 1 2 6 optimal A room\n2 3 5 1 - - untested\n";
    assert!(rt; are_told(alloc, records, lines)?);
    Ok(())
}

#[test]
fn records_are_shown_exported_and_told(rt: HostRuntime) -> Result<(), Fail> {
    let records = records(rt.alloc())?;
    assert_shown(&rt, rt.alloc(), &records)?;
    assert_texts(&rt, rt.alloc(), &records)
}

/// Returns whether the overview of a level with this title is this line.
fn is_titled(alloc: Global, title: &[u8], line: &[u8]) -> Result<bool, Fail> {
    let mut kept = untitled(alloc)?;
    kept.title = Some(title.to_vec(alloc)?);
    let mut records = Vec::new(alloc);
    records.push(kept)?;
    Ok(overview_text(alloc, &records)?.as_slice() == line)
}

#[test]
fn control_characters_of_titles_are_seen(rt: HostRuntime) -> Result<(), Fail> {
    for &(title, line) in &[
        (
            b"A\r1 4 6 1 2 6 \x1b[2J".as_slice(),
            b"1 3 5 1 - - untested A\\x0d1 4 6 1 2 6 \\x1b[2J\n".as_slice(),
        ),
        // DEL, U+0080, U+009F and U+00A0, and the byte of U+009B by itself, behind two leads and one
        (
            b"\0\x7f\xc2\x80\xc2\x9f\xc2\xa0\x9b\xc2\xc2\x9b\xc2".as_slice(),
            b"1 3 5 1 - - untested \\x00\\x7f\\x80\\x9f\xc2\xa0\x9b\xc2\\x9b\xc2\n".as_slice(),
        ),
    ] {
        assert!(rt; is_titled(rt.alloc(), title, line)?, "{title:?}");
    }
    Ok(())
}

#[test]
fn titles_are_kept_in_one_line(rt: HostRuntime) -> Result<(), Fail> {
    for &(text, title) in &[
        (" \t A \t room \r\t\r\nmore", Some("A \t room")),
        ("\r \r", None),
        ("\nA room", None),
        ("", None),
    ] {
        match (kept_title(text.as_bytes()), title) {
            (Some(kept), Some(title)) => assert_eq!(rt; kept, title.as_bytes()),
            (None, None) => {}
            _ => assert!(rt; false, "one title is there, and the other is not"),
        }
    }
    Ok(())
}
