//! Which rule of a book a row breaks.

use crate::columns::Columns;
use crate::parsing::record_of;
use crate::row::columns_in;
use sok_book::fault::BookFault;
use sok_sql::reading::{find, row_at};
use sqlite::{Alter, Connection};
use std::alloc::Global;

/// A rule of the rows of a book.
#[derive(Clone, Copy, Debug, PartialEq, Eq)]
pub enum Rule {
    /// The ids are 1, 2, 3 and on, at most 10,000.
    Ids,
    /// Each value is of its column's kind.
    Kinds,
    /// The text is the canonical text of an accepted level.
    Text,
    /// No level is there twice.
    Once,
    /// The title is as titles are kept.
    Title,
    /// Letters, pushes and moves are those of a solution, or all missing.
    Best,
    /// The verdict is known, and fits the best.
    Verdict,
}

impl Rule {
    /// Returns in words how the rule is broken.
    pub fn words(self) -> &'static str {
        match self {
            Rule::Ids => "the ids are not 1, 2, 3 and on, at most 10,000",
            Rule::Kinds => "a value is not of its column's kind",
            Rule::Text => "the text is not the canonical text of an accepted level",
            Rule::Once => "the level is there twice",
            Rule::Title => "the title is not as titles are kept",
            Rule::Best => "lurd, pushes and moves are not those of a solution",
            Rule::Verdict => "the verdict does not fit the best",
        }
    }
}

/// Returns the rule that a row breaks, of which `Book::open` reported `BadBook` with this id. `None`
/// if memory or the database is refused.
pub fn broken_rule<S: Alter>(conn: &mut Connection<S>, alloc: Global, id: i64) -> Option<Rule> {
    let Ok(id) = u32::try_from(id) else {
        return Some(Rule::Ids);
    };
    match row_at(conn, id) {
        Ok(Some(row)) => match columns_in(id, &row) {
            Ok(Some(columns)) => rule_of(conn, alloc, id, columns),
            Ok(None) => Some(Rule::Kinds),
            Err(_) => None,
        },
        Ok(None) => Some(Rule::Ids),
        Err(_) => None,
    }
}

/// Returns the rule that the values of a row break. They are left out one after the other, from the
/// last on, until the rest are those of a row. If none breaks a rule by itself, the row is not in
/// its place.
fn rule_of<S: Alter>(
    conn: &mut Connection<S>,
    alloc: Global,
    id: u32,
    columns: Columns,
) -> Option<Rule> {
    let mut columns = columns;
    if are_kept(alloc, &columns)? {
        return match find(conn, columns.text.as_str()) {
            Ok(first) if first == Some(id) => Some(Rule::Ids),
            Ok(_) => Some(Rule::Once),
            Err(_) => None,
        };
    }
    columns.verdict = 0;
    if are_kept(alloc, &columns)? {
        return Some(Rule::Verdict);
    }
    columns.lurd = None;
    columns.pushes = None;
    columns.moves = None;
    if are_kept(alloc, &columns)? {
        return Some(Rule::Best);
    }
    columns.title = None;
    if are_kept(alloc, &columns)? {
        return Some(Rule::Title);
    }
    Some(Rule::Text)
}

/// Returns whether values are those of a row in some place. `None` if memory is refused.
fn are_kept(alloc: Global, columns: &Columns) -> Option<bool> {
    match record_of(alloc, 1, columns) {
        Ok(_) => Some(true),
        Err(BookFault::Memory) => None,
        Err(_) => Some(false),
    }
}
