//! The book, kept in one table of a database: which rows are those of a book, and its calls.
//!
//! | Module | What it holds |
//! |---|---|
//! | `book` | a book over a connection, and its calls |
//! | `columns` | the values of one row (private) |
//! | `fault` | faults of the database as faults of a book |
//! | `law` | which page and which book rows hold, and what is true of any list of calls |
//! | `page` | the record of one row (private) |
//! | `parsing` | the record that has given values, if there is one (private) |
//! | `records` | the records of all rows, or the first bad row (private) |
//! | `rule` | which rule of a book a row breaks |
//! | `standing` | the answer to an offer, with the best solution after it |
#![tactic(auto)]

mod adding;
pub mod book;
mod columns;
pub mod fault;
pub mod law;
mod listing;
mod offering;
mod opening;
mod page;
mod parsing;
mod proving;
mod reading;
mod records;
mod row;
pub mod rule;
pub mod standing;
mod verdict;
mod writing;
