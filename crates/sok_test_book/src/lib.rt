//! Tests of a book, of its table and of the commands on it, in memory.
//!
//! | Module | What it tests |
//! |---|---|
//! | `answering` | commands on a book in memory, with what they write (no test) |
//! | `books` | levels with titles, and a book that is full |
//! | `commands` | commands one after another, each on the book that the last one left |
//! | `judgements` | solutions and certificates that are offered for a level |
//! | `letters` | a text of as many letters as may be offered |
//! | `pages` | what is shown of records |
//! | `reads` | readers that fail, for the commands on a book |
//! | `statements` | each statement once, with ample memory |
//! | `stops` | commands that are stopped, and the book that is found then |
//! | `tables` | tables that are opened as a book, or that are refused |
#![tactic(auto)]

#[cfg(test)]
mod answering;
#[cfg(test)]
mod books;
#[cfg(test)]
mod commands;
#[cfg(test)]
mod judgements;
#[cfg(test)]
mod letters;
#[cfg(test)]
mod pages;
#[cfg(test)]
mod reads;
#[cfg(test)]
mod statements;
#[cfg(test)]
mod stops;
#[cfg(test)]
mod tables;
