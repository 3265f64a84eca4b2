//! The databases of books by their paths: those in files of the machine, and copies of them in
//! memory.
//!
//! | Module | What it holds |
//! |---|---|
//! | `book_file` | the files of a database: those of the machine, or copies in memory |
//! | `copying` | copies of databases in memory (private) |
//! | `databases` | databases by their paths |
//! | `guarded` | the output of a command that changes a book |
//! | `opening` | how a database in files of the machine is opened (private) |
//! | `standing` | which files are at its path and beside it (private) |
#![tactic(auto)]

pub mod book_file;
mod copying;
pub mod databases;
pub mod guarded;
mod opening;
mod standing;
