//! The commands on files. Each opens or makes its files and calls its engine. Also how a run of
//! the program ends.
//!
//! | Module | What it holds |
//! |---|---|
//! | `command` | each command on its files |
//! | `ending` | the exit status of a run, and what it writes to the error stream |
//! | `file` | opening and making the files that a command names |
//! | `folder` | files by their paths |
//! | `foreign` | signs that no level can be read from a text (private) |
//! | `machine` | the files of the machine (private) |
//! | `notes` | what is reported beside the answer |
//! | `own` | the file that a run has open beside its certificates |
//! | `progress` | how far `settle` has come |
//! | `summary` | the line that sums up an answer (private) |
//! | `unnumbered` | lines of offers that begin with no id (private) |
//! | `watched` | files and streams whose failures and reads are noted |
#![tactic(auto)]

pub mod command;
pub mod ending;
pub mod file;
pub mod folder;
mod foreign;
mod machine;
pub mod notes;
pub mod own;
pub mod progress;
mod summary;
mod unnumbered;
pub mod watched;
