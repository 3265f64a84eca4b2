//! The words of a command line, and the job that they mean.
//!
//! | Module | What it holds |
//! |---|---|
//! | `job` | the job that a command line means, or why it means none |
//! | `words` | reading the words |
//! | `command` | the program's command, with its help (private) |
//! | `subcommand` | the subcommands, with their help (private) |
//! | `place` | the places and options of a subcommand, with their help (private) |
//! | `reading` | the job of each subcommand (private) |
//! | `values` | the values that were given (private) |
#![tactic(auto)]

mod command;
pub mod job;
mod place;
mod reading;
mod subcommand;
mod values;
pub mod words;
