//! The engines that work on a book: they add levels, offer solutions, prove verdicts, and show
//! levels.
//!
//! | Module | What it holds |
//! |---|---|
//! | `add` | adding the levels of a collection |
//! | `line` | the line of a command that was done (private) |
//! | `offer` | offering a solution |
//! | `prove` | proving a verdict |
//! | `show` | showing one level, or writing a text of all |
#![tactic(auto)]

pub mod add;
mod line;
pub mod offer;
pub mod prove;
pub mod show;
