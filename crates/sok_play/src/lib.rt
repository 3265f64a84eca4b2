//! The engines that play a text on a level, draw the level after it, and list the levels of a
//! collection.
//!
//! | Module | What it holds |
//! |---|---|
//! | `drawing` | drawing a level after a text of letters |
//! | `listing` | listing the levels of a collection |
//! | `measure` | the size of a level, its boxes and its goals (private) |
//! | `play` | playing a text of letters on a level |
//! | `standing` | a level as it is after letters (private) |
#![tactic(auto)]

pub mod drawing;
pub mod listing;
mod measure;
pub mod play;
mod standing;
