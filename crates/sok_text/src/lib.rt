//! Text of Sokoban: collections of levels, and lists of letters.
//!
//! | Module | What it holds |
//! |---|---|
//! | `xsb` | the characters of a level's text, and which lines belong to a board |
//! | `count` | counts: digits before the character that they repeat (private) |
//! | `packed` | the rows of a level on one line |
//! | `kind` | the kinds of lines: of a board, packed, or notes |
//! | `line` | the lines of a text, and the boards and notes that they form |
//! | `collection` | the levels of a text, with notes around them |
//! | `title` | the titles of levels, from notes, and how they are trimmed |
//! | `print` | the canonical text of a level |
//! | `lurd` | letters, read from a text and printed as marked text |
#![tactic(auto)]

pub mod collection;
mod count;
pub mod kind;
pub mod line;
pub mod lurd;
pub mod packed;
pub mod print;
pub mod title;
pub mod xsb;
