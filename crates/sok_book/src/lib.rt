//! The book: levels with their best solutions, the effect of each command, and the texts that show
//! a book. This crate defines what a book means. It does not say where a book is stored.
//!
//! | Module | What it holds |
//! |---|---|
//! | `escape` | a text whose control characters are seen |
//! | `export` | the levels of a book as a collection |
//! | `fault` | why a command is refused |
//! | `law` | what holds of every book that commands made |
//! | `limits` | how large a book may be |
//! | `offering` | whether letters are a solution that a book may keep |
//! | `overview` | a line for each level of a book |
//! | `proving` | whether bytes prove a verdict of a level |
//! | `record` | a level with its best solution and verdict, and the answer to an offer |
//! | `show` | a level with its title, its best solution and its verdict |
//! | `text` | the texts of all levels, and which one is wanted |
//! | `title` | which part of a title is kept |
//! | `writing` | the texts of a level and of a solution |
#![tactic(auto)]

pub mod escape;
pub mod export;
pub mod fault;
pub mod law;
pub mod limits;
pub mod offering;
pub mod overview;
pub mod proving;
pub mod record;
pub mod show;
pub mod text;
pub mod title;
pub mod writing;
