//! The rules of Sokoban: levels, and what a text of letters does to them.
//!
//! | Module | What it holds |
//! |---|---|
//! | `cell` | cells, directions, and squares by row and column |
//! | `fault` | why rows are not a level, and why letters cannot be played |
//! | `level` | levels, which are rows of cells |
//! | `play` | the replay of a list of letters |
//! | `session` | play letter by letter, with undo and redo |
//! | `scene` | the cells of a level during play (private) |
#![tactic(auto)]

pub mod cell;
pub mod fault;
pub mod level;
pub mod play;
mod scene;
pub mod session;
