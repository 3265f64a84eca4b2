//! Boards for tests, each with a name; levels of such boards; the session of the tutorial;
//! pseudo-random numbers; and a slow reader.
//!
//! | Module | What it holds |
//! |---|---|
//! | `acts` | what is done in a session of play |
//! | `chance` | pseudo-random numbers, the same in each run |
//! | `rooms` | large rooms, in which one row is repeated |
//! | `sets` | the board of a drawn level, and sets of boxes |
//! | `sketch` | boards, and the level of a board |
//! | `slow` | a reader that returns one byte per read, and can fail |
//! | `tutorial` | the session of the tutorial |
#![tactic(auto)]

pub mod acts;
pub mod chance;
pub mod rooms;
pub mod sets;
pub mod sketch;
pub mod slow;
pub mod tutorial;
