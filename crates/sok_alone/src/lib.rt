//! Finds boxes that can't be solved alone on the board.
//!
//! | Module | What it holds |
//! |---|---|
//! | `asking` | which boxes are checked for a loss, and when (private) |
//! | `choosing` | some of the boxes of a position (private) |
//! | `closing` | finds a list of positions of some boxes alone that is closed under pushes |
//! | `expanding` | expands the states of a search (private) |
//! | `finding` | finds the pattern of two boxes |
//! | `found` | a pattern that was found |
//! | `hints` | pushes after which no loss is known, or which one (private) |
//! | `judging` | whether a new state is solved, barred or to be expanded (private) |
//! | `known` | the states that are known (private) |
//! | `losses` | losses: boxes that can't be solved alone on the board; kept for a whole search |
//! | `meeting` | adds a state to those that are known (private) |
//! | `probing` | guesses whether boxes are soon solved (private) |
//! | `workspace` | buffers that searches reuse (private) |
#![tactic(auto)]

mod asking;
mod choosing;
pub mod closing;
mod expanding;
pub mod finding;
pub mod found;
mod hints;
mod judging;
mod known;
pub mod losses;
mod meeting;
mod probing;
mod workspace;
