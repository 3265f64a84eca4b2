//! Closed lists of states: each push from an expanded state leads to another state of the list. The
//! crates above say which states need not be expanded, and what such a list shows.
//!
//! | Module | What it holds |
//! |---|---|
//! | `following` | whether the pushes of a state lead to states of a table (private) |
//! | `placing` | which numbers make a position, and its state |
//! | `roll` | the states of a list, with their depths and marks |
//! | `solved` | positions with all boxes on goals |
#![tactic(auto)]

mod following;
pub mod placing;
pub mod roll;
pub mod solved;
