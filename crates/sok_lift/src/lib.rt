//! Lifts: how many pushes two boxes must waste because they are in each other's way. They raise the
//! lower bound of a state, and show that some pairs of boxes can't be solved at all.
//!
//! | Module | What it holds |
//! |---|---|
//! | `check` | whether the numbers of a table are lifts (private) |
//! | `lifts` | the table: a lift for two boxes and the player |
//! | `making` | how the table is filled, from the goals backward (private) |
//! | `raise` | what the lifts of a state's pairs add up to, and pairs that are lost |
//! | `waste` | how many pushes a push wastes (private) |
#![tactic(auto)]

mod check;
pub mod lifts;
mod making;
pub mod raise;
mod waste;
