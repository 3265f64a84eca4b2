//! How many pushes a box needs to reach each goal if no other box is in its way, and from which
//! squares it reaches none.
//!
//! | Module | What it holds |
//! |---|---|
//! | `distances` | the distances of a board's squares to its goals |
//! | `law` | a push by the rules is a push of a box without others |
//! | `pull` | pushes in reverse as the graph of a search from a goal (private) |
//! | `setting` | a board with its distances |
#![tactic(auto)]

pub mod distances;
pub mod law;
mod pull;
pub mod setting;
