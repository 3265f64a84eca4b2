//! The player's region, and the layout of boxes over the squares of the area.
//!
//! | Module | What it holds |
//! |---|---|
//! | `law` | being the same state |
//! | `layout` | the layout of a state's boxes over the squares of the area |
//! | `path` | the passable squares of a board, as a graph that is searched (private) |
//! | `region` | the squares that the player reaches without a push |
#![tactic(auto)]

pub mod law;
pub mod layout;
mod path;
pub mod region;
