//! The area of a level: the squares in which play takes place, numbered row by row.
//!
//! | Module | What it holds |
//! |---|---|
//! | `area` | the squares of an area, their numbers, and those of goals and boxes |
//! | `board` | an accepted level with its squares |
//! | `box_set` | the squares of the boxes of a position |
//! | `cells` | what stands on a level's squares (private) |
//! | `fault` | why a level is not accepted |
//! | `floor` | the open squares of a level as the nodes of a search (private) |
//! | `law` | play stays in the area, and a level has at most one fault |
//! | `neighbours` | the numbers of the squares next to each square (private) |
//! | `places` | the squares of a level's text in reading order (private) |
//! | `refusal` | the squares because of which a level is not accepted (private) |
//! | `search` | breadth-first search over numbered nodes |
//! | `spans` | the area as spans of squares that lie side by side |
//! | `survey` | the tests that a level must pass to be accepted, in order (private) |
//! | `table` | tables with an entry for each square (private) |
#![tactic(auto)]

pub mod area;
pub mod board;
pub mod box_set;
mod cells;
pub mod fault;
mod floor;
pub mod law;
mod neighbours;
mod places;
mod refusal;
pub mod search;
pub mod spans;
mod survey;
mod table;
