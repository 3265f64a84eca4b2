//! The minimum assignment of boxes to goals, with prices that prove it, or a crowd: boxes that
//! reach fewer goals than they are.
//!
//! Each box and each goal has a price. Prices are fair if no box costs more than a goal plus the
//! way there. They are tight for a box and a goal if both are equal.
//!
//! | Module | What it holds |
//! |---|---|
//! | `assign` | the minimum assignment of boxes to goals, or a crowd |
//! | `costs` | the cost of bringing each box to each goal (private) |
//! | `exchange` | the exchange of one row of a matching for another (private) |
//! | `law` | prices bound the pushes, and a crowd has no solution |
//! | `matching` | a matching that is kept from one set of boxes to the next |
//! | `reading` | the prices and goals of boxes, read from a matching (private) |
//! | `search` | the search for a goal for one more box (private) |
//! | `settle` | the rows of a matching, exchanged until they are those of some boxes (private) |
//! | `slacks` | how far prices may rise before a goal is reached (private) |
#![tactic(auto)]

pub mod assign;
mod costs;
mod exchange;
pub mod law;
pub mod matching;
mod reading;
mod search;
mod settle;
mod slacks;
