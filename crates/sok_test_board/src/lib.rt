//! Tests of boards, of what is found on them, and of prices and reasons: worked levels and
//! positions, with answers that were worked out by hand.
//!
//! | Module | What it tests |
//! |---|---|
//! | `boards` | which levels a solver accepts, and their square numbers |
//! | `bounds` | dual prices as a reason, and spent pushes as one |
//! | `crowds` | crowds as a reason |
//! | `distances` | how far a box is from each goal, and where it is stuck |
//! | `fences` | which pushes of a state are kept, with a fence and without one |
//! | `jams` | frozen boxes as a reason, and which are found |
//! | `lifts` | how many pushes pairs of boxes must waste, and which pairs are lost |
//! | `matching` | a matching that is kept from one set of boxes to the next |
//! | `pairs` | two or three boxes that can't be solved, even alone |
//! | `positions` | positions, and whether a reason holds of one (no test) |
//! | `prices` | minimum assignments of boxes to goals, and crowds |
//! | `regions` | the squares that the player reaches without a push, and the walks to them |
//! | `rounds` | rounds of the flood of squares, in rows of words |
//! | `sets` | sets of boxes |
//! | `setting` | squares that exist, and boxes and a player on them (no test) |
//! | `states` | the states of a level, and their pushes |
//! | `tables` | tables of states |
#![tactic(auto)]

#[cfg(test)]
mod boards;
#[cfg(test)]
mod bounds;
#[cfg(test)]
mod crowds;
#[cfg(test)]
mod distances;
#[cfg(test)]
mod fences;
#[cfg(test)]
mod jams;
#[cfg(test)]
mod lifts;
#[cfg(test)]
mod matching;
#[cfg(test)]
mod pairs;
#[cfg(test)]
mod positions;
#[cfg(test)]
mod prices;
#[cfg(test)]
mod regions;
#[cfg(test)]
mod rounds;
#[cfg(test)]
mod sets;
#[cfg(test)]
mod setting;
#[cfg(test)]
mod states;
#[cfg(test)]
mod tables;
