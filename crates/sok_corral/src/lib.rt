//! Corrals: parts of the area that boxes shut the player out from. If these boxes are a fence, each
//! solution may as well begin with one of their pushes, so the solver follows no others.
//!
//! | Module | What it holds |
//! |---|---|
//! | `fencing` | which pushes of a state are kept |
//! | `guessing` | which boxes are tried as a fence (private) |
//! | `lone` | some boxes of a state, alone on the board (private) |
//! | `patience` | attempts that are skipped (private) |
//! | `sets` | the squares of the area in a set (private) |
//! | `testing` | whether pushes are shut, and whether a box is astray (private) |
#![tactic(auto)]

pub mod fencing;
mod guessing;
mod lone;
mod patience;
mod sets;
mod testing;
