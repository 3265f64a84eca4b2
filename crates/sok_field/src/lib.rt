//! Sets of squares in bit rows, and which squares are joined over them.
//!
//! | Module | What it holds |
//! |---|---|
//! | `bits` | bit rows, read and written: a square at a time, or all at once (private) |
//! | `crossing` | the flood over both halves of a set (private) |
//! | `drawing` | squares of a board in bit rows |
//! | `field` | sets of squares of a level, in bit rows |
//! | `flood` | the flood within one half (private) |
//! | `half` | half of a set: 64 columns in bit rows (private) |
//! | `law` | bit rows and the numbers of a board's squares |
//! | `numbers` | sets of squares as bits by number |
//! | `spans` | squares side by side, as bits of a word (private) |
//! | `spread` | rounds: a round adds the squares beside those of a set, in all rows at once |
//! | `sweep` | sweeps, by which a flood proceeds along rows and from row to row (private) |
#![tactic(auto)]

mod bits;
mod crossing;
pub mod drawing;
pub mod field;
mod flood;
mod half;
pub mod law;
pub mod numbers;
mod spans;
pub mod spread;
mod sweep;
