//! Reasons for barring a position: why it needs many pushes, or has no solution.
//!
//! | Module | What it holds |
//! |---|---|
//! | `alone` | whether positions of some boxes alone are closed under pushes (private) |
//! | `bar` | the trait of the reasons |
//! | `bound` | prices that bound the pushes from below |
//! | `crowd` | boxes that reach too few goals |
//! | `frozen` | boxes that hold each other for ever |
//! | `held` | which boxes are held along both axes (private) |
//! | `inners` | positions of some boxes alone: which are expanded, and whether lists are equal |
//! | `layout_jam` | whether the boxes of a layout have a jam |
//! | `law` | if a reason's claim is true of a position, it bars the position |
//! | `members` | lists of members of a box list (private) |
//! | `memo` | a memo of lists of positions that were found closed |
//! | `pattern` | boxes that are never solved, even alone on the board |
//! | `reason` | whether the reason of an entry holds |
//! | `rest` | what is still to be shown of a position |
//! | `spent` | no more pushes are asked for |
#![tactic(auto)]

mod alone;
pub mod bar;
pub mod bound;
pub mod crowd;
pub mod frozen;
mod held;
pub mod inners;
pub mod law;
pub mod layout_jam;
mod members;
pub mod memo;
pub mod pattern;
pub mod reason;
pub mod rest;
pub mod spent;
