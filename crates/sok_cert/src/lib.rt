//! The checker of certificates. A certificate is a list of positions that shows how many pushes a
//! level needs, or that it has no solution. `sok_entry` defines certificates and their text; they
//! are re-exported here.
//!
//! | Module | What it holds |
//! |---|---|
//! | `accepted` | what an accepted certificate shows |
//! | `check` | the checker |
//! | `close` | whether a list of fine entries is closed (private) |
//! | `entering` | enters the state of an entry into the roll (private) |
//! | `judging` | whether the reason of an entry holds (private) |
//! | `law` | closed certificates are true; a list and a text have one verdict |
//! | `progress` | the state of a certificate that is read in pieces (private) |
//! | `reason` | what is left of a claim at a depth, and which entries are expanded (private) |
//! | `roster` | entries that are judged one by one (private) |
//! | `stream` | certificates that are checked as they are read |
#![tactic(auto)]

pub mod accepted;
pub mod check;
mod close;
mod entering;
mod judging;
pub mod law;
mod progress;
mod reason;
mod roster;
pub mod stream;

pub use sok_entry::{
    claim, entry, fault, inners, law as text_law, limits, reading, stage, version, writing,
};
