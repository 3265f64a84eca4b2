//! The engine that judges a certificate for a level of a collection.
//!
//! | Module | What it holds |
//! |---|---|
//! | `check` | judging a certificate |
//! | `reading` | a certificate, judged as it is read (private) |
//! | `verdict` | the answer for a verdict |
#![tactic(auto)]

pub mod check;
mod reading;
pub mod verdict;
