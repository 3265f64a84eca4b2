//! Lines that are nearly board lines, found in a text as its bytes come.
//!
//! | Module | What it holds |
//! |---|---|
//! | `near` | which lines are nearly board lines |
//! | `scan` | the search for such lines in a text whose bytes come in pieces |
#![tactic(auto)]

pub mod near;
pub mod scan;
