//! The table of levels in a database: its statements, and what each makes of the rows as values.
//!
//! | Module | What it holds |
//! |---|---|
//! | `making` | creating the table |
//! | `reading` | reading rows |
//! | `writing` | adding or changing a row |
//!
//! Clauses about what a connection shows assume that the disk returned what was written
//! (`HasCleanDisk` of the state after the call). In memory that is always so.
#![tactic(auto)]

pub mod making;
pub mod reading;
pub mod writing;
