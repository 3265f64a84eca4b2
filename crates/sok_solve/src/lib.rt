//! The engine that solves a level of a collection.
//!
//! | Module | What it holds |
//! |---|---|
//! | `certificate` | the text of a certificate, made as its entries are found |
//! | `find` | solving a level without a certificate |
//! | `report` | the answer that reports what a search found |
//! | `solve` | solving a level with a certificate |
//! | `task` | which level is to be solved, and how |
#![tactic(auto)]

pub mod certificate;
pub mod find;
mod report;
pub mod solve;
pub mod task;
