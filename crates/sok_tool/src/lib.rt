//! The program: its words, its files, its databases and streams, what it writes, and how it ends.
//! The engines are in `sok_play` and `sok_judge`, and what engines share in `sok_engine`. The files
//! are in `sok_files`, and the databases in `sok_databases`.
//!
//! | Module | What it holds |
//! |---|---|
//! | `program` | the program: its words, its streams and its exit status |
//! | `letters` | the letters that a word stands for (private) |
//! | `keeping` | each command on a book (private) |
//! | `certs` | the certificates of a book's levels, in files (private) |
//! | `watched_certs` | how far `settle` has come, noted as it searches (private) |
#![tactic(auto)]

mod certs;
mod keeping;
mod letters;
pub mod program;
mod watched_certs;
