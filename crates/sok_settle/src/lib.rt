//! The engines that go through a whole book. One settles its levels: it searches each level without a
//! verdict beside its best, offers a better solution if it finds one, and sets the verdict. The other
//! offers the lines of a text.
//!
//! | Module | What it holds |
//! |---|---|
//! | `law` | what holds of the book afterwards |
//! | `certs` | how levels are searched, and where their certificates go |
//! | `search` | the search of a level, beside its best or alone |
//! | `settle` | settling the levels of a book |
//! | `offers` | offering the lines of a text |
//! | `level` | settling one level (private) |
//! | `line` | the line of a level, or of an offer (private) |
//! | `word` | the words of a line (private) |
#![tactic(auto)]

pub mod certs;
pub mod law;
mod level;
mod line;
pub mod offers;
pub mod search;
pub mod settle;
mod word;
