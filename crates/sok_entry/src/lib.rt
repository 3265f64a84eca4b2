//! Certificates and their text. A certificate is a claim, and positions with reasons that show it.
//!
//! | Module | What it holds |
//! |---|---|
//! | `claim` | what a certificate claims |
//! | `entry` | the positions of a certificate, each with its reason |
//! | `fault` | why a text is no certificate, and why a certificate is refused |
//! | `grammar` | reads the lines of a certificate (private) |
//! | `head` | entries whose first line has been read |
//! | `inners` | the inner positions of a pattern, which many entries may share |
//! | `known` | lists of inner positions that were read before |
//! | `law` | what is written is read again, and each text has one reading |
//! | `limits` | which certificates have a text |
//! | `number` | reads the numbers of a text (private) |
//! | `reading` | reads certificates from their text |
//! | `stage` | how far a certificate has been read, line by line |
//! | `version` | the versions of the text |
//! | `writing` | writes the text of a certificate, whole or line by line |
#![tactic(auto)]

pub mod claim;
pub mod entry;
pub mod fault;
mod grammar;
pub mod head;
pub mod inners;
pub mod known;
pub mod law;
pub mod limits;
mod number;
pub mod reading;
pub mod stage;
pub mod version;
pub mod writing;
