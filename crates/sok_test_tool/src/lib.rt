//! Tests of the program over files: its words, the commands, and what is reported.
//!
//! | Module | What it tests |
//! |---|---|
//! | `checking`, `listing`, `replaying`, `solving` | `check`, `list`, `replay`, `draw` and `solve` on files |
//! | `checks` | the judgement of a certificate for a level of a collection |
//! | `copies` | the commands that only read a book, also a read-only one or one in use |
//! | `devices` | readers and writers that fail, or that return and take little (no test) |
//! | `keeping` | the commands on a book in a file |
//! | `lines` | the jobs that lines of words mean, and the texts that are printed for some of them |
//! | `old_book` | a book that an earlier program wrote |
//! | `plays` | the replay of a text, its words and its streams |
//! | `printing` | the line of each fault |
//! | `refusing` | help, the version, and words that mean no job |
//! | `rows` | command lines on the files of a folder (no test) |
//! | `told` | what is reported beside an answer |
//! | `tutorial` | the session of the tutorial |
#![tactic(auto)]

#[cfg(test)]
mod checking;
#[cfg(test)]
mod checks;
#[cfg(test)]
mod copies;
#[cfg(test)]
mod devices;
#[cfg(test)]
mod keeping;
#[cfg(test)]
mod lines;
#[cfg(test)]
mod listing;
#[cfg(test)]
mod old_book;
#[cfg(test)]
mod plays;
#[cfg(test)]
mod printing;
#[cfg(test)]
mod refusing;
#[cfg(test)]
mod replaying;
#[cfg(test)]
mod rows;
#[cfg(test)]
mod solving;
#[cfg(test)]
mod told;
#[cfg(test)]
mod tutorial;
