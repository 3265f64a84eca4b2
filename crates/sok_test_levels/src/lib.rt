//! Tests of single levels and texts, from the rules up to the engines on files: worked levels,
//! with answers that were worked out by hand.
//!
//! | Module | What it tests |
//! |---|---|
//! | `answers` | the solver's whole answers, the limits, and levels whose states were all searched |
//! | `collections` | which levels a text holds, their titles and their texts |
//! | `devices` | readers that fail |
//! | `engines` | the engines, without their contracts (no test) |
//! | `faults` | what the solver refuses, and writers that are full |
//! | `forgeries` | certificates that are forged |
//! | `letters` | which letters a text spells, and the text of played letters |
//! | `levels` | which rows are a level |
//! | `lines` | the list of a collection's levels, and the replay of a text: all that is written |
//! | `near` | which lines of a text are almost lines of a board |
//! | `patterns` | certificates with patterns, judged |
//! | `plays` | replays, and play letter by letter with undo and redo |
//! | `solves` | the fewest pushes of worked levels, or that there are none, and what limits mean |
//! | `texts` | which texts are certificates, and writing them again |
//! | `verdicts` | certificates of worked levels, judged |
//! | `wide` | levels past the column 63, and of 128 rows and columns |
#![tactic(auto)]

#[cfg(test)]
mod answers;
#[cfg(test)]
mod collections;
#[cfg(test)]
mod devices;
#[cfg(test)]
mod engines;
#[cfg(test)]
mod faults;
#[cfg(test)]
mod forgeries;
#[cfg(test)]
mod letters;
#[cfg(test)]
mod levels;
#[cfg(test)]
mod lines;
#[cfg(test)]
mod near;
#[cfg(test)]
mod patterns;
#[cfg(test)]
mod plays;
#[cfg(test)]
mod solves;
#[cfg(test)]
mod texts;
#[cfg(test)]
mod verdicts;
#[cfg(test)]
mod wide;
