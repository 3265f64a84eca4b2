//! The solver: it finds a solution with the fewest pushes, or proves that there is none, with a
//! certificate for the answer.
//!
//! | Module | What it holds |
//! |---|---|
//! | `collecting` | where the entries of a certificate are collected |
//! | `fault` | why a level is not solved |
//! | `finding` | what a search finds of a level, of which a solution is known or none |
//! | `found` | what a search finds of a level |
//! | `improved` | whether a solution that is known can be improved |
//! | `outcome` | what the solver answers of a level, with a certificate |
//! | `solve` | the solver |
//! | `aim` | what a search is asked for (private) |
//! | `barring` | the reasons of a certificate, found again (private) |
//! | `beginning` | a search that knows the start alone (private) |
//! | `buckets`, `queue` | states that wait, by the pushes that they need at least (private) |
//! | `certifying` | the certificate of a search (private) |
//! | `expanding` | a state is expanded (private) |
//! | `halted` | what a search shows that was cut off (private) |
//! | `judging` | how a new state stands, and whether a state is solved (private) |
//! | `note` | what a search notes of a state (private) |
//! | `push_scratch` | how a new state stands that a push leads to (private) |
//! | `reaching` | a push is followed (private) |
//! | `running` | one state is taken after another (private) |
//! | `search` | what a search knows (private) |
//! | `step` | a state that is expanded, a push from it, and where the push leads (private) |
//! | `stop` | why a search stops before its end (private) |
//! | `tracing` | the pushes that lead to a solved state (private) |
//! | `walkthrough` | the letters that make pushes one after another (private) |
#![tactic(auto)]

mod aim;
mod barring;
mod beginning;
mod buckets;
mod certifying;
pub mod collecting;
mod expanding;
pub mod fault;
pub mod finding;
pub mod found;
mod halted;
pub mod improved;
mod judging;
mod note;
pub mod outcome;
mod push_scratch;
mod queue;
mod reaching;
mod running;
mod search;
pub mod solve;
mod step;
mod stop;
mod tracing;
mod walkthrough;
