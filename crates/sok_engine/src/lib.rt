//! What all engines share: reading an input, writing an answer, and the faults that leave an engine
//! without an answer. An engine reads all of its input, makes an answer, and writes it.
//!
//! | Module | What it holds |
//! |---|---|
//! | `answer` | an answer, and writing it |
//! | `fault` | why there is no answer |
//! | `input` | how long inputs may be, and reading all of one |
//! | `output` | writing all of a text |
//! | `serving` | an engine that answers an input, and serving one |
#![tactic(auto)]

pub mod answer;
pub mod fault;
pub mod input;
pub mod output;
pub mod serving;
