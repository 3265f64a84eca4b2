//! States: positions that differ only by walking are one state, which has one key.
//!
//! | Module | What it holds |
//! |---|---|
//! | `around` | the player's region after a push, from the squares around its box (private) |
//! | `bit_key` | keys as sets of bits (private) |
//! | `expansion` | a loaded state with its legal pushes, which are followed |
//! | `key` | the key of a state: its boxes, and the least square that the player can walk to |
//! | `law` | keys are equal exactly if the states are |
//! | `least` | the least square that the player can walk to (private) |
//! | `legal` | the pushes that are legal from a state |
//! | `list_key` | keys as short lists of squares (private) |
//! | `normalizer` | keys of many positions, with shared buffers |
//! | `packed` | the trait of the keys that a table keeps (private) |
//! | `packed_table` | packed keys of one form in order of insertion, with depths (private) |
//! | `push` | a push: the square of its box, and its direction |
//! | `scene` | a loaded state |
//! | `stepping` | the state that a push leads to |
//! | `store` | a table of packed keys, in the form that suits a board (private) |
//! | `table` | keys in order of insertion, with depths, as narrow as a board allows |
#![tactic(auto)]

mod around;
mod bit_key;
pub mod expansion;
pub mod key;
pub mod law;
mod least;
pub mod legal;
mod list_key;
pub mod normalizer;
mod packed;
mod packed_table;
pub mod push;
pub mod scene;
pub mod stepping;
mod store;
pub mod table;
