//! A push of a box.

use sok_board::area::Sq;
use sok_rules::cell::Dir;

/// A push: the square of the box before it, and the direction in which the box moves.
#[derive(Clone, Copy, PartialEq, Eq)]
pub struct Push {
    pub from: Sq,
    pub dir: Dir,
}
