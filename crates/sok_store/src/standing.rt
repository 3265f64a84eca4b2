//! The answer to an offer.

use sok_book::record::Offer;

/// What became of an offer, and the pushes and moves of the best solution after it.
#[derive(Clone, Copy, PartialEq, Eq)]
pub struct Standing {
    pub offer: Offer,
    pub pushes: u32,
    pub moves: u32,
}
