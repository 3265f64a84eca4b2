//! Keys as sets of bits.

ghost use Rattle.std.specs.Prelude.{ℕ, ◌<◌, ◌^◌, slice_index};
ghost use Rattle.sok_state.specs.PackedKeys.{IsOfWords, TakesBits, TakesBitsMove, bit_state};

use crate::key::Key;
use crate::packed::Packed;
use sok_board::area::{BOX_LIMIT, Sq};
use sok_board::box_set::BoxSet;
use sok_field::numbers;
use sok_rules::fault::Memory;
use std::alloc::Global;

/// A packed `Key`: the squares of its boxes as bits by their numbers, and the least square that the
/// player can walk to. `N` words have a bit for each square of the board.
#[derive(Clone, Copy, PartialEq, Eq, Hash)]
pub(crate) struct BitKey<const N: usize> {
    boxes: [u64; N],
    least: Sq,
}

impl<const N: usize> Packed for BitKey<N> {
    ghost use Rattle.sok_state.specs.PackedLaws.{same_bits};

    ghost state_of = { bit_state };

    ghost fits = { λ key. IsOfWords N key };

    ghost takes = { TakesBits N };

    ghost takes_move = { λ _. TakesBitsMove N };

    ghost tells = { same_bits N };

    fn of(key: &Key) -> BitKey<N> {
        let mut boxes = [0; N];
        for square in key.boxes.list() {
            numbers::put(&mut boxes, *square);
        }
        fit(&boxes);
        BitKey {
            boxes,
            least: key.least,
        }
    }

    fn least(&self) -> Sq {
        self.least
    }

    /// Reserves room for the boxes first.
    fn boxes(&self, alloc: Global) -> Result<BoxSet, Memory> {
        let mut squares = Vec::new(alloc);
        squares.reserve(BOX_LIMIT)?;
        let mut left = self.boxes;
        while let Some(square) = numbers::first(&left) {
            squares.push(square)?;
            numbers::take(&mut left, square);
        }
        BoxSet::of(alloc, &squares)
    }

    fn moved(&self, from: Sq, to: Sq, least: Sq) -> BitKey<N> {
        let mut boxes = self.boxes;
        numbers::take(&mut boxes, from);
        numbers::put(&mut boxes, to);
        fit(&boxes);
        BitKey { boxes, least }
    }
}

/// Shows that each word has 64 bits, so that keys with the same squares are equal. It does nothing.
fn fit(words: &[u64])
    ensures { (r : ℕ) → slice_index words.now r < 2 ^ 64 }
{
    let _words = words;
}
