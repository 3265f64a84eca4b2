//! Sets of squares as bits by number, in words of 64 bits.

ghost use Rattle.std.specs.Prelude.{ℕ, ◌≡◌, ◌<◌, ◌≤◌, ◌*◌, ◌↔◌, ◌⊎◌, IsTrue, MatchOption, false};
ghost use Rattle.std.specs.Prelude.{length};
ghost use Rattle.sok_board.specs.Area.{spot_of};
ghost use Rattle.sok_field.specs.Fields.{has};
ghost use Rattle.sok_field.specs.Numbers.{bit_of_number, has_number, IsLeast};

use crate::bits;
use crate::field::Field;
use crate::spans::put_word;
use sok_board::area::Sq;
use sok_board::board::Board;
use sok_rules::cell::Spot;

/// The number of words that have a bit for each square of an area.
pub const WORDS: usize = 64;

/// Returns where the bit of a number is: a word, and a bit of it.
fn bit_of(square: Sq) -> Spot
    ensures { result ≡ bit_of_number square }
{
    Spot {
        row: (square / 64) as u32,
        col: (square % 64) as u32,
    }
}

/// Returns whether a square is in a set. A square past the words is in none.
pub fn has(words: &[u64], square: Sq) -> bool
    ensures { result ≡ has_number words.now square }
{
    bits::has(words, bit_of(square))
}

/// Puts a square into a set.
pub fn put(words: &mut [u64], square: Sq)
    requires { square < 64 * length words.old }
    ensures { (n : ℕ) → IsTrue (has_number words.new n)
        ↔ ((n ≡ square) ⊎ IsTrue (has_number words.old n)) }
{
    bits::put(words, bit_of(square));
}

/// Removes a square from a set.
pub fn take(words: &mut [u64], square: Sq)
    requires { square < 64 * length words.old }
    ensures { (n : ℕ) → IsTrue (has_number words.new n)
        ↔ ((n ≡ square → ⊥) × IsTrue (has_number words.old n)) }
{
    bits::take(words, bit_of(square));
}

/// Returns the square with the least number.
pub fn first(words: &[u64]) -> Option<Sq>
    requires { length words.now ≤ WORDS }
    ensures { MatchOption result
        ((n : ℕ) → has_number words.now n ≡ false) (IsLeast (has_number words.now)) }
{
    match bits::first(words) {
        Some(bit) => Some((bit.row * 64 + bit.col) as Sq),
        None => None,
    }
}

/// Overwrites `words` with the squares of a set that have numbers.
pub fn write(words: &mut [u64], set: &Field, board: &Board)
    requires { length board.now.area ≤ 64 * length words.old }
    ensures { (n : ℕ) → IsTrue (has_number words.new n)
        ↔ ((n < length board.now.area) × IsTrue (has set.now (spot_of board.now n))) }
{
    bits::clear(words);
    let spans = board.spans();
    for span in spans {
        put_word(words, set.cut(*span), span.number);
    }
}
