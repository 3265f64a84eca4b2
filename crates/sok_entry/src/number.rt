//! Reads the numbers of a certificate's text.

ghost use Rattle.std.specs.Prelude.{ℕ, List, ◌≡◌, IfOk, MatchBool, MatchOption, decimal};
ghost use Rattle.sok_entry.specs.Text.{IsSmall};
ghost use Rattle.sok_entry.specs.Reading.{Tells, AreWords};
ghost use Rattle.sok_entry.specs.Fronts.{BeginsWith, HasDigits};

use crate::limits::LIMIT;
use std::alloc::AllocError;

/// Reads the numbers of a text into `numbers`. Returns false if the text is not numbers with single
/// spaces between them. Reads the text once, byte by byte.
pub(crate) fn read_numbers(numbers: &mut Vec<u32>, text: &[u8]) -> Result<bool, AllocError>
    ensures { IfOk result (λ read. MatchBool read (AreWords text.now numbers.new.items)
        ((ns : List ℕ) → AreWords text.now ns → ⊥)) }
{
    numbers.clear();
    let mut rest = text;
    loop {
        let Some((number, behind)) = cut_number(rest) else {
            return Ok(false);
        };
        numbers.push(number)?;
        let [_space, next @ ..] = behind else {
            return Ok(true);
        };
        rest = next;
    }
}

/// Returns the value of a word that is a decimal number without leading zeros, of at most
/// 1,000,000.
pub(crate) fn number_of(word: &[u8]) -> Option<u32>
    ensures { Tells (λ n. IsSmall n × (word.now ≡ decimal n)) result }
{
    let Some((number, behind)) = cut_number(word) else {
        return None;
    };
    if behind.is_empty() {
        Some(number)
    } else {
        None
    }
}

/// Splits a text after the number with which it begins: decimal, without leading zeros, at most
/// 1,000,000, and followed by a space or the end. Returns the number and the rest, from the space
/// on.
fn cut_number(text: &[u8]) -> Option<(u32, &[u8])>
    ensures { MatchOption result ((n : ℕ) (rest : List ℕ) → BeginsWith text.now n rest → ⊥)
        (λ cut. BeginsWith text.now cut.0 cut.1.now) }
{
    let (number, count) = front_value(text)?;
    if count == 0 {
        return None;
    }
    if count > 1 && text[0] == b'0' {
        return None;
    }
    Some((number, &text[count..]))
}

/// Returns the value and the number of the digits up to the first space or the end. None if another
/// byte comes before, or the value is above 1,000,000.
fn front_value(text: &[u8]) -> Option<(u32, usize)>
    ensures { MatchOption result ((n : ℕ) (rest : List ℕ) → BeginsWith text.now n rest → ⊥)
        (λ told. HasDigits text.now told.0 told.1) }
{
    let mut number: u32 = 0;
    for (count, byte) in text.iter().enumerate() {
        if *byte == b' ' {
            return Some((number, count));
        }
        if !byte.is_ascii_digit() {
            return None;
        }
        number = number * 10 + u32::from(*byte - b'0');
        if number > LIMIT {
            return None;
        }
    }
    Some((number, text.len()))
}
