//! Counts: digits before the character that they repeat.

ghost use Rattle.std.specs.Prelude.{◌≡◌, ◌+◌, ◌++◌, false, min};
ghost use Rattle.std.specs.Char.{is_ascii_digit};
ghost use Rattle.std.specs.List.{AllPass};
ghost use Rattle.sok_rules.specs.Limits.{letter_limit};
ghost use Rattle.sok_text.specs.Counts.{times, starts_with_digit};

use crate::lurd::LIMIT;

/// Splits a text after the digits that it begins with.
pub(crate) fn cut_digits(text: &[u8]) -> (&[u8], &[u8])
    ensures whole { text.now ≡ result.0.now ++ result.1.now }
    ensures digits { AllPass is_ascii_digit result.0.now }
    ensures behind { starts_with_digit result.1.now ≡ false }
{
    let mut end = 0;
    while end < text.len() && text[end].is_ascii_digit() {
        end += 1;
    }
    text.split_at(end)
}

/// Returns how often these digits repeat the character after them, at most 1,000,001. Without
/// digits, returns 1.
pub(crate) fn times(digits: &[u8]) -> usize
    requires { AllPass is_ascii_digit digits.now }
    ensures { result ≡ min (times digits.now) (letter_limit + 1) }
{
    if digits.is_empty() {
        return 1;
    }
    let mut number = 0;
    for digit in digits {
        number = (number * 10 + usize::from(*digit - b'0')).min(LIMIT + 1);
    }
    number
}
