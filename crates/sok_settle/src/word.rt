//! The words of a line: an id, and the text after it.

ghost use Rattle.std.specs.Prelude.{◌≡◌, if◌then◌else◌, nat_lt, pos, position, true};
ghost use Rattle.std.specs.Char.{is_ascii_digit, is_ascii_whitespace};
ghost use Rattle.std.specs.List.{after_first, before_first, list_all};
ghost use Rattle.std.specs.Str.Parse.{digits_value};
ghost use Rattle.sok_settle.specs.Offers.{is_blank_line, word_id};

/// Returns whether a line has no words.
pub(crate) fn is_blank_line(line: &[u8]) -> bool
    ensures { result ≡ is_blank_line line.now }
{
    line.iter().all(|byte| byte.is_ascii_whitespace())
}

/// Returns the first word of a line, and what follows the blank after it.
pub(crate) fn cut_word(line: &[u8]) -> (&[u8], &[u8])
    ensures word { result.0.now ≡ before_first is_ascii_whitespace line.now }
    ensures text { result.1.now ≡ after_first is_ascii_whitespace line.now }
{
    match word_end(line) {
        Some(end) => (&line[..end], &line[end + 1..]),
        None => (line, &line[line.len()..]),
    }
}

fn word_end(line: &[u8]) -> Option<usize>
    ensures { result ≡ position is_ascii_whitespace line.now }
{
    line.iter().position(|byte| byte.is_ascii_whitespace())
}

/// Returns the id that a word is, or 0 if it is no decimal number below 2^32.
pub(crate) fn id_of(word: &[u8]) -> i64
    ensures { result ≡ pos (word_id word.now) }
{
    if has_digits_alone(word) {
        i64::from(number_of(word))
    } else {
        0
    }
}

fn has_digits_alone(word: &[u8]) -> bool
    ensures { result ≡ list_all is_ascii_digit word.now }
{
    word.iter().all(|byte| byte.is_ascii_digit())
}

/// The least number that needs more than 32 bits.
const TOO_LARGE: u64 = 4_294_967_296;

/// Returns the number that digits spell, or 0 if it needs more than 32 bits.
fn number_of(digits: &[u8]) -> u32
    requires { list_all is_ascii_digit digits.now ≡ true }
    ensures { result ≡ (if nat_lt (digits_value 10 digits.now) 4294967296
        then digits_value 10 digits.now else 0) }
{
    let mut number = 0;
    for digit in digits {
        number = (number * 10 + u64::from(*digit - b'0')).min(TOO_LARGE);
    }
    match u32::try_from(number) {
        Ok(number) => number,
        Err(_) => 0,
    }
}
