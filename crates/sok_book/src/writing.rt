//! The texts of a level and of a solution, as they are kept.

ghost use Rattle.std.specs.Prelude.{◌≡◌, IfOk, string_bytes};
ghost use Rattle.sok_text.specs.Canonical.{level_text};
ghost use Rattle.sok_book.specs.Texts.{lurd_of};

use sok_rules::cell::Dir;
use sok_rules::fault::{Memory, PlayFault};
use sok_rules::level::Level;
use sok_text::lurd::print_lurd;
use sok_text::print::print_level;
use std::alloc::Global;

/// Returns the canonical text of a level.
pub fn text_of(alloc: Global, level: &Level) -> Result<String, Memory>
    ensures { IfOk result (λ text. string_bytes text ≡ level_text level.now) }
{
    let bytes = print_level(alloc, level)?;
    Ok(String::from_utf8(bytes).unwrap())
}

/// Returns the marked text of letters that are played from the start of a level: a letter is in
/// upper case exactly if it pushes. The text ends before the first letter that is not legal.
pub fn lurd_of(alloc: Global, level: &Level, letters: &[Dir]) -> Result<String, Memory>
    ensures { IfOk result (λ text. string_bytes text ≡ lurd_of level.now letters.now) }
{
    let bytes = marked(alloc, level, letters)?;
    Ok(String::from_utf8(bytes).unwrap())
}

/// Returns the bytes of that text.
fn marked(alloc: Global, level: &Level, letters: &[Dir]) -> Result<Vec<u8>, Memory>
    ensures { IfOk result (λ text. text.items ≡ lurd_of level.now letters.now) }
{
    match print_lurd(alloc, level, letters) {
        Ok(text) => Ok(text),
        Err(PlayFault::Blocked(at)) => match print_lurd(alloc, level, &letters[..at]) {
            Ok(text) => Ok(text),
            Err(_) => Err(Memory),
        },
        Err(_) => Err(Memory),
    }
}
