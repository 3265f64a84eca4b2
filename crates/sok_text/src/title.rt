//! Titles of levels, from the notes around a board.

ghost use Rattle.std.specs.Prelude.{◌≡◌, ◌∷◌, [], find, length, not, option_map, reverse};
ghost use Rattle.std.specs.List.{list_all};
ghost use Rattle.std.specs.Str.Lines.{lines};
ghost use Rattle.sok_text.specs.Titles.{is_space, trimmed_front, trimmed_back, trimmed_text};
ghost use Rattle.sok_text.specs.Titles.{text_behind, title_after, title_before, first_text};

use crate::line::cut_line;

/// Returns the title in the notes before and after a board. One after the board takes precedence.
pub(crate) fn title_between<'a>(before: &'a [u8], after: &'a [u8]) -> Option<&'a [u8]>
    ensures { option_map (λ title. title.now) result
        ≡ first_text (title_after (lines after.now) ∷ title_before (lines before.now) ∷ []) }
{
    match title_after(after) {
        Some(title) => Some(title),
        None => title_before(before),
    }
}

fn title_after(notes: &[u8]) -> Option<&[u8]>
    ensures { option_map (λ title. title.now) result ≡ title_after (lines notes.now) }
{
    let mut rest = notes;
    while !rest.is_empty() {
        let (line, next) = cut_line(rest);
        match text_behind(b"Title:", line) {
            Some(title) => return Some(title),
            None => rest = next,
        }
    }
    None
}

fn title_before(notes: &[u8]) -> Option<&[u8]>
    ensures { option_map (λ title. title.now) result ≡ title_before (lines notes.now) }
{
    text_behind(b";", last_full_line(notes)?)
}

/// Returns the last line that is not blank.
fn last_full_line(notes: &[u8]) -> Option<&[u8]>
    ensures { option_map (λ line. line.now) result
        ≡ find (λ line. not (list_all is_space line)) (reverse (lines notes.now)) }
{
    let mut rest = notes;
    let mut last = None;
    while !rest.is_empty() {
        let (line, next) = cut_line(rest);
        if !is_blank_line(line) {
            last = Some(line);
        }
        rest = next;
    }
    last
}

fn is_blank_line(line: &[u8]) -> bool
    ensures { result ≡ list_all is_space line.now }
{
    line.iter().all(|byte| is_space(*byte))
}

/// Returns the trimmed text of a line after a mark at its front, if there is any.
fn text_behind<'a>(mark: &[u8], line: &'a [u8]) -> Option<&'a [u8]>
    ensures { option_map (λ text. text.now) result ≡ text_behind mark.now line.now }
{
    if !line.starts_with(mark) {
        return None;
    }
    let text = trim(&line[mark.len()..]);
    if text.is_empty() { None } else { Some(text) }
}

/// Returns a text without the spaces and tabs at its ends.
fn trim(text: &[u8]) -> &[u8]
    ensures { result.now ≡ trimmed_text text.now }
{
    trim_back(trim_front(text))
}

/// Returns a text without the spaces and tabs at its front.
pub fn trim_front(text: &[u8]) -> &[u8]
    ensures { result.now ≡ trimmed_front text.now }
{
    let mut start = 0;
    while start < text.len() && is_space(text[start]) {
        start += 1;
    }
    &text[start..]
}

fn trim_back(text: &[u8]) -> &[u8]
    ensures { result.now ≡ trimmed_back text.now }
{
    let mut end = text.len();
    while end > 0 && is_space(text[end - 1]) {
        end -= 1;
    }
    &text[..end]
}

/// Returns whether a byte is a space or a tab.
pub fn is_space(byte: u8) -> bool
    ensures { result ≡ is_space byte }
{
    byte == b' ' || byte == b'\t'
}
