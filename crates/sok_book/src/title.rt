//! Which part of a title is kept.

ghost use Rattle.std.specs.Prelude.{◌≡◌, ◌↔◌, IsTrue, option_map, position};
ghost use Rattle.std.specs.List.{before_first};
ghost use Rattle.sok_text.specs.Lines.{is_newline};
ghost use Rattle.sok_text.specs.Titles.{without_back};
ghost use Rattle.sok_book.specs.Titles.{is_end_blank, kept_title};
ghost use Rattle.sok_book.specs.Titles.{IsTitle, KeptAreTitles, TitlesAreKept};

use sok_text::title::{is_space, trim_front};

/// Returns the title that is kept, as a slice of `text`: its first line, up to an LF, without
/// spaces and tabs at its front, and without spaces, tabs and CRs at its back. `None` if nothing is
/// left.
pub fn kept_title(text: &[u8]) -> Option<&[u8]>
    ensures { option_map (λ title. title.now) result ≡ kept_title text.now }
{
    let title = without_blanks_at_back(trim_front(first_line(text)));
    if title.is_empty() { None } else { Some(title) }
}

/// Returns whether a text is a title exactly as it would be kept.
pub fn is_title(text: &[u8]) -> bool
    ensures { IsTrue result ↔ IsTitle text.now }
{
    match kept_title(text) {
        Some(title) => title == text,
        None => false,
    }
}

/// Returns what stands before the first LF, or all if there is none.
fn first_line(text: &[u8]) -> &[u8]
    ensures { result.now ≡ before_first is_newline text.now }
{
    match line_end(text) {
        Some(end) => &text[..end],
        None => text,
    }
}

/// Returns the place of the first LF.
fn line_end(text: &[u8]) -> Option<usize>
    ensures { result ≡ position is_newline text.now }
{
    text.iter().position(|byte| *byte == b'\n')
}

fn without_blanks_at_back(text: &[u8]) -> &[u8]
    ensures { result.now ≡ without_back is_end_blank text.now }
{
    let mut end = text.len();
    while end > 0 && is_end_blank(text[end - 1]) {
        end -= 1;
    }
    &text[..end]
}

fn is_end_blank(byte: u8) -> bool
    ensures { result ≡ is_end_blank byte }
{
    is_space(byte) || byte == b'\r'
}

/// A kept title is not empty, has one line, no space or tab at its ends and no CR at its back. Such
/// a title is kept unchanged, so keeping a title twice is the same as keeping it once.
pub fn titles_stay()
    ensures kept { KeptAreTitles }
    ensures same { TitlesAreKept }
{}
