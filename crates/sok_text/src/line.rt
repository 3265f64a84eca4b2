//! The lines of a text, and the boards and notes that they form.

ghost use Rattle.std.specs.Prelude.{◌≡◌, ◌<◌, ◌≤◌, ◌-◌, ◌==◌, MatchOption, position, length, take};
ghost use Rattle.std.specs.Str.Lines.{lines, strip_carriage_return};
ghost use Rattle.sok_text.specs.Lines.{first_line, after_line, IsCutAtEnd, IsUnended};
ghost use Rattle.sok_text.specs.Lines.{Passes, PassesBoard};
ghost use Rattle.sok_text.specs.Kinds.{kind_of, StartsOther};
ghost use Rattle.sok_text.specs.declared.kind.Kind.TheVariants as kind;

use crate::kind::{Kind, kind_of};
use memchr::memchr;

/// A place in a text at the start of a line, and the kind of that line.
#[derive(Clone, Copy)]
pub(crate) struct Place<'a> {
    /// The text from the line on.
    pub(crate) rest: &'a [u8],
    /// The text after the line.
    next: &'a [u8],
    kind: Kind,
    ghost behind: { next.now ≡ after_line rest.now },
    ghost is: { kind ≡ kind_of (first_line rest.now) },
}

/// Returns the place at the start of a text.
pub(crate) fn place_at(text: &[u8]) -> Place<'_>
    ensures { result.rest.now ≡ text.now }
{
    let (line, next) = cut_line(text);
    Place {
        rest: text,
        next,
        kind: kind_of(line),
    }
}

/// Skips the lines of a kind with which a text begins.
pub(crate) fn pass<'a>(kind: Kind, from: Place<'a>) -> Place<'a>
    ensures passes { Passes kind from.entry.rest.now result.rest.now }
    ensures ends { StartsOther kind (lines result.rest.now) }
{
    let mut here = from;
    while !here.rest.is_empty() && here.kind == kind {
        here = place_at(here.next);
    }
    here
}

/// Skips the board with which a text begins: a packed line, or the lines of a board.
pub(crate) fn pass_board<'a>(from: Place<'a>) -> Place<'a>
    requires full { 0 < length from.rest.now }
    requires begins { kind_of (first_line from.rest.now) ≡ kind.Note → ⊥ }
    ensures { PassesBoard from.entry.rest.now result.rest.now }
{
    match from.kind {
        Kind::Packed => place_at(from.next),
        _ => pass(Kind::Row, from),
    }
}

/// Returns the part of `text` before `rest`, with which it ends.
pub(crate) fn before<'a>(text: &'a [u8], rest: &[u8]) -> &'a [u8]
    requires { length rest.now ≤ length text.now }
    ensures { result.now ≡ take (length text.now - length rest.now) text.now }
{
    &text[..text.len() - rest.len()]
}

/// Returns the first line of a text without its end, and the text after it. LF ends a line. One CR
/// before that LF belongs to the end.
pub fn cut_line(text: &[u8]) -> (&[u8], &[u8])
    ensures line { result.0.now ≡ first_line text.now }
    ensures rest { result.1.now ≡ after_line text.now }
{
    match line_end(text) {
        Some(end) => (without_return(&text[..end]), &text[end + 1..]),
        None => (text, &text[text.len()..]),
    }
}

/// Returns the bytes before the first LF of a text, and those after it. `None` if there is no LF.
pub fn cut_at_end(text: &[u8]) -> Option<(&[u8], &[u8])>
    ensures { MatchOption result (IsUnended text.now)
        (λ cut. IsCutAtEnd text.now cut.0.now cut.1.now) }
{
    match line_end(text) {
        Some(end) => Some((&text[..end], &text[end + 1..])),
        None => None,
    }
}

fn line_end(text: &[u8]) -> Option<usize>
    ensures { result ≡ position (λ byte. byte == 10) text.now }
{
    memchr(b'\n', text)
}

/// Returns a line without the one carriage return at its end, if it has one.
pub fn without_return(line: &[u8]) -> &[u8]
    ensures { result.now ≡ strip_carriage_return line.now }
{
    match line {
        [front @ .., b'\r'] => front,
        _ => line,
    }
}
