//! Which lines are nearly board lines, or titles that a byte order mark hides.

ghost use Rattle.std.specs.Prelude.{◌≡◌, ◌==◌, IsSome, Some, count_by, position};
ghost use Rattle.std.specs.List.{list_any};
ghost use Rattle.sok_text.specs.Kinds.{kind_of};
ghost use Rattle.sok_text.specs.declared.kind.Kind.TheVariants.{Note};
ghost use Rattle.sok_near.specs.NearLines.{has_one_odd, is_hidden_title, is_near, is_odd, is_odd_row, near_by, near_place, near_words};

use sok_text::kind::{Kind, kind_of};
use sok_text::xsb::cell_of;
use std::fmt;

/// The maximum number of bytes in a line that is checked.
const NEAR_LIMIT: usize = 1000;

/// A line that is nearly a board line, or a hidden title.
#[derive(Clone, Copy, Default, PartialEq, Eq)]
pub struct NearLine {
    /// The number of the line, counted from 1.
    pub line: u64,
    /// The place, in bytes from 0, of what keeps it from being a board line.
    pub place: usize,
}

impl fmt::Display for NearLine {
    ghost output = { λ near. Some (near_words near) };

    fn fmt<W: fmt::Write>(&self, f: &mut fmt::Formatter<W>) -> fmt::Result {
        let NearLine { line, place } = *self;
        write!(f, "line {line}: byte {place} is no board character")
    }
}

/// Returns the place of the one byte, or the byte order mark, that keeps a line from being a board
/// line or a title. The line is given without its end. `None` if the line is not a note, has more
/// than 1,000 bytes, or is neither: a row has a wall and no other such byte, and a title has `;`
/// after the mark.
#[tactic(auto, unfolding(crate::specs::NearLines::near_place))]
pub fn near_place(line: &[u8]) -> Option<usize>
    ensures place { result ≡ near_place line.now }
    ensures note { IsSome result → kind_of line.now ≡ Note }
{
    near_by(kind_of(line), line)
}

/// Like `near_place`, for a line of this kind.
fn near_by(kind: Kind, line: &[u8]) -> Option<usize>
    ensures place { result ≡ near_by kind line.now }
    ensures note { IsSome result → kind ≡ Note }
{
    match kind {
        Kind::Note if is_near(line) => odd_place(line),
        _ => None,
    }
}

/// Returns whether a note is nearly a board line.
fn is_near(line: &[u8]) -> bool
    ensures { result ≡ is_near line.now }
{
    line.len() <= NEAR_LIMIT && (is_hidden_title(line) || is_odd_row(line))
}

/// Returns whether a note begins with a byte order mark and the semicolon of a title.
fn is_hidden_title(line: &[u8]) -> bool
    ensures { result ≡ is_hidden_title line.now }
{
    line.starts_with(b"\xEF\xBB\xBF;")
}

/// Returns whether a note has a wall, and one odd byte or a byte order mark.
fn is_odd_row(line: &[u8]) -> bool
    ensures { result ≡ is_odd_row line.now }
{
    has_wall(line) && has_one_odd(line)
}

fn has_wall(line: &[u8]) -> bool
    ensures { result ≡ list_any (λ c. c == 35) line.now }
{
    line.iter().any(|byte| *byte == b'#')
}

/// Returns whether exactly one byte is not a board character, or exactly the three bytes of a byte
/// order mark at the front are not.
fn has_one_odd(line: &[u8]) -> bool
    ensures { result ≡ has_one_odd line.now }
{
    let odd = odd_count(line);
    odd == 1 || (odd == 3 && line.starts_with(b"\xEF\xBB\xBF"))
}

fn odd_count(line: &[u8]) -> usize
    ensures { result ≡ count_by is_odd line.now }
{
    line.iter().filter(|byte| is_odd(**byte)).count()
}

fn odd_place(line: &[u8]) -> Option<usize>
    ensures { result ≡ position is_odd line.now }
{
    line.iter().position(|byte| is_odd(*byte))
}

/// Returns whether a byte is not a board character.
fn is_odd(byte: u8) -> bool
    ensures { result ≡ is_odd byte }
{
    cell_of(byte).is_none()
}
