//! The kinds of lines in a collection.

ghost use Rattle.std.specs.Prelude.{◌≡◌};
ghost use Rattle.sok_text.specs.Kinds.{kind_of};

use crate::packed::is_packed_line;
use crate::xsb::is_board_line;

/// The kind of a line.
#[derive(Clone, Copy, PartialEq, Eq)]
pub enum Kind {
    /// A line of a board.
    Row,
    /// A packed line, which is a level by itself.
    Packed,
    /// Any other line.
    Note,
}

/// Returns the kind of a line, which is given without its end.
pub fn kind_of(line: &[u8]) -> Kind
    ensures { result ≡ kind_of line.now }
{
    if is_board_line(line) {
        Kind::Row
    } else if is_packed_line(line) {
        Kind::Packed
    } else {
        Kind::Note
    }
}
