//! XSB: the characters of a level's text (Sokoban Wiki, "Level format"), and which lines belong to
//! a board.

ghost use Rattle.std.specs.Prelude.{◌≡◌, ◌==◌, is_some};
ghost use Rattle.std.specs.List.{list_all, list_any};
ghost use Rattle.sok_text.specs.Xsb.{cell_of, is_board_line};

use sok_rules::cell::Cell;

/// Returns the cell that an XSB character stands for. Floor is a space, `-` or `_`.
pub fn cell_of(byte: u8) -> Option<Cell>
    ensures { result ≡ cell_of byte }
{
    match byte {
        b'#' => Some(Cell::Wall),
        b'@' => Some(Cell::ManOff),
        b'+' => Some(Cell::ManOn),
        b'$' => Some(Cell::BoxOff),
        b'*' => Some(Cell::BoxOn),
        b'.' => Some(Cell::Goal),
        b' ' | b'-' | b'_' => Some(Cell::Floor),
        _ => None,
    }
}

/// Returns whether a line, without its end, belongs to a board: it has only XSB characters, and a
/// wall among them.
pub fn is_board_line(line: &[u8]) -> bool
    ensures { result ≡ is_board_line line.now }
{
    has_only_xsb(line) && has_wall(line)
}

fn has_only_xsb(line: &[u8]) -> bool
    ensures { result ≡ list_all (λ c. is_some (cell_of c)) line.now }
{
    line.iter().all(|byte| is_xsb(*byte))
}

pub(crate) fn has_wall(line: &[u8]) -> bool
    ensures { result ≡ list_any (λ c. c == 35) line.now }
{
    line.iter().any(|byte| *byte == b'#')
}

fn is_xsb(byte: u8) -> bool
    ensures { result ≡ is_some (cell_of byte) }
{
    cell_of(byte).is_some()
}
