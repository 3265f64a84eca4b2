//! The canonical text of a level.

ghost use Rattle.std.specs.Prelude.{◌≡◌, ◌∷◌, ◌++◌, [], IfOk};
ghost use Rattle.sok_text.specs.Canonical.{character, row_text, level_text, TextsAreOneLevel};

use sok_rules::cell::Cell;
use sok_rules::fault::Memory;
use sok_rules::level::Level;
use std::alloc::Global;

/// Returns the canonical text of a level: the XSB character of each cell, with a space for floor,
/// and LF at the end of each row.
pub fn print_level(alloc: Global, level: &Level) -> Result<Vec<u8>, Memory>
    ensures { IfOk result (λ text. text.items ≡ level_text level.now) }
{
    let mut text = Vec::new(alloc);
    for row in level.rows() {
        print_row(&mut text, row)?;
        text.push(b'\n')?;
    }
    Ok(text)
}

fn print_row(text: &mut Vec<u8>, row: &[Cell]) -> Result<(), Memory>
    ensures { IfOk result (λ _. text.new.items ≡ text.old.items ++ row_text row.now) }
{
    for cell in row {
        text.push(character(*cell))?;
    }
    Ok(())
}

/// Returns the XSB character of a cell.
fn character(cell: Cell) -> u8
    ensures { result ∷ [] ≡ character cell }
{
    match cell {
        Cell::Wall => b'#',
        Cell::Floor => b' ',
        Cell::Goal => b'.',
        Cell::BoxOff => b'$',
        Cell::BoxOn => b'*',
        Cell::ManOff => b'@',
        Cell::ManOn => b'+',
    }
}

/// By the definition of collections, the canonical text of a level is that level alone, without a
/// title.
pub fn level_texts_are_one_level()
    ensures { TextsAreOneLevel }
{}
