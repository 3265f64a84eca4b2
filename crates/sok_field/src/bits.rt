//! Bit rows, read and written: a square at a time, or all at once.

ghost use Rattle.std.specs.Prelude.{◌≡◌, ◌<◌, ◌↔◌, ◌≤◌, ◌⊎◌, IfSome, MatchOption, true, false, length};
ghost use Rattle.sok_rules.specs.declared.cell.Spot.{Spot};
ghost use Rattle.sok_field.specs.Fields.{has, IsFirstSquare};

use crate::field::ROWS;
use sok_rules::cell::Spot;

/// Returns whether a square is in a set. A square past the rows is in none.
pub(crate) fn has(rows: &[u64], spot: Spot) -> bool
    requires { spot.col < 64 }
    ensures { result ≡ has rows.now spot }
{
    match rows.get(spot.row as usize) {
        Some(row) => (*row >> spot.col) & 1 == 1,
        None => false,
    }
}

/// Puts a square into a set.
pub(crate) fn put(rows: &mut [u64], spot: Spot)
    requires row { spot.row < length rows.old }
    requires col { spot.col < 64 }
    ensures { (s : Spot) → (has rows.new s ≡ true) ↔ ((s ≡ spot) ⊎ (has rows.old s ≡ true)) }
{
    let row = spot.row as usize;
    let word = rows[row];
    rows[row] = word | (1 << spot.col);
}

/// Removes a square from a set.
pub(crate) fn take(rows: &mut [u64], spot: Spot)
    requires row { spot.row < length rows.old }
    requires col { spot.col < 64 }
    ensures { (s : Spot) → (has rows.new s ≡ true) ↔ ((s ≡ spot → ⊥) × (has rows.old s ≡ true)) }
{
    let row = spot.row as usize;
    let word = rows[row];
    rows[row] = word & !(1 << spot.col);
}

/// Adds the squares of another set.
pub(crate) fn join(rows: &mut [u64], other: &[u64])
    requires { length other.now ≤ length rows.old }
    ensures { (s : Spot)
        → (has rows.new s ≡ true) ↔ ((has rows.old s ≡ true) ⊎ (has other.now s ≡ true)) }
{
    for (r, word) in other.iter().enumerate() {
        let row = rows[r];
        rows[r] = row | *word;
    }
}

/// Returns the first square of a set, row by row and from left to right.
pub(crate) fn first(rows: &[u64]) -> Option<Spot>
    requires { length rows.now ≤ ROWS }
    ensures first { MatchOption result
        ((s : Spot) → has rows.now s ≡ false) (IsFirstSquare (has rows.now)) }
    ensures narrow { IfSome result (λ s. s.col < 64) }
{
    for (r, row) in rows.iter().enumerate() {
        if *row != 0 {
            return Some(Spot {
                row: r as u32,
                col: row.trailing_zeros(),
            });
        }
    }
    None
}

/// Removes all squares from a set.
pub(crate) fn clear(rows: &mut [u64])
    ensures { (s : Spot) → has rows.new s ≡ false }
{
    rows.fill(0);
}
