//! Sweeps, by which a flood proceeds along rows and from row to row.

ghost use Rattle.std.specs.Prelude.{◌≡◌, ◌+◌, ◌<◌, ◌⊎◌, Bool, true, false, length, slice_index, bit_and};
ghost use Rattle.sok_rules.specs.declared.cell.Spot.{Spot};
ghost use Rattle.sok_field.specs.Fields.{has};
ghost use Rattle.sok_field.specs.Floods.{IsSpreading};
ghost use Rattle.sok_field.specs.Rounds.{above};
ghost use Rattle.sok_field.specs.Sweeps.{IsStepped, GoesOn};

/// Returns the squares of a row that are joined to `seeds` within the row.
fn stepped(seeds: u64, free: u64) -> u64
    requires { bit_and seeds free ≡ seeds }
    ensures { IsStepped free seeds result }
{
    let mut row = seeds;
    loop {
        let wide = free & (row | row << 1 | row >> 1);
        if wide == row {
            return row;
        }
        row = wide;
    }
}

/// Adds to a row what is joined to its squares within the row.
pub(crate) fn step_row(free: &[u64], seen: &mut [u64], r: usize)
    requires row { r < length seen.old }
    requires whole { length free.now ≡ length seen.old }
    requires inside { bit_and (slice_index seen.old r) (slice_index free.now r)
        ≡ slice_index seen.old r }
    ensures { (start : Spot → Bool) → IsSpreading free.now start seen.old
        → GoesOn free.now start seen.old seen.new false }
{
    seen[r] = stepped(seen[r], free[r]);
}

/// Adds to a row the free squares beside those of a neighbouring row, and what is joined to them
/// within the row. Returns the row, and whether any were added.
fn meet_row(free: &[u64], seen: &mut [u64], r: usize, beside: u64) -> (u64, bool)
    requires row { r < length seen.old }
    requires whole { length free.now ≡ length seen.old }
    requires beside { (beside ≡ above seen.old r) ⊎ (beside ≡ slice_index seen.old (r + 1)) }
    ensures row { result.0 ≡ slice_index seen.new r }
    ensures goes_on { (start : Spot → Bool) → IsSpreading free.now start seen.old
        → GoesOn free.now start seen.old seen.new result.1 }
{
    let row = seen[r];
    let free_row = free[r];
    let seeds = free_row & (row | beside);
    if seeds == row {
        return (row, false);
    }
    let word = stepped(seeds, free_row);
    seen[r] = word;
    (word, true)
}

/// Adds to some rows, those that have a square in `columns`, what is joined to their squares within
/// each row.
pub(crate) fn step_rows(free: &[u64], seen: &mut [u64], first: usize, last: usize, columns: u64)
    requires last { last < length seen.old }
    requires whole { length free.now ≡ length seen.old }
    requires inside { (s : Spot) → has seen.old s ≡ true → has free.now s ≡ true }
    ensures { (start : Spot → Bool) → IsSpreading free.now start seen.old
        → GoesOn free.now start seen.old seen.new false }
{
    for r in first..last + 1 {
        if seen[r] & columns != 0 {
            step_row(free, seen, r);
        }
    }
}

/// Sweeps down from row `low` at least to row `high`, and on as long as rows grow. Returns the last
/// row.
pub(crate) fn sweep_down(free: &[u64], seen: &mut [u64], low: usize, high: usize) -> usize
    requires row { low < length seen.old }
    requires whole { length free.now ≡ length seen.old }
    ensures within { result < length seen.old }
    ensures goes_on { (start : Spot → Bool) → IsSpreading free.now start seen.old
        → GoesOn free.now start seen.old seen.new false }
{
    let mut r = low;
    let mut above = seen[low];
    while r + 1 < seen.len() {
        r += 1;
        let (row, met) = meet_row(free, seen, r, above);
        if !met && r > high {
            break;
        }
        above = row;
    }
    r
}

/// Sweeps up from row `high` at least to row `low`, and on as long as rows grow. Returns the last
/// row, and whether any row grew.
pub(crate) fn sweep_up(free: &[u64], seen: &mut [u64], high: usize, low: usize) -> (usize, bool)
    requires row { high < length seen.old }
    requires whole { length free.now ≡ length seen.old }
    ensures within { result.0 < length seen.old }
    ensures goes_on { (start : Spot → Bool) → IsSpreading free.now start seen.old
        → GoesOn free.now start seen.old seen.new result.1 }
{
    let mut r = high;
    let mut below = seen[high];
    let mut grown = false;
    while r > 0 {
        r -= 1;
        let (row, met) = meet_row(free, seen, r, below);
        if met {
            grown = true;
        } else if r < low {
            break;
        }
        below = row;
    }
    (r, grown)
}
