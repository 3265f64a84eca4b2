//! The flood over both halves of a set.

ghost use Rattle.std.specs.Prelude.{ℕ, ◌≡◌, ◌<◌, ◌≤◌, ◌+◌, ◌↔◌, IfNone, IfSome, IsTrue, bit_and, bit_or, false, length, slice_index};
ghost use Rattle.sok_rules.specs.declared.cell.Spot.{Spot};
ghost use Rattle.sok_field.specs.Crossings.{AreClosed, IsCrossed};
ghost use Rattle.sok_field.specs.Fields.{has};
ghost use Rattle.sok_field.specs.Halves.{halves};
ghost use Rattle.sok_field.specs.Rounds.{IsClosed, from_high, from_low};
ghost use Rattle.sok_field.specs.Ways.{Joined};

use crate::field::ROWS;
use crate::flood::flood_rows;
use crate::half::COLUMNS;
use crate::{bits, field};
use sok_rules::cell::Spot;

/// New squares in the two halves of a set.
#[derive(Clone, Copy)]
struct News {
    /// The first row with a new square, and the last.
    first: usize,
    last: usize,
    /// The columns of each half with a new square, as bits.
    low: u64,
    high: u64,
}

/// Fills two empty halves of a set with the squares that are joined to `from` over free squares,
/// itself among them. Each half is flooded by itself. Then a round over both crosses the seam
/// between them, and so on until a round adds no more.
pub(crate) fn flood_halves(
    free_low: &[u64],
    free_high: &[u64],
    low: &mut [u64],
    high: &mut [u64],
    from: Spot,
)
    requires free { length free_high.now ≡ length free_low.now }
    requires low { length low.old ≡ length free_low.now }
    requires high { length high.old ≡ length free_low.now }
    requires rows { length free_low.now ≤ ROWS }
    requires blank_low { (s : Spot) → has low.old s ≡ false }
    requires blank_high { (s : Spot) → has high.old s ≡ false }
    requires from { IsTrue (has (halves free_low.now free_high.now) from) }
    ensures { (s : Spot) → IsTrue (has (halves low.new high.new) s)
        ↔ Joined (has (halves free_low.now free_high.now)) from s }
{
    if from.col < COLUMNS {
        bits::put(low, from);
    } else {
        bits::put(high, field::within(from));
    }
    let row = from.row as usize;
    let mut news = News {
        first: row,
        last: row,
        low: u64::MAX,
        high: u64::MAX,
    };
    loop {
        flood_rows(free_low, low, news.first, news.last, news.low);
        flood_rows(free_high, high, news.first, news.last, news.high);
        let Some(more) = cross(free_low, free_high, low, high) else {
            return;
        };
        news = more;
    }
}

/// Makes a round over both halves in place. A round over each alone would change nothing, so this
/// adds only what crosses the seam. Returns where squares were added, or None if none were.
fn cross(free_low: &[u64], free_high: &[u64], low: &mut [u64], high: &mut [u64]) -> Option<News>
    requires free { length free_high.now ≡ length free_low.now }
    requires low { length low.old ≡ length free_low.now }
    requires high { length high.old ≡ length free_low.now }
    requires closed_low { IsClosed low.old free_low.now }
    requires closed_high { IsClosed high.old free_high.now }
    ensures crossed { IsCrossed free_low.now free_high.now low.old high.old low.new high.new }
    ensures more { IfSome result (λ _.
        AreClosed free_low.now free_high.now low.old high.old → ⊥) }
    ensures first { IfSome result (λ news. news.first < length low.old) }
    ensures last { IfSome result (λ news. news.last < length low.old) }
    ensures same_low { IfSome result (λ news. news.low ≡ 0 → low.new ≡ low.old) }
    ensures same_high { IfSome result (λ news. news.high ≡ 0 → high.new ≡ high.old) }
    ensures closed { IfNone result (AreClosed free_low.now free_high.now low.new high.new) }
{
    let mut news = News {
        first: low.len(),
        last: 0,
        low: 0,
        high: 0,
    };
    let mut changed = false;
    for r in 0..low.len() {
        let (left, right) = (low[r], high[r]);
        let more_left = left | (free_low[r] & right << 63);
        let more_right = right | (free_high[r] & left >> 63);
        if more_left != left || more_right != right {
            low[r] = more_left;
            high[r] = more_right;
            changed = true;
            news = News {
                first: news.first.min(r),
                last: r,
                low: news.low | (more_left ^ left),
                high: news.high | (more_right ^ right),
            };
        }
    }
    if changed { Some(news) } else { None }
}
