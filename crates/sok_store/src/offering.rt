//! Offering a solution.

ghost use Rattle.std.specs.Prelude.{◌≡◌, ◌<◌, IfErr, MatchOption, true};
ghost use Rattle.sqlite.specs.Held.{state};
ghost use Rattle.sok_book.specs.Commands.{best_pushes, is_better};
ghost use Rattle.sok_store.specs.Calls.{ShowsOn, id_number};
ghost use Rattle.sok_store.specs.Running.{RunsTelling};
ghost use Rattle.sok_store.specs.Standing.{StaysBest};

use crate::columns::best_columns;
use crate::reading::{place_of, read_record};
use crate::standing::Standing;
use crate::writing::store_best;
use sok_book::fault::BookFault;
use sok_book::offering::is_better;
use sok_book::record::{Offer, Record};
use sok_rules::cell::Dir;
use sqlite::{Alter, Connection};
use std::alloc::Global;

/// Offers letters as a solution of the level with this id, and returns the best solution's numbers.
pub(crate) fn offer_to<S: Alter>(
    conn: &mut Connection<S>,
    alloc: Global,
    id: i64,
    letters: &[Dir],
) -> Result<Standing, BookFault>
    ensures runs { RunsTelling (state S.Store conn.old) (state S.Store conn.new)
        (id_number id) letters.now result }
    ensures shows { IfErr result (ShowsOn (state S.Store conn.old) (state S.Store conn.new)) }
{
    match place_of(id) {
        Some(place) => offer_at(conn, alloc, place, letters),
        None => Err(BookFault::NoLevel),
    }
}

/// Does so with an id that may be one of a level.
fn offer_at<S: Alter>(
    conn: &mut Connection<S>,
    alloc: Global,
    id: u32,
    letters: &[Dir],
) -> Result<Standing, BookFault>
    requires { 0 < id }
    ensures runs { RunsTelling (state S.Store conn.old) (state S.Store conn.new)
        id letters.now result }
    ensures shows { IfErr result (ShowsOn (state S.Store conn.old) (state S.Store conn.new)) }
{
    let kept = match read_record(conn, alloc, id) {
        Ok(kept) => kept,
        Err(fault) => return Err(fault),
    };
    let best = match best_columns(alloc, &kept.level, letters) {
        Ok(best) => best,
        Err(fault) => return Err(fault),
    };
    match kept_best(&kept, best.pushes) {
        Some(told) => Ok(told),
        None => match store_best(conn, id, &best) {
            Ok(()) => Ok(Standing {
                offer: Offer::Stored,
                pushes: best.pushes,
                moves: best.moves,
            }),
            Err(fault) => Err(fault),
        },
    }
}

/// Returns the answer for a level whose best solution stays, since the offer has no fewer pushes.
fn kept_best(kept: &Record, pushes: u32) -> Option<Standing>
    ensures { MatchOption result
        (is_better pushes (best_pushes kept.now.page) ≡ true)
        (StaysBest kept.now.page pushes) }
{
    match &kept.best {
        Some(there) => {
            if is_better(u64::from(pushes), Some(u64::from(there.pushes))) {
                None
            } else {
                Some(Standing {
                    offer: Offer::Kept,
                    pushes: there.pushes,
                    moves: there.moves,
                })
            }
        }
        None => None,
    }
}
