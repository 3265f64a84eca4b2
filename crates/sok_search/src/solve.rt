//! The solver.

ghost use Rattle.std.specs.Prelude.{ℕ, ◌≡◌, ◌<◌, ◌≤◌, ◌↔◌, [], Bool, IfOk, IfSome, IsTrue, OnOk, Some, length, true};
ghost use Rattle.sok_rules.specs.Squares.{Rows};
ghost use Rattle.sok_board.specs.Area.{BoardView, IsAccepted};
ghost use Rattle.sok_cert.specs.Text.{number_limit};
ghost use Rattle.sok_search.specs.Faults.{IsAcceptedWithin, IsBadLimit, TellsFault};
ghost use Rattle.sok_search.specs.Findings.{IsFinding, IsFindingWithProof, claim_of};
ghost use Rattle.sok_search.specs.Finished.{IsOfBest};
ghost use Rattle.sok_search.specs.Limits.{state_limit};
ghost use Rattle.sok_search.specs.Outcomes.{IsAnswer, IsBounded, IsFoundWithProof, IsFoundWithin, IsImproved, IsImprovedWithProof, IsOutcome};
ghost use Rattle.sok_search.specs.Searches.{IsSearch, IsSearching, IsSmallSearch};
ghost use Rattle.sok_search.specs.Walkthroughs.{IsSolvedWithin};
ghost use Rattle.sok_search.specs.Views.{progress_of, CutsOff, IsCutOff, IsEmpty, IsSearched};

use crate::aim::Aim;
use crate::beginning::{empty, enter_start};
use crate::certifying::certify;
use crate::collecting::Entries;
use crate::expanding::Scratch;
use crate::fault::SolveFault;
use crate::finding::Finding;
use crate::found::Found;
use crate::halted::least_open;
use crate::improved::Improved;
use crate::outcome::Outcome;
use crate::running::search_on;
use crate::search::{Search, is_beaten, let_go};
use crate::stop::Stop;
use crate::tracing::{find_solved, trace};
use crate::walkthrough::letters;
use sok_board::board::Board;
use sok_cert::claim::Claim;
use sok_cert::entry::{Certificate, Entry};
use sok_distance::distances::Distances;
use sok_distance::setting::Setting;
use sok_rules::cell::Dir;
use sok_rules::fault::Memory;
use sok_rules::level::Level;
use std::alloc::Global;

/// The greatest limit on the number of states.
pub const LIMIT: u32 = 1_000_000;

/// Finds a solution with the fewest pushes, or proves that there is none, and returns a certificate for
/// the answer.
///
/// It is an A* search over states, which keeps at most `limit` of them; the lower bound of a state is
/// the cost of a minimum assignment of its boxes to goals. If `limit` states do not suffice, it returns
/// `Outcome::Limit` with a lower bound.
///
/// Errors, in this order: `BadLimit` if `limit` is 0 or above `LIMIT`; the faults of `Board::new`;
/// `Memory`.
pub fn solve(alloc: Global, level: &Level, limit: u32) -> Result<Outcome, SolveFault>
    ensures answer { IfOk result (IsAnswer level.now limit) }
    ensures tells { TellsFault level.now limit result }
{
    outcome(alloc, level, limit, false)
}

/// Like `solve`, but `Outcome::Limit` comes with a certificate, too: no solution has fewer pushes than
/// `at_least`. The states that were still in the open list are barred in it by their dual prices.
pub fn bound(alloc: Global, level: &Level, limit: u32) -> Result<Outcome, SolveFault>
    ensures bounded { IfOk result (IsBounded level.now limit) }
    ensures tells { TellsFault level.now limit result }
{
    outcome(alloc, level, limit, true)
}

/// Like `solve`, or `bound` if `bound` is set, but hands the certificate to `entries` one entry at a
/// time, so that it is never whole in memory. No entry is handed over for `Found::Limit` unless `bound`
/// is set. On an error, `entries` may hold some of them.
pub fn solve_into<C: Entries>(
    alloc: Global,
    level: &Level,
    limit: u32,
    bound: bool,
    entries: &mut C,
) -> Result<Found, SolveFault>
    requires { C.took [] entries.old }
    ensures shown { IfOk result
        (IsFoundWithProof (λ taken. C.took taken entries.new) level.now limit bound) }
    ensures tells { TellsFault level.now limit result }
{
    match search_into(alloc, level, limit, None, bound, entries) {
        Ok(finding) => Ok(finding.found()),
        Err(fault) => Err(fault),
    }
}

/// Like `solve`, without a certificate: faster, and with a fraction of the memory. Deadlocked states are
/// not kept, so `find` may answer within a limit that `solve` exceeds.
pub fn find(alloc: Global, level: &Level, limit: u32) -> Result<Found, SolveFault>
    ensures found { IfOk result (IsFoundWithin level.now limit) }
    ensures tells { TellsFault level.now limit result }
{
    match search(alloc, level, limit, None) {
        Ok(finding) => Ok(finding.found()),
        Err(fault) => Err(fault),
    }
}

/// Tells whether a solution with `best` pushes can be improved: finds one with the fewest pushes if these
/// are fewer than `best`, or proves that no solution has fewer than `best`. That is true of a level
/// without a solution, too.
///
/// It is the search of `find`, which knows that only fewer than `best` pushes count, so it keeps fewer
/// states. It also answers `Optimal` if the limit is exceeded, but each open state needs at least `best`
/// pushes.
pub fn improve(alloc: Global, level: &Level, limit: u32, best: u32) -> Result<Improved, SolveFault>
    ensures improved { IfOk result (IsImproved level.now limit best) }
    ensures tells { TellsFault level.now limit result }
{
    match search(alloc, level, limit, Some(best)) {
        Ok(finding) => Ok(finding.improved()),
        Err(fault) => Err(fault),
    }
}

/// Like `improve`, but hands a certificate to `entries`, as `solve_into` does: of the fewest pushes, or of
/// `best`, or of `at_least` if `bound` is set. A certificate needs every state that was reached, so
/// `improve_into` may exceed a limit within which `improve` answers.
pub fn improve_into<C: Entries>(
    alloc: Global,
    level: &Level,
    limit: u32,
    best: u32,
    bound: bool,
    entries: &mut C,
) -> Result<Improved, SolveFault>
    requires fits { best ≤ number_limit }
    requires none { C.took [] entries.old }
    ensures improved { IfOk result
        (IsImprovedWithProof (λ taken. C.took taken entries.new) level.now limit bound best) }
    ensures tells { TellsFault level.now limit result }
{
    match search_into(alloc, level, limit, Some(best), bound, entries) {
        Ok(finding) => Ok(finding.improved()),
        Err(fault) => Err(fault),
    }
}

/// Answers as `improve` does if a solution with `upper` pushes is known, and as `find` if none is.
pub fn search(
    alloc: Global,
    level: &Level,
    limit: u32,
    upper: Option<u32>,
) -> Result<Finding, SolveFault>
    ensures finding { IfOk result (IsFinding level.now limit upper) }
    ensures tells { TellsFault level.now limit result }
{
    let board = accept(alloc, level, limit)?;
    let finding = find_on(alloc, &board, limit, upper)?;
    Ok(finding)
}

/// Answers as `improve_into` does if a solution with `upper` pushes is known, and as `solve_into` if none
/// is.
pub fn search_into<C: Entries>(
    alloc: Global,
    level: &Level,
    limit: u32,
    upper: Option<u32>,
    bound: bool,
    entries: &mut C,
) -> Result<Finding, SolveFault>
    requires fits { IfSome upper (λ k. k ≤ number_limit) }
    requires none { C.took [] entries.old }
    ensures finding { IfOk result
        (IsFindingWithProof (λ taken. C.took taken entries.new) level.now limit bound upper) }
    ensures tells { TellsFault level.now limit result }
{
    let board = accept(alloc, level, limit)?;
    let finding = answer(alloc, &board, limit, upper, bound, entries)?;
    Ok(finding)
}

/// Runs `solve_into` and collects the certificate.
fn outcome(alloc: Global, level: &Level, limit: u32, wanted: bool) -> Result<Outcome, SolveFault>
    ensures answer { IfOk result (IsOutcome level.now limit wanted) }
    ensures tells { TellsFault level.now limit result }
{
    let mut entries = Vec::new(alloc);
    match solve_into(alloc, level, limit, wanted, &mut entries) {
        Ok(found) => Ok(certified(found, wanted, entries)),
        Err(fault) => Err(fault),
    }
}

/// Adds the certificate with these entries to what was found.
fn certified(found: Found, wanted: bool, entries: Vec<Entry>) -> Outcome
    ensures { (rows : Rows) (limit : ℕ)
        → IsFoundWithProof (λ taken. entries.items ≡ taken) rows limit wanted found
        → IsOutcome rows limit wanted result }
{
    match found {
        Found::Solved { dirs, pushes } => {
            let claim = Claim::Pushes(pushes);
            Outcome::Solved {
                dirs,
                pushes,
                certificate: Certificate { claim, entries },
            }
        }
        Found::Unsolvable => {
            let claim = Claim::Unsolvable;
            Outcome::Unsolvable {
                certificate: Certificate { claim, entries },
            }
        }
        Found::Limit { states, at_least } => {
            if wanted {
                let claim = Claim::Pushes(at_least);
                return Outcome::Limit {
                    states,
                    at_least,
                    certificate: Some(Certificate { claim, entries }),
                };
            }
            Outcome::Limit {
                states,
                at_least,
                certificate: None,
            }
        }
    }
}

/// Returns whether a limit is refused.
fn is_bad(limit: u32) -> bool
    ensures { IsTrue result ↔ IsBadLimit limit }
{
    limit == 0 || limit > LIMIT
}

/// Checks the limit and makes the board of a level.
fn accept(alloc: Global, level: &Level, limit: u32) -> Result<Board, SolveFault>
    ensures board { IfOk result (IsAcceptedWithin level.now limit) }
    ensures tells { TellsFault level.now limit result }
{
    if is_bad(limit) {
        return Err(SolveFault::BadLimit);
    }
    let board = Board::new(alloc, level)?;
    Ok(board)
}

/// Searches an accepted board, beside a solution with `upper` pushes or beside none, with a certificate.
/// If the search exceeds the limit, it has one only if that is `wanted`.
fn answer<C: Entries>(
    alloc: Global,
    board: &Board,
    limit: u32,
    upper: Option<u32>,
    wanted: bool,
    entries: &mut C,
) -> Result<Finding, Memory>
    requires positive { 0 < limit }
    requires small { limit ≤ state_limit }
    requires fits { IfSome upper (λ k. k ≤ number_limit) }
    requires none { C.took [] entries.old }
    ensures { IfOk result
        (IsFindingWithProof (λ taken. C.took taken entries.new) board.now.rows limit wanted upper) }
{
    // Only for its contract, which says that the level is accepted.
    let _level = board.level();
    let aim = Aim { whole: true, upper };
    let mut search = empty(alloc, board, aim)?;
    let finding = answer_by(alloc, board, limit, wanted, &mut search, entries);
    let_go(search);
    finding
}

/// Does so with the empty `search`, which the caller frees afterwards, also on an error.
fn answer_by<C: Entries>(
    alloc: Global,
    board: &Board,
    limit: u32,
    wanted: bool,
    search: &mut Search,
    entries: &mut C,
) -> Result<Finding, Memory>
    requires accepted { IsAccepted board.now }
    requires positive { 0 < limit }
    requires small { limit ≤ state_limit }
    requires empty { IsEmpty board.now search.old }
    requires whole { search.old.aim.whole ≡ true }
    requires fits { IfSome search.old.aim.upper (λ k. k ≤ number_limit) }
    requires none { C.took [] entries.old }
    ensures { IfOk result
        (IsFindingWithProof (λ taken. C.took taken entries.new) board.now.rows limit wanted search.old.aim.upper) }
{
    let distances = Distances::new(alloc, board)?;
    let setting = Setting {
        board,
        distances: &distances,
    };
    match search_all(alloc, &setting, limit, search) {
        Ok(()) => conclude(alloc, &setting, search, entries),
        Err(Stop::Cut) => halt(alloc, &setting, limit, wanted, search, entries),
        Err(Stop::Memory) => Err(Memory),
    }
}

/// Searches an accepted board as `answer` does, without a certificate.
fn find_on(alloc: Global, board: &Board, limit: u32, upper: Option<u32>) -> Result<Finding, Memory>
    requires { 0 < limit }
    ensures { IfOk result (IsFinding board.now.rows limit upper) }
{
    // Only for its contract, which says that the level is accepted.
    let _level = board.level();
    let aim = Aim {
        whole: false,
        upper,
    };
    let mut search = empty(alloc, board, aim)?;
    let finding = find_by(alloc, board, limit, &mut search);
    let_go(search);
    finding
}

/// Does so with the empty `search`, which the caller frees afterwards, also on an error.
fn find_by(alloc: Global, board: &Board, limit: u32, search: &mut Search) -> Result<Finding, Memory>
    requires accepted { IsAccepted board.now }
    requires positive { 0 < limit }
    requires empty { IsEmpty board.now search.old }
    ensures { IfOk result (IsFinding board.now.rows limit search.old.aim.upper) }
{
    let distances = Distances::new(alloc, board)?;
    let setting = Setting {
        board,
        distances: &distances,
    };
    match search_all(alloc, &setting, limit, search) {
        Ok(()) => find_in(alloc, board, search),
        Err(Stop::Cut) => Ok(halted(limit, search)),
        Err(Stop::Memory) => Err(Memory),
    }
}

/// Returns what a search found that ran into the limit.
fn halted(limit: u32, search: &Search) -> Finding
    requires { (b : BoardView) × IsAccepted b × IsCutOff b limit search.now.aim (progress_of search.now) }
    ensures { (b : BoardView) → IsAccepted b
        → IsCutOff b limit search.now.aim (progress_of search.now)
        → IsFinding b.rows limit search.now.aim.upper result }
{
    let least = least_open(search);
    if is_beaten(search.aim.upper, least, 0) {
        return Finding::NoBetter;
    }
    Finding::Limit {
        states: limit,
        at_least: least,
    }
}

/// Like `halted`, but hands over a certificate if the search has an answer all the same, or if one is
/// wanted of the limit.
fn halt<C: Entries>(
    alloc: Global,
    setting: &Setting<'_>,
    limit: u32,
    wanted: bool,
    search: &Search,
    entries: &mut C,
) -> Result<Finding, Memory>
    requires accepted { IsAccepted setting.now.board.now }
    requires small { limit ≤ state_limit }
    requires whole { search.now.aim.whole ≡ true }
    requires fits { IfSome search.now.aim.upper (λ k. k ≤ number_limit) }
    requires cut { IsCutOff setting.now.board.now limit search.now.aim (progress_of search.now) }
    requires none { C.took [] entries.old }
    ensures { IfOk result (IsFindingWithProof (λ taken. C.took taken entries.new)
        setting.now.board.now.rows limit wanted search.now.aim.upper) }
{
    let at_least = least_open(search);
    if is_beaten(search.aim.upper, at_least, 0) {
        let claim = claim_of(search.aim.upper);
        certify(alloc, setting, claim, search, entries)?;
        return Ok(Finding::NoBetter);
    }
    if wanted {
        let claim = Claim::Pushes(at_least);
        certify(alloc, setting, claim, search, entries)?;
    }
    Ok(Finding::Limit {
        states: limit,
        at_least,
    })
}

/// Searches from the start until the open list is empty. Returns `Stop::Cut` if the table is full before.
fn search_all(
    alloc: Global,
    setting: &Setting<'_>,
    limit: u32,
    search: &mut Search,
) -> Result<(), Stop>
    requires accepted { IsAccepted setting.now.board.now }
    requires positive { 0 < limit }
    requires empty { IsEmpty setting.now.board.now search.old }
    ensures searched { OnOk result
        (IsSearched setting.now.board.now limit search.old.aim (progress_of search.new)) }
    ensures cut { CutsOff setting.now.board.now limit search.old (progress_of search.new) result }
{
    enter_start(alloc, setting, search)?;
    let mut scratch = Scratch::new(alloc, setting, search.aim.whole)?;
    let ended = search_on(alloc, setting, limit, search, &mut scratch);
    // As one value: field by field takes five times as long to prove.
    drop(scratch);
    ended
}

/// Returns what a search found whose open list is empty.
fn find_in(alloc: Global, board: &Board, search: &Search) -> Result<Finding, Memory>
    requires accepted { IsAccepted board.now }
    requires search { IsSearching board.now (progress_of search.now) }
    requires finished { search.now.queue ≡ [] }
    ensures finding { (limit : ℕ) → IsSearch board.now limit (progress_of search.now)
        → IfOk result (IsFinding board.now.rows limit search.now.aim.upper) }
    ensures best { IfOk result (IsOfBest (progress_of search.now)) }
{
    let Some(pushes) = search.best else {
        return Ok(Finding::NoBetter);
    };
    if is_beaten(search.aim.upper, pushes, 0) {
        return Ok(Finding::NoBetter);
    }
    let dirs = solution(alloc, board, search, pushes)?;
    Ok(Finding::Solved { dirs, pushes })
}

/// Returns the claim about a level whose best has so many pushes, or that has no solution.
pub fn claim_of(best: Option<u32>) -> Claim
    ensures { result ≡ claim_of best }
{
    match best {
        Some(pushes) => Claim::Pushes(pushes),
        None => Claim::Unsolvable,
    }
}

/// Like `find_in`, but hands over a certificate.
fn conclude<C: Entries>(
    alloc: Global,
    setting: &Setting<'_>,
    search: &Search,
    entries: &mut C,
) -> Result<Finding, Memory>
    requires accepted { IsAccepted setting.now.board.now }
    requires search { IsSmallSearch setting.now.board.now (progress_of search.now) }
    requires whole { search.now.aim.whole ≡ true }
    requires fits { IfSome search.now.aim.upper (λ k. k ≤ number_limit) }
    requires finished { search.now.queue ≡ [] }
    requires none { C.took [] entries.old }
    ensures { (limit : ℕ) (wanted : Bool) → IsSearch setting.now.board.now limit
        (progress_of search.now)
        → IfOk result (IsFindingWithProof (λ taken. C.took taken entries.new)
        setting.now.board.now.rows limit wanted search.now.aim.upper) }
{
    let claim = claim_of(search.best);
    certify(alloc, setting, claim, search, entries)?;
    find_in(alloc, setting.board, search)
}

/// Returns letters that solve the level with no more than `pushes` pushes.
fn solution(alloc: Global, board: &Board, search: &Search, pushes: u32) -> Result<Vec<Dir>, Memory>
    requires accepted { IsAccepted board.now }
    requires search { IsSearching board.now (progress_of search.now) }
    requires best { search.now.best ≡ Some pushes }
    requires own { search.now.aim.upper ≡ Some pushes → ⊥ }
    ensures { IfOk result (λ dirs.
        IsSolvedWithin board.now (length search.now.table.entries) pushes dirs.items) }
{
    let index = find_solved(alloc, board, search, pushes)?;
    let trace = trace(alloc, search, index)?;
    letters(alloc, board, trace)
}
