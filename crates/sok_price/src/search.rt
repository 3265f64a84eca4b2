//! The search for a goal for one more box, by a shortest augmenting path.

ghost use Rattle.std.specs.Prelude.{
  vec_capacity,
  vec_len,
  ℕ,
  ◌≡◌,
  ◌≢◌,
  ◌<◌,
  ◌≤◌,
  ◌+◌,
  ◌++◌,
  ◌∷◌,
  ◌^◌,
  [],
  All,
  IfOk,
  length,
  replicate,
  sum,
};
ghost use Rattle.sok_price.specs.Costs.{cost_of, AreCosts};
ghost use Rattle.sok_price.specs.Exchanges.{Tells};
ghost use Rattle.sok_price.specs.Kept.{IsShaped};
ghost use Rattle.sok_price.specs.Limits.{rise_limit, search_price_limit};
ghost use Rattle.sok_price.specs.Matched.{HasWorth};
ghost use Rattle.sok_price.specs.Matchings.{TellTakers};
ghost use Rattle.sok_price.specs.Searches.{
  growth_of,
  joined,
  HasRoom,
  KeepsRoom,
  Rematches,
  IsAhead,
  IsBegun,
  IsNext,
  IsRaised,
  IsSeen,
  TellsEnd,
  TellsNext,
  IsReady,
};
ghost use Rattle.sok_price.specs.Trees.{branch_at, AreRaised, IsTree};

use crate::costs::Costs;
use crate::slacks::{Near, Slack, UNREACHED, look};
use sok_rules::fault::Memory;
use std::alloc::Global;

/// A box of a tree, its goal, the branch from which that goal was reached, and how far the root's
/// price rises until then. The root has no goal, and is its own parent.
#[derive(Clone, Copy, Drop)]
pub(crate) struct Branch {
    pub(crate) member: usize,
    pub(crate) goal: usize,
    pub(crate) parent: usize,
    pub(crate) rise: u32,
}

/// The slack of a goal before any box of the tree has been scanned.
const UNSEEN: Slack = Slack {
    rise: UNREACHED,
    from: 0,
};

/// A search for a goal for the next box. It has the prices of boxes (`u`) and goals (`v`), the
/// goals of the first boxes, a tree of boxes, which goals these have (`taken`), the slacks of the
/// other goals, and the box that has each goal (`takers`). A goal without a box has a price of at
/// most `floor`.
#[derive(Drop)]
pub(crate) struct PathSearch {
    pub(crate) u: Vec<u32>,
    pub(crate) v: Vec<u32>,
    pub(crate) goal_of: Vec<usize>,
    pub(crate) branches: Vec<Branch>,
    pub(crate) taken: Vec<bool>,
    pub(crate) slacks: Vec<Slack>,
    pub(crate) takers: Vec<Option<usize>>,
    pub(crate) floor: u32,
}

impl PathSearch {
    /// Returns room for a search over so many boxes and goals.
    pub(crate) fn new(alloc: Global, members: usize, goals: usize) -> Result<PathSearch, Memory>
        ensures { IfOk result (IsShaped members goals) }
    {
        Ok(PathSearch {
            u: vec![in alloc; 0; members]?,
            v: vec![in alloc; 0; goals]?,
            goal_of: Vec::with_capacity(alloc, members)?,
            branches: Vec::with_capacity(alloc, members)?,
            taken: vec![in alloc; false; goals]?,
            slacks: vec![in alloc; UNSEEN; goals]?,
            takers: vec![in alloc; None; goals]?,
            floor: 0,
        })
    }
}

/// Raises the price of each branch's box by `total` less the rise of the branch.
fn raise_boxes(total: u32, branches: &[Branch], prices: &mut [u32])
    requires small { total ≤ rise_limit }
    requires low { All (λ price. price ≤ search_price_limit) prices.old }
    requires exist { (at : ℕ) → at < length branches.now
        → (branch_at branches.now at).member < length prices.old }
    requires apart { (at to : ℕ) → at < to → to < length branches.now
        → (branch_at branches.now at).member ≢ (branch_at branches.now to).member }
    requires earlier { (at : ℕ) → at < length branches.now
        → (branch_at branches.now at).rise ≤ total }
    ensures { AreRaised (λ branch. branch.member) total branches.now 0 (length branches.now)
        prices.old prices.new }
{
    for at in 0..branches.len() {
        prices[branches[at].member] += total - branches[at].rise;
    }
}

/// Raises the price of each branch's goal by `total` less the rise of the branch.
fn raise_goals(total: u32, branches: &[Branch], prices: &mut [u32])
    requires small { total ≤ rise_limit }
    requires low { All (λ price. price ≤ search_price_limit) prices.old }
    requires exist { (at : ℕ) → 0 < at → at < length branches.now
        → (branch_at branches.now at).goal < length prices.old }
    requires apart { (at to : ℕ) → 0 < at → at < to → to < length branches.now
        → (branch_at branches.now at).goal ≢ (branch_at branches.now to).goal }
    requires earlier { (at : ℕ) → at < length branches.now
        → (branch_at branches.now at).rise ≤ total }
    requires some { 0 < length branches.now }
    ensures { AreRaised (λ branch. branch.goal) total branches.now 1 (length branches.now)
        prices.old prices.new }
{
    for at in 1..branches.len() {
        prices[branches[at].goal] += total - branches[at].rise;
    }
}

/// Records which box has each goal.
fn find_takers(goal_of: &[usize], takers: &mut Vec<Option<usize>>)
    requires { All (λ goal. goal < length takers.old.items) goal_of.now }
    ensures whole { length takers.new.items ≡ length takers.old.items }
    ensures tells { TellTakers goal_of.now takers.new.items }
{
    takers.fill(None);
    for (member, goal) in goal_of.iter().enumerate() {
        takers[*goal] = Some(member);
    }
}

/// Appends to a list that has room for one more item, so it allocates nothing.
fn append<T: Drop>(list: &mut Vec<T>, item: T)
    requires { vec_len list.old < vec_capacity list.old }
    ensures items { list.new.items ≡ list.old.items ++ item ∷ [] }
    ensures room { vec_capacity list.old ≤ vec_capacity list.new }
{
    match list.push(item) {
        Ok(()) => {}
        Err(_) => unreachable!(),
    }
}

/// Begins a search for a goal for the next box, which is the root of its tree.
pub(crate) fn begin(search: &mut PathSearch)
    requires exist { All (λ goal. goal < length search.old.takers.items) search.old.goal_of.items }
    requires room { 0 < vec_capacity search.old.branches }
    ensures begun { IsBegun (growth_of search.old) (growth_of search.new) }
    ensures room { KeepsRoom search.old search.new }
{
    let root = search.goal_of.len();
    search.branches.clear();
    append(
        &mut search.branches,
        Branch {
            member: root,
            goal: 0,
            parent: 0,
            rise: 0,
        },
    );
    search.taken.fill(false);
    search.slacks.fill(UNSEEN);
    find_takers(&search.goal_of, &mut search.takers);
}

/// Scans the goals from the box that joined the tree last, and returns the goal outside the tree
/// that the tree reaches next. None if it reaches none.
fn look_on(costs: &Costs, rows: &[usize], search: &mut PathSearch) -> Option<Near>
    requires costs { AreCosts costs.now rows.now }
    requires growing { IsAhead (cost_of costs.now rows.now) (length rows.now) costs.now.goals
        (growth_of search.old) }
    ensures growing { IsSeen (cost_of costs.now rows.now) (length rows.now) costs.now.goals
        (growth_of search.new) }
    ensures next { TellsNext (cost_of costs.now rows.now) (growth_of search.new) result }
    ensures same { search.new ≡ record search.old { slacks = search.new.slacks } }
{
    let from = search.branches.len() - 1;
    let branch = search.branches[from];
    look(
        costs.row(rows, branch.member),
        search.u[branch.member],
        branch.rise,
        from,
        &search.v,
        &search.taken,
        &search.takers,
        &mut search.slacks,
    )
}

/// Adds a goal that was reached, and the box that has it, to the tree.
#[tactic(auto, unfolding(crate::specs::Searches::joined))]
fn join(near: Near, member: usize, search: &mut PathSearch)
    requires goal { near.goal < length search.old.taken.items }
    requires room { length search.old.branches.items < vec_capacity search.old.branches }
    ensures joined { growth_of search.new ≡ joined near member (growth_of search.old) }
    ensures room { KeepsRoom search.old search.new }
{
    append(
        &mut search.branches,
        Branch {
            member,
            goal: near.goal,
            parent: near.slack.from,
            rise: near.slack.rise,
        },
    );
    search.taken[near.goal] = true;
}

/// Grows the tree goal by goal until it reaches a goal that no box has, and returns that one. None
/// if its boxes reach only goals that its other boxes have. Prices stay.
pub(crate) fn grow(costs: &Costs, rows: &[usize], search: &mut PathSearch) -> Option<Near>
    requires costs { AreCosts costs.now rows.now }
    requires growing { IsAhead (cost_of costs.now rows.now) (length rows.now) costs.now.goals
        (growth_of search.old) }
    requires room { HasRoom (length rows.now) search.old }
    ensures growing { IsSeen (cost_of costs.now rows.now) (length rows.now) costs.now.goals
        (growth_of search.new) }
    ensures end { TellsEnd (cost_of costs.now rows.now) (growth_of search.new) result }
    ensures same { search.new.goal_of.items ≡ search.old.goal_of.items }
    ensures floor { search.new.floor ≡ search.old.floor }
    ensures room { HasRoom (length rows.now) search.new }
{
    'growing: loop {
        match look_on(costs, rows, search) {
            None => return None,
            Some(near) => match search.takers[near.goal] {
                None => return Some(near),
                Some(member) => join(near, member, search),
            },
        }
    }
}

/// Raises the prices of the tree until the goal `near` is tight with the box from which it was
/// reached.
pub(crate) fn raise(near: Near, costs: &Costs, rows: &[usize], search: &mut PathSearch)
    requires costs { AreCosts costs.now rows.now }
    requires growing { IsSeen (cost_of costs.now rows.now) (length rows.now) costs.now.goals
        (growth_of search.old) }
    requires next { IsNext (cost_of costs.now rows.now) (growth_of search.old) near }
    ensures same { growth_of search.new ≡ record (growth_of search.old)
        { u = search.new.u.items; v = search.new.v.items } }
    ensures raised { IsRaised near.slack.rise (growth_of search.old) search.new.u.items
        search.new.v.items }
    ensures room { KeepsRoom search.old search.new }
{
    raise_boxes(near.slack.rise, &search.branches, &mut search.u);
    raise_goals(near.slack.rise, &search.branches, &mut search.v);
}

/// Augments along the path to the goal `near`: the box from which it was reached gets it, the box
/// before gets that box's goal, and so on back to the root.
pub(crate) fn rematch(near: Near, search: &mut PathSearch)
    requires tree { IsTree search.old.goal_of.items search.old.branches.items }
    requires from { near.slack.from < length search.old.branches.items }
    requires room { length search.old.goal_of.items < vec_capacity search.old.goal_of }
    ensures same { growth_of search.new ≡ record (growth_of search.old)
        { goal_of = search.new.goal_of.items } }
    ensures rematched { Rematches (growth_of search.old) near search.new.goal_of.items }
    ensures room { KeepsRoom search.old search.new }
{
    let root = search.goal_of.len();
    append(&mut search.goal_of, near.goal);
    let mut at = near.slack.from;
    while at != 0 {
        let branch = search.branches[at];
        search.goal_of.swap(branch.member, root);
        at = branch.parent;
    }
}

/// Finds a goal of its own for each box that has none yet, box by box, by shortest augmenting
/// paths. Returns false if there is none for a box: then the boxes of the tree reach only goals
/// that the others of them have.
pub(crate) fn match_all(costs: &Costs, rows: &[usize], search: &mut PathSearch) -> bool
    requires costs { AreCosts costs.now rows.now }
    requires ready { IsReady (cost_of costs.now rows.now) (length rows.now) costs.now.goals
        (growth_of search.old) }
    requires few { length search.old.goal_of.items ≤ length rows.now }
    requires room { HasRoom (length rows.now) search.old }
    ensures tells { Tells costs.now rows.now search.new result }
    ensures floor { search.new.floor ≡ search.old.floor }
    ensures shaped { IsShaped (length rows.now) costs.now.goals search.new }
{
    for _ in search.goal_of.len()..rows.len() {
        begin(search);
        match grow(costs, rows, search) {
            None => return false,
            Some(near) => {
                raise(near, costs, rows, search);
                rematch(near, search);
            }
        }
    }
    true
}

/// Removes the goals of all boxes, and sets all prices to 0.
fn clear(search: &mut PathSearch)
    ensures cleared { growth_of search.new ≡ record (growth_of search.old) {
      u = replicate (length search.old.u.items) 0;
      v = replicate (length search.old.v.items) 0;
      goal_of = [];
      floor = 0;
    } }
    ensures room { KeepsRoom search.old search.new }
{
    search.u.fill(0);
    search.v.fill(0);
    search.goal_of.clear();
    search.floor = 0;
}

/// Finds a goal of its own for each box from nothing, for `assign` and for a matching that begins
/// anew. Returns false if there is none, like `match_all`.
pub(crate) fn match_anew(costs: &Costs, rows: &[usize], search: &mut PathSearch) -> bool
    requires costs { AreCosts costs.now rows.now }
    requires shaped { IsShaped (length rows.now) costs.now.goals search.old }
    ensures tells { Tells costs.now rows.now search.new result }
    ensures floor { search.new.floor ≡ 0 }
    ensures shaped { IsShaped (length rows.now) costs.now.goals search.new }
{
    clear(search);
    match_all(costs, rows, search)
}

/// Returns the sum of some prices.
fn sum_of(prices: &[u32]) -> u64
    requires { sum prices.now < 2 ^ 64 }
    ensures { result ≡ sum prices.now }
{
    prices.iter().map(|price| u64::from(*price)).sum()
}

/// Returns the sum of the boxes' prices less that of the goals'.
pub(crate) fn worth(search: &PathSearch) -> u32
    requires { HasWorth search.now }
    ensures { result + sum search.now.v.items ≡ sum search.now.u.items }
{
    (sum_of(&search.u) - sum_of(&search.v)) as u32
}
