//! How far the price of a tree's root may rise before a goal joins the tree.

ghost use Rattle.std.specs.Prelude.{
  ℕ,
  ◌≡◌,
  ◌<◌,
  ◌≤◌,
  ◌+◌,
  List,
  Bool,
  All,
  IfSome,
  IsTrue,
  None,
  Some,
  false,
  length,
  slice_index,
  slice_index_or,
};
ghost use Rattle.sok_price.specs.Limits.{rise_limit};
ghost use Rattle.sok_price.specs.Slacks.{closer, smaller, slack_at, TellsNearest};

/// How far the price of a tree's root may rise before some box of the tree has a tight price for a
/// goal, and the branch of that box. The rise is `UNREACHED` if no box of the tree reaches the
/// goal.
#[derive(Clone, Copy, Drop)]
pub(crate) struct Slack {
    pub(crate) rise: u32,
    pub(crate) from: usize,
}

/// The rise of a goal that no box of a tree reaches.
pub(crate) const UNREACHED: u32 = u32::MAX;

/// A goal and its slack.
#[derive(Clone, Copy, Drop)]
pub(crate) struct Near {
    pub(crate) goal: usize,
    pub(crate) slack: Slack,
}

/// Returns the smaller of a slack and that of the branch `from`.
#[tactic(auto, unfolding(crate::specs::Slacks::smaller))]
fn smaller(rise: u32, from: usize, slack: Slack) -> Slack
    ensures { result ≡ smaller rise from slack }
{
    if rise < slack.rise {
        Slack { rise, from }
    } else {
        slack
    }
}

/// Returns a goal's slack after a box of the tree is scanned, from the box's cost and price, the
/// goal's price, and the rise at which the box joined.
#[tactic(auto, unfolding(crate::specs::Slacks::closer))]
fn closer(
    cost: Option<u16>,
    price: u32,
    goal_price: u32,
    rise: u32,
    from: usize,
    slack: Slack,
) -> Slack
    requires small { rise + goal_price ≤ rise_limit }
    requires fair { IfSome cost (λ pushes. price ≤ goal_price + pushes) }
    ensures { result ≡ closer cost price goal_price rise from slack }
{
    match cost {
        Some(pushes) => smaller(rise + (goal_price + u32::from(pushes) - price), from, slack),
        None => slack,
    }
}

/// Returns whether a goal is nearer than the least slack so far, or as near and no box has it: the
/// search then ends there, with a smaller tree.
fn is_nearer(rise: u32, least: u32, goal: usize, takers: &[Option<usize>]) -> bool
    requires { goal < length takers.now }
    ensures nearer { IsTrue result → rise ≤ least }
    ensures farther { result ≡ false → least ≤ rise }
{
    rise < least || rise == least && takers[goal].is_none()
}

/// Scans the goals outside the tree from the box of the branch `from`, which has the costs `row`
/// and the price `price` and joined at `rise`. Updates the slacks, and returns the goal with the
/// least. None if no goal is reached.
pub(crate) fn look(
    row: &[Option<u16>],
    price: u32,
    rise: u32,
    from: usize,
    prices: &[u32],
    taken: &[bool],
    takers: &[Option<usize>],
    slacks: &mut [Slack],
) -> Option<Near>
    requires row { length row.now ≡ length prices.now }
    requires taken { length taken.now ≡ length prices.now }
    requires takers { length takers.now ≡ length prices.now }
    requires slacks { length slacks.old ≡ length prices.now }
    requires small { All (λ goal_price. rise + goal_price ≤ rise_limit) prices.now }
    requires fair { (goal pushes : ℕ) → goal < length prices.now
        → slice_index_or row.now goal None ≡ Some pushes
        → price ≤ slice_index prices.now goal + pushes }
    ensures closer { (goal : ℕ) → goal < length slacks.new
        → slice_index_or taken.now goal false ≡ false
        → slack_at slacks.new goal ≡ closer (slice_index_or row.now goal None) price
        (slice_index prices.now goal) rise from (slack_at slacks.old goal) }
    ensures nearest { TellsNearest taken.now slacks.new (length slacks.new) result }
{
    let mut least = UNREACHED;
    let mut at = 0;
    for goal in 0..prices.len() {
        if !taken[goal] {
            let slack = closer(row[goal], price, prices[goal], rise, from, slacks[goal]);
            slacks[goal] = slack;
            if is_nearer(slack.rise, least, goal, takers) {
                least = slack.rise;
                at = goal;
            }
        }
    }
    if least == UNREACHED {
        return None;
    }
    let slack = slacks[at];
    Some(Near { goal: at, slack })
}
