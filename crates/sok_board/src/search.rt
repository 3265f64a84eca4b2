//! Breadth-first search over numbered nodes: each node is reached once, by the fewest letters that
//! lead there from the start.

ghost use Rattle.std.specs.Prelude.{◌≡◌, ◌<◌, ◌+◌, ◌^◌, [], IfOk, IfSome, OnOk, length};
ghost use Rattle.sok_board.specs.Graphs.{Graph, AreDepths, TellsLetters};
ghost use Rattle.sok_board.specs.Searches.{found_of, depth_in, turn, IsSearching, IsSearched};

use sok_rules::cell::Dir;
use sok_rules::fault::Memory;
use std::alloc::Global;

/// Nodes, numbered from 0, one of which is the start, and where letters lead from each node.
pub trait Ways {
    /// The nodes and where letters lead, as a graph.
    ghost graph: { Self → Graph };

    /// Returns the number of nodes.
    fn nodes(&self) -> usize
        ensures count { result ≡ (graph self.now).nodes }
        ensures few { (graph self.now).nodes < 2 ^ 16 };

    /// Returns the start.
    fn start(&self) -> u16
        ensures start { result ≡ (graph self.now).start }
        ensures exists { (graph self.now).start < (graph self.now).nodes };

    /// Returns the node to which a letter leads from `node`, if it leads anywhere.
    fn next(&self, node: u16, dir: Dir) -> Option<u16>
        requires { node < (graph self.now).nodes }
        ensures way { result ≡ (graph self.now).way dir node }
        ensures exists { IfSome result (λ next. next < (graph self.now).nodes) };
}

/// How a node was reached: by a letter from another node.
#[derive(Clone, Copy)]
pub(crate) struct Origin {
    from: u16,
    dir: Dir,
}

/// A node that was reached, and by how many letters.
#[derive(Clone, Copy)]
pub(crate) struct Step {
    node: u16,
    depth: u16,
}

/// The lists of a search. Another search that reuses them takes no memory if it has no more nodes.
#[derive(Drop)]
pub struct Flood {
    /// For each node, the fewest letters that lead there from the start. `None` if none do.
    pub depths: Vec<Option<u16>>,
    origins: Vec<Origin>,
    steps: Vec<Step>,
}

impl Flood {
    /// Makes the lists of a search that has not begun.
    pub fn new(alloc: Global) -> Flood
        ensures { result.depths.items ≡ [] }
    {
        Flood {
            depths: Vec::new(alloc),
            origins: Vec::new(alloc),
            steps: Vec::new(alloc),
        }
    }

    /// Returns the depth of a node. `None` if it has not been reached.
    fn depth(&self, node: u16) -> Option<u16>
        ensures { result ≡ depth_in (found_of self.now) node }
    {
        match self.depths.get(node as usize) {
            Some(depth) => *depth,
            None => None,
        }
    }
}

/// Finds the depth of each node by breadth-first search, and reuses the lists of an earlier search.
pub fn depths_from<W: Ways>(ways: &W, search: Flood) -> Result<Flood, Memory>
    ensures { IfOk result (λ after. AreDepths (W.graph ways.now) after.depths.items) }
{
    searched(ways, search)
}

/// Returns a shortest list of letters that leads from the start to a node. `None` if none does.
pub fn letters_to<W: Ways>(alloc: Global, ways: &W, to: u16) -> Result<Option<Vec<Dir>>, Memory>
    ensures { IfOk result (TellsLetters (W.graph ways.now) to) }
{
    let search = searched(ways, Flood::new(alloc))?;
    let Some(depth) = search.depth(to) else {
        return Ok(None);
    };
    let mut letters = Vec::with_capacity(alloc, depth as usize)?;
    let mut node = to;
    let mut left = depth;
    while left > 0 {
        let origin = search.origins[node as usize];
        letters.push(origin.dir)?;
        node = origin.from;
        left -= 1;
    }
    letters.reverse();
    Ok(Some(letters))
}

/// Begins a search, in which only the start is reached.
fn begun<W: Ways>(ways: &W, mut search: Flood) -> Result<Flood, Memory>
    ensures { IfOk result (λ after. IsSearching (W.graph ways.now) 0 (found_of after)) }
{
    let nodes = ways.nodes();
    let start = ways.start();
    search.depths.clear();
    search.depths.resize(nodes, None)?;
    search.depths[start as usize] = Some(0);
    let nowhere = Origin {
        from: start,
        dir: Dir::Left,
    };
    search.origins.resize(nodes, nowhere)?;
    search.steps.clear();
    search.steps.push(Step {
        node: start,
        depth: 0,
    })?;
    Ok(search)
}

/// Runs a search to its end: takes one step after another until no new node is reached.
fn searched<W: Ways>(ways: &W, search: Flood) -> Result<Flood, Memory>
    ensures { IfOk result (λ after. IsSearched (W.graph ways.now) (found_of after)) }
{
    let mut search = begun(ways, search)?;
    let mut at = 0;
    while at < search.steps.len() {
        meet(ways, at, Dir::Left, &mut search)?;
        meet(ways, at, Dir::Up, &mut search)?;
        meet(ways, at, Dir::Right, &mut search)?;
        meet(ways, at, Dir::Down, &mut search)?;
        at += 1;
    }
    Ok(search)
}

/// Adds the node to which a letter leads from the node of a step, if there is one and it is new.
fn meet<W: Ways>(ways: &W, at: usize, dir: Dir, search: &mut Flood) -> Result<(), Memory>
    requires searching { IsSearching (W.graph ways.now) (turn at dir) (found_of search.old) }
    requires exists { at < length search.old.steps.items }
    ensures { OnOk result (IsSearching (W.graph ways.now) (turn at dir + 1) (found_of search.new)) }
{
    let step = search.steps[at];
    let Some(node) = ways.next(step.node, dir) else {
        return Ok(());
    };
    if search.depths[node as usize].is_some() {
        return Ok(());
    }
    let depth = step.depth + 1;
    search.depths[node as usize] = Some(depth);
    search.origins[node as usize] = Origin {
        from: step.node,
        dir,
    };
    search.steps.push(Step { node, depth })?;
    Ok(())
}
