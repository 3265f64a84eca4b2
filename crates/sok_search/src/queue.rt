//! The open list.

ghost use Rattle.std.specs.Prelude.{◌≡◌, ◌<◌, [], IfOk, MatchOption, length};
ghost use Rattle.sok_search.specs.Steps.{HasOneMore, TellsTaken};
ghost use Rattle.sok_search.specs.Buckets.{in_layers};

use crate::buckets::Buckets;
use sok_rules::fault::Memory;
use std::alloc::Global;
use std::marker::Model;

/// The open list: indices of states, in layers by depth and lower bound together, and within a layer by the
/// lower bound. The contracts see it as a list, whose order says nothing.
#[derive(Drop)]
pub(crate) struct Queue {
    alloc: Global,
    layers: Vec<Buckets>,
    /// Where to look first. A wrong hint costs time, nothing else.
    first: usize,
}

impl Model for Queue {
    ghost use Rattle.std.specs.Prelude.{ℕ, List};
    ghost use Rattle.sok_search.specs.Buckets.{in_layers};

    ghost Value = { List ℕ };

    ghost view = { λ queue. in_layers queue.layers.items };
}

/// Removes an index from the first layer, from a place on, that has one.
fn pop_from(layers: &mut [Buckets], from: usize) -> Option<(usize, u32)>
    ensures { MatchOption result
        ((layers.new ≡ layers.old) × (from ≡ 0 → in_layers layers.old ≡ []))
        (λ found. HasOneMore (in_layers layers.new) found.1 (in_layers layers.old)) }
{
    for place in from..layers.len() {
        let layer = &mut layers[place];
        if let Some(index) = layer.pop() {
            return Some((place, index));
        }
    }
    None
}

/// Removes an index from a layer: the first from a place on, if one there has any.
fn pop_any(layers: &mut [Buckets], from: usize) -> Option<(usize, u32)>
    ensures { MatchOption result ((in_layers layers.old ≡ []) × (in_layers layers.new ≡ []))
        (λ found. HasOneMore (in_layers layers.new) found.1 (in_layers layers.old)) }
{
    match pop_from(layers, from) {
        Some((place, index)) => Some((place, index)),
        None => pop_from(layers, 0),
    }
}

/// Appends empty layers until a place has one.
fn make_room(alloc: Global, layers: &mut Vec<Buckets>, place: usize) -> Result<(), Memory>
    ensures room { IfOk result (λ _. place < length layers.new.items) }
    ensures same { IfOk result (λ _. in_layers layers.new.items ≡ in_layers layers.old.items) }
{
    while layers.len() <= place {
        layers.push(Buckets::new(alloc))?;
    }
    Ok(())
}

impl Queue {
    /// Returns an empty open list.
    pub(crate) fn new(alloc: Global) -> Queue
        ensures { result ≡ [] }
    {
        Queue {
            alloc,
            layers: Vec::new(alloc),
            first: 0,
        }
    }

    /// Adds a state by its index. A solution through it has at least `pushes` pushes, `bound` of which are
    /// still to come.
    pub(crate) fn push(&mut self, pushes: usize, bound: usize, index: u32) -> Result<(), Memory>
        ensures { IfOk result (λ _. HasOneMore self.old index self.new) }
    {
        make_room(self.alloc, &mut self.layers, pushes)?;
        self.layers[pushes].push(self.alloc, bound, index)?;
        self.first = self.first.min(pushes);
        Ok(())
    }

    /// Removes a state with the least `pushes`, of those one with the least `bound`, and of those the one
    /// that came last. None if the list is empty.
    pub(crate) fn pop(&mut self) -> Option<u32>
        ensures { TellsTaken self.old self.new result }
    {
        match pop_any(&mut self.layers, self.first) {
            Some((place, index)) => {
                self.first = place;
                Some(index)
            }
            None => None,
        }
    }
}
