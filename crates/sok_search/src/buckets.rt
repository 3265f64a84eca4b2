//! The open states of one layer, by their lower bounds.

ghost use Rattle.std.specs.Prelude.{◌≡◌, ◌<◌, [], IfOk, MatchOption, length};
ghost use Rattle.sok_search.specs.Steps.{HasOneMore, TellsTaken};
ghost use Rattle.sok_search.specs.Buckets.{in_buckets, IsFilled};

use sok_rules::fault::Memory;
use std::alloc::Global;
use std::marker::Model;

/// Indices of states in buckets, one bucket for each rank. The contracts see them as a list, whose order
/// says nothing.
#[derive(Drop)]
pub(crate) struct Buckets {
    buckets: Vec<Vec<u32>>,
    /// Where to look first. A wrong hint costs time, nothing else.
    first: usize,
}

impl Model for Buckets {
    ghost use Rattle.std.specs.Prelude.{ℕ, List};
    ghost use Rattle.sok_search.specs.Buckets.{in_buckets};

    ghost Value = { List ℕ };

    ghost view = { λ queue. in_buckets queue.buckets.items };
}

/// Returns the first bucket from a rank on that is not empty.
fn first_filled(buckets: &[Vec<u32>], from: usize) -> Option<usize>
    ensures { MatchOption result
        (from ≡ 0 → in_buckets buckets.now ≡ []) (IsFilled buckets.now) }
{
    for rank in from..buckets.len() {
        if !buckets[rank].is_empty() {
            return Some(rank);
        }
    }
    None
}

/// Returns a bucket that is not empty: the first from a rank on, if there is one.
fn find_filled(buckets: &[Vec<u32>], from: usize) -> Option<usize>
    ensures { MatchOption result (in_buckets buckets.now ≡ []) (IsFilled buckets.now) }
{
    match first_filled(buckets, from) {
        Some(rank) => Some(rank),
        None => first_filled(buckets, 0),
    }
}

/// Appends empty buckets until a rank has one.
fn make_room(alloc: Global, buckets: &mut Vec<Vec<u32>>, rank: usize) -> Result<(), Memory>
    ensures room { IfOk result (λ _. rank < length buckets.new.items) }
    ensures same { IfOk result (λ _. in_buckets buckets.new.items ≡ in_buckets buckets.old.items) }
{
    while buckets.len() <= rank {
        buckets.push(Vec::new(alloc))?;
    }
    Ok(())
}

impl Buckets {
    /// Returns empty buckets.
    pub(crate) fn new(alloc: Global) -> Buckets
        ensures { result ≡ [] }
    {
        Buckets {
            buckets: Vec::new(alloc),
            first: 0,
        }
    }

    /// Adds an index.
    pub(crate) fn push(&mut self, alloc: Global, rank: usize, index: u32) -> Result<(), Memory>
        ensures { IfOk result (λ _. HasOneMore self.old index self.new) }
    {
        make_room(alloc, &mut self.buckets, rank)?;
        self.buckets[rank].push(index)?;
        self.first = self.first.min(rank);
        Ok(())
    }

    /// Removes an index of the lowest rank, the one that came last. None if they are empty.
    pub(crate) fn pop(&mut self) -> Option<u32>
        ensures { TellsTaken self.old self.new result }
    {
        match find_filled(self.buckets.as_slice(), self.first) {
            Some(rank) => {
                self.first = rank;
                let bucket = &mut self.buckets[rank];
                bucket.pop()
            }
            None => None,
        }
    }
}
