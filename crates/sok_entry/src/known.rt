//! Lists of inner positions that were read before, each with its lines.

ghost use Rattle.std.specs.Prelude.{ℕ, ◌≡◌, ◌≢◌, ◌++◌, [], List, Contains, MatchOption};
ghost use Rattle.std.specs.Prelude.{OnErr, OnOk, length};
ghost use Rattle.sok_entry.specs.Known.{IsAtFront, Keeps};
ghost use Rattle.sok_entry.specs.Text.{inner_text};
ghost use Rattle.sok_entry.specs.declared.entry.Inner.{Inner};

use crate::inners::Inners;
use crate::limits::all_fit;
use crate::writing::push_inner_lines;
use std::alloc::{AllocError, Global};
use std::marker::Model;

/// The greatest number of lists. There are few because each look-up goes through all of them.
const LISTS: usize = 256;

/// The greatest number of bytes of the lines of all lists together. The positions take at most a
/// small multiple of it.
const BYTES: usize = 4_194_304;

/// Positions, and the bytes of their lines, each with LF at its end.
#[derive(Drop)]
struct KnownList {
    inner: Inners,
    lines: Vec<u8>,
}

impl KnownList {
    /// Returns the text that follows the lines of these positions. None if their number is not
    /// `count` or `text` does not begin with their lines.
    fn behind<'t>(&self, text: &'t [u8], count: usize) -> Option<&'t [u8]>
        ensures { MatchOption result
            (length self.now.inner ≡ count
            → (rest : List ℕ) → text.now ≢ self.now.lines.items ++ rest)
            (λ rest. (length self.now.inner ≡ count)
            × (text.now ≡ self.now.lines.items ++ rest.now)) }
    {
        if self.inner.as_slice().len() != count {
            return None;
        }
        text.strip_prefix(self.lines.as_slice())
    }
}

/// Lists of inner positions of patterns that were read. Most certificates have few different
/// patterns, which are repeated in the same bytes. The lines of a known one need not be read again.
/// The contracts see the lists of positions.
#[derive(Drop)]
pub struct Known {
    lists: Vec<KnownList>,
    /// How many more bytes of lines may be kept.
    room: usize,
}

impl Model for Known {
    ghost use Rattle.std.specs.Prelude.{List};
    ghost use Rattle.sok_entry.specs.declared.entry.Inner.{Inner};
    ghost use Rattle.sok_entry.specs.Known.{AreKept, positions_of};

    ghost Value = { List (List Inner) };

    ghost view = { λ known. positions_of known.lists.items };

    ghost invariant = { λ known. AreKept known.lists.items known.room };
}

impl Known {
    /// Returns an empty collection.
    pub fn new(alloc: Global) -> Known
        ensures { result ≡ [] }
    {
        Known {
            lists: Vec::new(alloc),
            room: BYTES,
        }
    }

    /// Finds the known list of `count` positions with whose lines `text` begins, and returns it
    /// with the text that follows. Only lines that end with LF, without CR, are found.
    pub fn at<'k, 't>(&'k self, text: &'t [u8], count: usize) -> Option<(&'k Inners, &'t [u8])>
        ensures { MatchOption result
            ((inner : List Inner) → Contains self.now inner → length inner ≡ count
            → (rest : List ℕ) → text.now ≢ inner_text inner ++ rest)
            (λ found. IsAtFront self.now text.now count found.0.now found.1.now) }
    {
        for known in &self.lists {
            if let Some(rest) = known.behind(text, count) {
                return Some((&known.inner, rest));
            }
        }
        None
    }

    /// Keeps a list while there is room, without a copy of its positions. Does nothing if the list
    /// is known already, or has no lines (see `limits`). On an error, nothing changes.
    pub fn keep(&mut self, alloc: Global, inner: &Inners) -> Result<(), AllocError>
        ensures kept { OnOk result (Keeps self.old inner.now self.new) }
        ensures refused { OnErr result (self.new ≡ self.old) }
    {
        let positions = inner.as_slice();
        if self.lists.len() >= LISTS || !all_fit(positions) {
            return Ok(());
        }
        let mut lines = Vec::new(alloc);
        push_inner_lines(&mut lines, positions)?;
        if self.at(&lines, positions.len()).is_some() {
            return Ok(());
        }
        let Some(room) = self.room.checked_sub(lines.len()) else {
            return Ok(());
        };
        let inner = inner.share()?;
        self.lists.push(KnownList { inner, lines })?;
        self.room = room;
        Ok(())
    }
}
