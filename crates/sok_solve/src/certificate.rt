//! The text of a certificate, which is made as its entries are found.

ghost use Rattle.std.specs.Prelude.{List, ◌≡◌, ◌∷◌, ◌++◌, [], IfOk, IsTrue, OnErr, OnOk};
ghost use Rattle.std.specs.Io.KnownBytes.{Appends};
ghost use Rattle.sok_engine.specs.Written.{AppendsFront};
ghost use Rattle.sok_cert.specs.Entry.{Entry};
ghost use Rattle.sok_cert.specs.Text.{entry_from, text_of};
ghost use Rattle.sok_solve.specs.Lines.{HasLines};

use sok_cert::claim::Claim;
use sok_cert::entry::Reason;
use sok_cert::version::Version;
use sok_cert::writing::{is_pattern, push_end, push_entry, push_front};
use sok_engine::output::{WriteFailed, write_whole};
use sok_search::collecting::Entries;
use std::alloc::{AllocError, Global};
use std::io::Write;
use std::marker::Model;

/// The lines of the entries that were taken, and whether one of them is a pattern.
#[derive(Drop)]
pub struct EntryLines {
    lines: Vec<u8>,
    has_pattern: bool,
}

impl EntryLines {
    /// Returns the lines of no entries.
    pub fn new(alloc: Global) -> EntryLines
        ensures { HasLines result [] }
    {
        EntryLines {
            lines: Vec::new(alloc),
            has_pattern: false,
        }
    }

    /// Appends the lines of the next entry.
    fn push(
        &mut self,
        depth: u32,
        player: u32,
        boxes: &[u32],
        reason: &Reason,
    ) -> Result<(), AllocError>
        ensures { OnOk result ((entries : List Entry) → HasLines self.old entries
            → HasLines self.new (entries ++ entry_from depth player boxes.now reason.now ∷ [])) }
    {
        self.has_pattern |= is_pattern(reason);
        push_entry(&mut self.lines, depth, player, boxes, reason)
    }
}

impl Entries for EntryLines {
    ghost took = { λ entries taken. HasLines taken entries };

    fn take(
        &mut self,
        _alloc: Global,
        depth: u32,
        player: u32,
        boxes: &[u32],
        reason: Reason,
    ) -> Result<(), AllocError> {
        self.push(depth, player, boxes, &reason)
    }
}

/// A certificate, ready to be written: the lines before its entries, and all others. Contracts see
/// it as its text.
#[derive(Drop)]
pub struct ReadyCert {
    front: Vec<u8>,
    lines: Vec<u8>,
}

impl Model for ReadyCert {
    ghost use Rattle.std.specs.Prelude.{ℕ, ◌++◌, List};

    ghost Value = { List ℕ };

    ghost view = { λ ready. ready.front.items ++ ready.lines.items };
}

impl ReadyCert {
    /// Makes the text of a certificate, of any length.
    pub fn new(alloc: Global, claim: &Claim, taken: EntryLines) -> Result<ReadyCert, AllocError>
        ensures { IfOk result (λ ready. (entries : List Entry) → HasLines taken entries
            → ready ≡ text_of claim.now entries) }
    {
        let EntryLines {
            mut lines,
            has_pattern,
        } = taken;
        let version = if has_pattern {
            Version::Two
        } else {
            Version::One
        };
        let mut front = Vec::new(alloc);
        push_front(&mut front, version, claim)?;
        push_end(&mut lines)?;
        Ok(ReadyCert { front, lines })
    }

    /// Returns whether these bytes are its text.
    pub fn is(&self, bytes: &[u8]) -> bool
        ensures { IsTrue result → bytes.now ≡ self.now }
    {
        match bytes.strip_prefix(self.front.as_slice()) {
            Some(lines) => lines == self.lines.as_slice(),
            None => false,
        }
    }

    /// Writes the text. If a write fails, only a first part of it is written.
    pub fn write<W: Write>(&self, out: &mut W) -> Result<(), WriteFailed>
        ensures ok { OnOk result (Appends (W.contents out.old) (W.contents out.new) self.now) }
        ensures err { OnErr result
            (AppendsFront (W.contents out.old) (W.contents out.new) self.now) }
    {
        write_whole(out, &self.front)?;
        write_whole(out, &self.lines)
    }
}
