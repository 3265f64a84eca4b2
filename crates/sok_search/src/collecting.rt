//! Where the entries of a certificate are collected.

ghost use Rattle.std.specs.Prelude.{List, ◌≡◌, ◌∷◌, ◌++◌, [], OnOk};
ghost use Rattle.sok_cert.specs.Entry.{Entry};
ghost use Rattle.sok_cert.specs.Text.{entry_from};

use sok_cert::entry::{Entry, Numbers, Reason};
use std::alloc::{AllocError, Global};

/// A collection that takes the entries of a certificate one by one. It keeps them, or what it makes of
/// them, such as their text.
pub trait Entries {
    // Which entries were taken, in order.
    ghost took: { List Entry → Self → Type 0 };

    /// Takes the next entry, given by its parts. It fails only if memory is refused.
    fn take(
        &mut self,
        alloc: Global,
        depth: u32,
        player: u32,
        boxes: &[u32],
        reason: Reason,
    ) -> Result<(), AllocError>
        ensures { OnOk result ((entries : List Entry) → took entries self.old
            → took (entries ++ entry_from depth player boxes.now reason ∷ []) self.new) };
}

/// The entries are kept as they are.
impl Entries for Vec<Entry> {
    ghost took = { λ entries list. list.items ≡ entries };

    fn take(
        &mut self,
        alloc: Global,
        depth: u32,
        player: u32,
        boxes: &[u32],
        reason: Reason,
    ) -> Result<(), AllocError> {
        let boxes = Numbers::copied(alloc, boxes)?;
        self.push(Entry {
            depth,
            player,
            boxes,
            reason,
        })?;
        Ok(())
    }
}
