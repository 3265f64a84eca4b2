//! The inner positions of a pattern, which many entries may share.

ghost use Rattle.std.specs.Prelude.{◌≡◌, IfOk, IfSome};
ghost use Rattle.sok_entry.specs.Inside.{lines_inside};

use crate::entry::Inner;
use std::alloc::{AllocError, Global};
use std::marker::Model;
use std::rc::Rc;

/// The inner positions of a pattern, in order, and their lines if they are kept. Many entries may
/// share them. The contracts see them as a list.
#[derive(Drop)]
pub struct Inners {
    shared: Rc<Shared>,
}

#[derive(Drop)]
struct Shared {
    items: Vec<Inner>,
    lines: Option<Vec<u8>>,
}

impl Model for Inners {
    ghost use Rattle.std.specs.Prelude.{◌≡◌, IfSome, List};
    ghost use Rattle.sok_entry.specs.declared.entry.Inner.{Inner};
    ghost use Rattle.sok_entry.specs.Inside.{lines_inside};

    ghost Value = { List Inner };

    ghost view = { λ inners. inners.shared.value.items.items };

    ghost invariant = { λ inners. IfSome inners.shared.value.lines
        (λ lines. lines.items ≡ lines_inside inners.shared.value.items.items) };
}

impl Inners {
    /// Makes a list that can be shared, without its lines.
    pub fn new(alloc: Global, items: Vec<Inner>) -> Result<Inners, AllocError>
        ensures { IfOk result (λ inners. inners ≡ items.items) }
    {
        Inners::of(alloc, items, None)
    }

    /// Makes a list that can be shared, with its lines if they are to be kept.
    pub(crate) fn of(
        alloc: Global,
        items: Vec<Inner>,
        lines: Option<Vec<u8>>,
    ) -> Result<Inners, AllocError>
        requires { IfSome lines (λ lines. lines.items ≡ lines_inside items.items) }
        ensures { IfOk result (λ inners. inners ≡ items.items) }
    {
        match Rc::new(alloc, Shared { items, lines }) {
            Ok(shared) => Ok(Inners { shared }),
            Err(_) => Err(AllocError),
        }
    }

    /// Returns the same list without a copy of the positions.
    pub fn share(&self) -> Result<Inners, AllocError>
        ensures { IfOk result (λ inners. inners ≡ self.now) }
    {
        let shared = self.shared.clone()?;
        Ok(Inners { shared })
    }

    /// Returns the positions without a copy.
    pub fn as_slice(&self) -> &[Inner]
        ensures { result.now ≡ self.now }
    {
        &self.shared.items
    }

    /// Returns the lines of the positions, if they are kept.
    pub(crate) fn lines(&self) -> Option<&[u8]>
        ensures { IfSome result (λ lines. lines.now ≡ lines_inside self.now) }
    {
        match &self.shared.lines {
            Some(lines) => Some(lines.as_slice()),
            None => None,
        }
    }
}
