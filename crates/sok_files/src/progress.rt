//! How far `settle` has come: which level it searches, and how many are left. At a terminal this
//! number is shown meanwhile.

use std::cell::Cell;
use std::fmt::InlineText;
use std::io::{IsTerminal, Write};
use std::time::Instant;

/// The level that is searched, how many are left, and whether that is shown.
#[derive(Drop)]
pub struct Progress {
    rt: HostRuntime,
    level: Cell<Option<i64>>,
    /// How many levels are left, or 0 if the error stream is no terminal.
    left: Cell<usize>,
    is_shown: Cell<bool>,
    shown_at: Cell<Option<Instant>>,
}

impl Progress {
    pub(crate) fn new(rt: HostRuntime) -> Progress {
        Progress {
            rt,
            level: Cell::new(None),
            left: Cell::new(0),
            is_shown: Cell::new(false),
            shown_at: Cell::new(None),
        }
    }

    /// Notes how many levels will be searched.
    pub fn expect(&self, levels: usize) {
        if self.rt.stderr().is_terminal() {
            self.left.set(levels);
        }
    }

    /// Notes that the level with an id is searched next. Shows how many are left with it, unless
    /// that was shown within the last second.
    pub fn begin(&self, id: i64) {
        self.level.set(Some(id));
        let left = self.left.get();
        if left > 0 && self.is_due() {
            self.show(left);
        }
        self.left.set(left.saturating_sub(1));
    }

    /// Returns the level that was last searched.
    pub(crate) fn level(&self) -> Option<i64> {
        self.level.get()
    }

    /// Clears the line for one of the answer, if that is written to a terminal, too.
    pub(crate) fn make_room(&self) {
        if self.is_shown.get() && self.rt.stdout().is_terminal() {
            self.clear();
        }
    }

    /// Removes what is shown.
    pub(crate) fn clear(&self) {
        if self.is_shown.get() {
            self.is_shown.set(false);
            let _ = self.rt.stderr().write_all(b"\r\x1b[K");
        }
    }

    fn show(&self, left: usize) {
        self.is_shown.set(true);
        self.shown_at.set(Instant::now(&self.rt).ok());
        let line = InlineText::<40>::of(format_args!("\rlevels left: {left}\x1b[K"));
        let _ = self.rt.stderr().write_all(line.as_str().as_bytes());
    }

    /// Returns whether it was not shown within the last second.
    fn is_due(&self) -> bool {
        match self.shown_at.get() {
            Some(shown_at) => match shown_at.elapsed(&self.rt) {
                Ok(passed) => passed.as_secs() > 0,
                Err(_) => false,
            },
            None => true,
        }
    }
}
