//! The trait of the keys that a table keeps.

ghost use Rattle.std.specs.Prelude.{ℕ, ◌≡◌, ◌≤◌, ◌↔◌, IfOk, IsTrue, length};
ghost use Rattle.sok_board.specs.Limits.{box_limit};
ghost use Rattle.sok_state.specs.declared.key.Key.{Key};
ghost use Rattle.sok_state.specs.Tables.{IsNext};

use crate::key::Key;
use sok_board::area::Sq;
use sok_board::box_set::BoxSet;
use sok_rules::fault::Memory;
use std::alloc::Global;
use std::hash::Hash;

/// A key in a form of a fixed size, which needs no allocation of its own.
pub(crate) trait Packed: Hash + Drop {
    /// The key that it represents.
    ghost state_of: { Self → Key };

    /// The invariant of this form.
    ghost fits: { Self → Type 0 };

    /// Which keys have this form.
    ghost takes: { Key → Type 0 };

    /// Which keys have this form after a box is moved from one square to another.
    ghost takes_move: { Key → ℕ → ℕ → Type 0 };

    /// Packs a key.
    fn of(key: &Key) -> Self
        requires { takes key.now }
        ensures state { state_of result ≡ key.now }
        ensures fits { fits result }
        ensures few { length (state_of result).boxes ≤ box_limit };

    /// Returns the least square that the player can walk to.
    fn least(&self) -> Sq
        ensures { result ≡ (state_of self.now).least };

    /// Returns the boxes. Errors: `Memory`.
    fn boxes(&self, alloc: Global) -> Result<BoxSet, Memory>
        requires fits { fits self.now }
        requires few { length (state_of self.now).boxes ≤ box_limit }
        ensures { IfOk result (λ boxes. boxes ≡ (state_of self.now).boxes) };

    /// Returns the key after a push: a box moved from `from` to `to`, and `least` is the least
    /// square that the player can walk to.
    fn moved(&self, from: Sq, to: Sq, least: Sq) -> Self
        requires fits { fits self.now }
        requires takes { takes_move (state_of self.now) from to }
        ensures next { IsNext (state_of self.now) from to least (state_of result) }
        ensures fits { fits result };

    /// Packed keys are equal exactly if they represent the same key.
    ghost tells: { (a b : Self) → fits a → fits b
        → IsTrue (Self.eq a b) ↔ (state_of a ≡ state_of b) };
}
