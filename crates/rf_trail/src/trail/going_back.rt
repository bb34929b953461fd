//! The lists that are kept.

ghost use Rattle.std.specs.Prelude.{◌≡◌, ◌<◌, ◌+◌, ◌++◌, ◌∷◌, [], length, slice_get, take, IfSome, OnErr, OnOk};
ghost use Rattle.rf_trail.specs.Trail.{items, kept};

use super::undoing::undo;
use super::{Mark, Trail};
use std::alloc::AllocError;

impl<T: Copy> Trail<T> {
    /// Keeps the list. Where memory runs out, nothing is changed.
    pub fn commit(&mut self) -> Result<(), AllocError>
        ensures items { items self.new ≡ items self.old }
        ensures kept { OnOk result (kept self.new ≡ kept self.old ++ items self.old ∷ []) }
        ensures unchanged { OnErr result (kept self.new ≡ kept self.old) }
    {
        self.marks.push(Mark {
            changes: self.changes.len(),
            length: self.items.len(),
        })?;
        Ok(())
    }

    /// Goes back to a list that is kept, and forgets those that were kept after it.
    pub fn prune(&mut self, v: usize)
        requires { v < length (kept self.old) }
        ensures items { IfSome (slice_get (kept self.old) v) (λ xs. items self.new ≡ xs) }
        ensures kept { kept self.new ≡ take (v + 1) (kept self.old) }
    {
        let mark = self.marks[v];
        undo(&mut self.items, &mut self.changes, mark.changes);
        self.items.truncate(mark.length);
        self.marks.truncate(v + 1);
    }

    /// Forgets the lists that were kept, but for the first ones.
    pub fn forget(&mut self, many: usize)
        ensures items { items self.new ≡ items self.old }
        ensures kept { kept self.new ≡ take many (kept self.old) }
    {
        self.marks.truncate(many);
    }
}
