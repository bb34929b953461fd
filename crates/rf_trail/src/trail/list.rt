//! What is read of the list, and its changes.

ghost use Rattle.std.specs.Prelude.{◌≡◌, ◌<◌, ◌≤◌, ◌==◌, if◌then◌else◌, ◌++◌, ◌∷◌, ℕ, [], length, set, slice_get, slice_index_or, OnErr, OnOk};
ghost use Rattle.rf_trail.specs.Marks.{mark_at, no_mark};
ghost use Rattle.rf_trail.specs.Trail.{HaveNoMore, items, kept};

use super::{Change, Mark, Trail};
use std::alloc::{AllocError, Global};

impl<T: Copy> Trail<T> {
    /// No items, and nothing that is kept.
    pub fn new(alloc: Global) -> Trail<T>
        ensures items { items result ≡ [] }
        ensures kept { kept result ≡ [] }
    {
        Trail {
            items: Vec::new(alloc),
            changes: Vec::new(alloc),
            marks: Vec::new(alloc),
        }
    }

    /// How many items there are.
    pub fn len(&self) -> usize
        ensures { result ≡ length (items self.now) }
    {
        self.items.len()
    }

    /// The item at a place.
    pub fn get(&self, place: usize) -> Option<T>
        ensures { result ≡ slice_get (items self.now) place }
    {
        match self.items.get(place) {
            Some(item) => Some(*item),
            None => None,
        }
    }

    /// Adds an item after the others. Where memory runs out, nothing is changed.
    pub fn push(&mut self, item: T) -> Result<(), AllocError>
        ensures pushed { OnOk result (items self.new ≡ items self.old ++ item ∷ []) }
        ensures unchanged { OnErr result (items self.new ≡ items self.old) }
        ensures kept { kept self.new ≡ kept self.old }
    {
        self.items.push(item)?;
        Ok(())
    }

    /// Puts an item in the place of one, if there is one. Where memory runs out, nothing is changed.
    pub fn set(&mut self, place: usize, item: T) -> Result<(), AllocError>
        ensures put { OnOk result (items self.new ≡ set (items self.old) place item) }
        ensures unchanged { OnErr result (items self.new ≡ items self.old) }
        ensures kept { kept self.new ≡ kept self.old }
    {
        if place < self.items.len() {
            let before = self.items[place];
            self.changes.push(Change { place, before })?;
            self.items[place] = item;
        }
        Ok(())
    }

    /// Puts an item in the place of one, if there is one. Where memory runs out for the note of it, all items are taken
    /// away, from the lists that are kept too.
    pub fn put(&mut self, place: usize, item: T)
        ensures few { length (items self.new) ≤ length (items self.old) }
        ensures put { (k : ℕ) (none : T) → k < length (items self.new)
            → slice_index_or (items self.new) k none ≡ (if k == place then item else slice_index_or (items self.old) k none) }
        ensures kept { HaveNoMore (kept self.old) (kept self.new) }
    {
        if self.set(place, item).is_err() {
            self.clear();
        }
    }

    /// Takes all items away, from the lists that are kept too. Takes no memory.
    pub fn clear(&mut self)
        ensures items { items self.new ≡ [] }
        ensures many { length (kept self.new) ≡ length (kept self.old) }
        ensures kept { (v : ℕ) → slice_index_or (kept self.new) v [] ≡ [] }
    {
        self.items.truncate(0);
        self.changes.truncate(0);
        forget_all(&mut self.marks);
    }
}

// Makes each mark one of no change and no item.
fn forget_all(marks: &mut Vec<Mark>)
    ensures many { length marks.new.items ≡ length marks.old.items }
    ensures none { (i : ℕ) → i < length marks.new.items → mark_at marks.new.items i ≡ no_mark }
{
    for i in 0..marks.len() {
        marks[i] = Mark {
            changes: 0,
            length: 0,
        };
    }
}
