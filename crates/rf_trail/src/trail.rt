//! A list that is changed in place, of which earlier forms are kept.

ghost use Rattle.std.specs.Prelude.{length};
ghost use Rattle.rf_trail.specs.Marks.{AreMarks};

mod going_back;
mod list;
mod undoing;

/// What stood at a place before it was changed.
#[derive(Clone, Copy, Debug)]
struct Change<T> {
    place: usize,
    before: T,
}

/// How many changes there were when a list was kept, and how long it was.
#[derive(Clone, Copy, Debug)]
struct Mark {
    changes: usize,
    length: usize,
}

/// A list that is changed in place. What it is can be kept, and gone back to: each change of an item is noted, with
/// what stood there before, and going back undoes the changes since. To go back takes no memory.
#[derive(Debug, Drop)]
pub struct Trail<T> {
    items: Vec<T>,
    // The changes, the oldest first.
    changes: Vec<Change<T>>,
    // Of each list that is kept, the oldest first.
    marks: Vec<Mark>,
    ghost marked: { AreMarks (length changes.items) (length items.items) marks.items },
}
