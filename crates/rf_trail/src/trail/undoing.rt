//! Changes undone.

ghost use Rattle.std.specs.Prelude.{◌≡◌, ◌≤◌, drop, length, set, take};
ghost use Rattle.rf_trail.specs.Trail.{undone};

use super::Change;

// Puts an item in the place of one, if there is one.
fn put<T: Copy>(items: &mut Vec<T>, place: usize, item: T)
    ensures { items.new.items ≡ set items.old.items place item }
{
    if place < items.len() {
        items[place] = item;
    }
}

// Undoes the changes after so many.
pub(super) fn undo<T: Copy>(items: &mut Vec<T>, changes: &mut Vec<Change<T>>, many: usize)
    requires { many ≤ length changes.old.items }
    ensures items { items.new.items ≡ undone (drop many changes.old.items) items.old.items }
    ensures changes { changes.new.items ≡ take many changes.old.items }
{
    while changes.len() > many {
        if let Some(change) = changes.pop() {
            put(items, change.place, change.before);
        }
    }
}
