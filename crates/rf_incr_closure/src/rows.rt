//! The rows of a tag: made, renewed and read.

ghost use Rattle.std.specs.Prelude.{◌≡◌, ◌<◌, ◌↔◌, ℕ, IsTrue, OnOk, length};
ghost use Rattle.rf_finite.specs.Walks.{IsReachable, walk_below};
ghost use Rattle.rf_incr_closure.specs.Entries.{HasRow, HasRows, LeavesOtherRows, LeavesOtherTags, is_marked};
ghost use Rattle.rf_incr_closure.specs.Words.{AreWritten, AreWrittenRows, IsWrittenRow};
ghost use Rattle.rf_incr_closure.specs.Writes.{mark_at};

use crate::blocks::{BLOCK_SIZE, block_count, block_value, has_bit, row_key, words_at, write};
use rf_closure::{Edges, reach};
use rf_store::Store;
use std::alloc::{AllocError, Global};

/// Writes the row of a vertex block by block.
fn write_row(store: &mut Store, tag: u64, from: u64, marks: &[bool]) -> Result<(), AllocError>
    ensures words { OnOk result
        (AreWritten store.new.current tag (length marks.now) from (mark_at marks.now)) }
    ensures unchanged { AreWritten store.old.current tag (length marks.now) from (mark_at marks.now)
        → store.new ≡ store.old }
    ensures others { LeavesOtherRows store.old.current store.new.current tag (length marks.now) from }
    ensures saved { store.new.saved ≡ store.old.saved }
{
    for block in 0..block_count(marks.len() as u64) {
        let words = block_value(marks, block);
        write(store, row_key(tag, from, block), words)?;
    }
    Ok(())
}

/// The rows of closures that stand in a store. A row of a tag says which vertices can be reached from
/// one vertex. The entries of a tag are those whose key begins with it.
pub struct Rows;

impl Rows {
    /// Makes the rows of all vertices below the size. Of what else stands at the tag nothing is said.
    ///
    /// Entries of other tags and saved versions stay, whatever it answers. Where memory runs out,
    /// entries of this tag may have changed.
    pub fn make<E: Edges>(
        alloc: Global,
        store: &mut Store,
        tag: u64,
        e: &E,
    ) -> Result<(), AllocError>

        // Each row as an equation, for callers that compute with walks.
        ensures rows { OnOk result (HasRows store.new.current tag (E.size e.now)
            (walk_below (E.edge e.now) (E.through e.now) (E.size e.now))) }

        // A vertex is marked in a row exactly where a list of inner vertices is a walk to it.
        ensures walks { OnOk result ((a : ℕ) → a < E.size e.now → (b : ℕ) → b < E.size e.now
            → IsTrue (is_marked store.new.current tag a b)
            ↔ IsReachable (E.edge e.now) (E.through e.now) (E.size e.now) a b) }

        // The rows as they are written. Where they stand so already the store stays as it is.
        ensures words { OnOk result (AreWrittenRows store.new.current tag (E.size e.now)
            (walk_below (E.edge e.now) (E.through e.now) (E.size e.now))) }
        ensures unchanged { AreWrittenRows store.old.current tag (E.size e.now)
            (walk_below (E.edge e.now) (E.through e.now) (E.size e.now)) → store.new ≡ store.old }
        ensures others { LeavesOtherTags store.old.current store.new.current tag }
        ensures saved { store.new.saved ≡ store.old.saved }
    {
        for from in 0..e.size() {
            Rows::renew(alloc, store, tag, e, from)?;
        }
        Ok(())
    }

    /// Makes the row of one vertex. Words that stand already are not put again.
    ///
    /// Entries of other rows and saved versions stay, whatever it answers. Where memory runs out,
    /// entries of this row may have changed.
    pub fn renew<E: Edges>(
        alloc: Global,
        store: &mut Store,
        tag: u64,
        e: &E,
        from: u64,
    ) -> Result<(), AllocError>
        requires { from < E.size e.now }
        ensures row { OnOk result (HasRow store.new.current tag (E.size e.now) from
            (walk_below (E.edge e.now) (E.through e.now) (E.size e.now) from)) }
        ensures walks { OnOk result ((b : ℕ) → b < E.size e.now
            → IsTrue (is_marked store.new.current tag from b)
            ↔ IsReachable (E.edge e.now) (E.through e.now) (E.size e.now) from b) }
        ensures words { OnOk result (IsWrittenRow store.new.current tag (E.size e.now) from
            (walk_below (E.edge e.now) (E.through e.now) (E.size e.now) from)) }
        ensures unchanged { IsWrittenRow store.old.current tag (E.size e.now) from
            (walk_below (E.edge e.now) (E.through e.now) (E.size e.now) from) → store.new ≡ store.old }
        ensures others { LeavesOtherRows store.old.current store.new.current tag (E.size e.now) from }
        ensures saved { store.new.saved ≡ store.old.saved }
    {
        let marks = reach(alloc, e, from)?;
        write_row(store, tag, from, &marks)
    }

    /// Whether the current map has at the tag that `b` can be reached from `a`. This says something of
    /// vertices below the size for which the row was made.
    pub fn reaches(store: &Store, tag: u64, a: u64, b: u64) -> bool
        ensures { result ≡ is_marked store.now.current tag a b }
    {
        has_bit(&words_at(store, &row_key(tag, a, b / BLOCK_SIZE)), b)
    }
}
