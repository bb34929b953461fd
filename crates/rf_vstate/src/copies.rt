//! The added facts of a fresh object, copied from those of the object that it is of.

ghost use Rattle.std.specs.Prelude.{◌≡◌, ◌<◌, ◌+◌, ℕ, None, OnOk};
ghost use Rattle.rf_vstate.specs.Copies.{AreBelow, HasFacts, fact_at, with_copies_from, with_copies_into, with_copy, with_fresh_at, with_fresh_below};
ghost use Rattle.rf_vstate.specs.Rows.{AreOwn};

use crate::keys::fact_key;
use rf_store::Store;
use std::alloc::AllocError;

/// A fresh object, the one that it is of, and the number after it.
#[derive(Clone, Copy)]
pub struct Fresh {
    pub number: u64,
    pub of: u64,
    pub after: u64,
}

// Copies what was added of an edge to another, of which nothing was.
fn copy_fact(store: &mut Store, r: u32, from: (u64, u64), to: (u64, u64)) -> Result<(), AllocError>
    requires own { AreOwn store.old.current }
    requires free { fact_at store.old.current r to.0 to.1 ≡ None }
    ensures copied { OnOk result (HasFacts store.old.current store.new.current (with_copy store.old.current r from.0 from.1 to.0 to.1)) }
    ensures saved { store.new.saved ≡ store.old.saved }
{
    match store.get(&fact_key(r, from.0, from.1)) {
        Some(value) => store.put(fact_key(r, to.0, to.1), value),
        None => Ok(()),
    }
}

// Copies the facts at whose second end the object stands.
fn copy_into(store: &mut Store, r: u32, fresh: Fresh) -> Result<(), AllocError>
    requires own { AreOwn store.old.current }
    requires of { fresh.of < fresh.number }
    requires below { AreBelow store.old.current r fresh.number }
    ensures copied { OnOk result (HasFacts store.old.current store.new.current (with_copies_into store.old.current r fresh.of fresh.number fresh.number)) }
    ensures saved { store.new.saved ≡ store.old.saved }
{
    for a in 0..fresh.number {
        copy_fact(store, r, (a, fresh.of), (a, fresh.number))?;
    }
    Ok(())
}

// Copies the facts at whose first end the object stands.
fn copy_from(store: &mut Store, r: u32, fresh: Fresh) -> Result<(), AllocError>
    requires own { AreOwn store.old.current }
    requires of { fresh.of < fresh.number }
    requires free { (b : ℕ) → fact_at store.old.current r fresh.number b ≡ None }
    ensures copied { OnOk result (HasFacts store.old.current store.new.current (with_copies_from store.old.current r fresh.of fresh.number fresh.after)) }
    ensures saved { store.new.saved ≡ store.old.saved }
{
    for b in 0..fresh.after {
        copy_fact(store, r, (fresh.of, b), (fresh.number, b))?;
    }
    Ok(())
}

// Copies the facts of a reference.
fn copy_reference(store: &mut Store, r: u32, fresh: Fresh) -> Result<(), AllocError>
    requires own { AreOwn store.old.current }
    requires of { fresh.of < fresh.number }
    requires after { fresh.after ≡ fresh.number + 1 }
    requires below { AreBelow store.old.current r fresh.number }
    ensures copied { OnOk result (HasFacts store.old.current store.new.current (with_fresh_at store.old.current r fresh.of fresh.number)) }
    ensures saved { store.new.saved ≡ store.old.saved }
{
    copy_into(store, r, fresh)?;
    copy_from(store, r, fresh)
}

/// Copies the facts of the references below `end`, so that the fresh object stands in each in which the
/// object stands: for each reference two look-ups for each object, whatever was added between others.
pub fn copy_facts(store: &mut Store, end: u32, fresh: Fresh) -> Result<(), AllocError>
    requires own { AreOwn store.old.current }
    requires of { fresh.of < fresh.number }
    requires after { fresh.after ≡ fresh.number + 1 }
    requires below { (r : ℕ) → AreBelow store.old.current r fresh.number }
    ensures copied { OnOk result (HasFacts store.old.current store.new.current (with_fresh_below store.old.current end fresh.of fresh.number)) }
    ensures saved { store.new.saved ≡ store.old.saved }
{
    for r in 0..end {
        copy_reference(store, r, fresh)?;
    }
    Ok(())
}
