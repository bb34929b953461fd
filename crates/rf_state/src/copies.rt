//! The added facts of a state with a fresh object.

ghost use Rattle.std.specs.Prelude.{◌≢◌, ◌<◌, IfOk, OnOk};
ghost use Rattle.rf_state.specs.Copies.{AreCopies, ArePut, IsRowPut};

use rf_values::Truth;
use std::alloc::{AllocError, Global};
use std::collections::BTreeMap;

/// A fresh object, and the one where it stands too.
#[derive(Clone, Copy)]
pub struct Fresh {
    pub number: u64,
    pub of: u64,
}

// Puts a fact, and the one at whose second end the fresh object stands.
fn put_row(
    copies: &mut BTreeMap<(u32, u64, u64), Truth>,
    key: (u32, u64, u64),
    truth: Truth,
    fresh: Fresh,
) -> Result<(), AllocError>
    requires { key.2 ≢ fresh.number }
    ensures { OnOk result (IsRowPut copies.old key truth fresh.of fresh.number copies.new) }
{
    let (r, a, b) = key;
    copies.insert(key, truth)?;
    if b == fresh.of {
        copies.insert((r, a, fresh.number), truth)?;
    }
    Ok(())
}

// Puts a fact, and those in which the fresh object stands.
fn put(
    copies: &mut BTreeMap<(u32, u64, u64), Truth>,
    key: (u32, u64, u64),
    truth: Truth,
    fresh: Fresh,
) -> Result<(), AllocError>
    requires from { key.1 ≢ fresh.number }
    requires to { key.2 ≢ fresh.number }
    ensures { OnOk result (ArePut copies.old key truth fresh.of fresh.number copies.new) }
{
    let (r, a, b) = key;
    put_row(copies, key, truth, fresh)?;
    if a == fresh.of {
        put_row(copies, (r, fresh.number, b), truth, fresh)?;
    }
    Ok(())
}

/// The facts of a map, and for each in which an object stands those in which the fresh one stands
/// in its place.
pub fn copies(
    alloc: Global,
    added: &BTreeMap<(u32, u64, u64), Truth>,
    fresh: Fresh,
) -> Result<BTreeMap<(u32, u64, u64), Truth>, AllocError>
    requires { fresh.of < fresh.number }
    ensures { IfOk result (AreCopies added.now fresh.of fresh.number) }
{
    let mut copies = BTreeMap::new(alloc);
    for (key, truth) in added.iter() {
        let (_, a, b) = *key;
        if a != fresh.number && b != fresh.number {
            put(&mut copies, *key, *truth, fresh)?;
        }
    }
    Ok(copies)
}
