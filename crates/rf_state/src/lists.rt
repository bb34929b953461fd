//! Objects that are listed for a reference and an object, or `*`.

ghost use Rattle.std.specs.Prelude.{◌≡◌, IfOk, OnErr, OnOk};
ghost use Rattle.rf_state.specs.Lists.{AreSameLists, IsListedToo, listed_at};

use std::alloc::{AllocError, Global};
use std::collections::BTreeMap;

/// Puts an object after the others that are listed for an end.
pub fn put(
    alloc: Global,
    lists: &mut BTreeMap<(u32, Option<u64>), Vec<u64>>,
    end: (u32, Option<u64>),
    other: u64,
) -> Result<(), AllocError>
    ensures put { OnOk result (IsListedToo lists.old end other lists.new) }
    ensures unchanged { OnErr result (AreSameLists lists.old lists.new) }
{
    if let Some(others) = lists.get_mut(&end) {
        others.push(other)?;
        return Ok(());
    }
    let mut others = Vec::new(alloc);
    others.push(other)?;
    lists.insert(end, others)?;
    Ok(())
}

/// The objects that are listed for an end.
pub fn listed_at(lists: &BTreeMap<(u32, Option<u64>), Vec<u64>>, r: u32, x: Option<u64>) -> &[u64]
    ensures { result.now ≡ listed_at lists.now (r, x) }
{
    match lists.get(&(r, x)) {
        Some(others) => others.as_slice(),
        None => &[],
    }
}

/// The same lists once more.
pub fn copy(
    lists: &BTreeMap<(u32, Option<u64>), Vec<u64>>,
) -> Result<BTreeMap<(u32, Option<u64>), Vec<u64>>, AllocError>
    ensures { IfOk result (AreSameLists lists.now) }
{
    let copy = lists.clone()?;
    Ok(copy)
}
