//! References by their names.

ghost use Rattle.std.specs.Prelude.{◌≡◌, ◌<◌, ◌^◌, length, map, IfOk};
ghost use Rattle.rf_names.specs.Tables.{AreListed, numbers_in};

use crate::parts::ReferenceDeclaration;
use std::alloc::{AllocError, Global};
use std::collections::BTreeMap;

/// The numbers of the references of each name, in order.
pub fn numbers_by_name<'a>(
    alloc: Global,
    references: &[ReferenceDeclaration<'a>],
) -> Result<BTreeMap<&'a str, Vec<u32>>, AllocError>
    requires { length references.now < 2 ^ 32 }
    ensures { IfOk result (λ lists. AreListed (map (λ r. r.feature.name) references.now) lists) }
{
    let mut lists: BTreeMap<&str, Vec<u32>> = BTreeMap::new(alloc);
    for (number, reference) in references.iter().enumerate() {
        let text = reference.feature.name.text.as_str();
        lists.entry(text)?.or_default().push(number as u32)?;
    }
    Ok(lists)
}

/// The numbers that are stored under a text.
pub fn numbers_under<'m>(lists: &'m BTreeMap<&str, Vec<u32>>, text: &str) -> &'m [u32]
    ensures { result.now ≡ numbers_in lists.now text.now }
{
    match lists.get(text) {
        Some(numbers) => numbers.as_slice(),
        None => &[],
    }
}
