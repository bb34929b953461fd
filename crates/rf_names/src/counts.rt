//! How many classes before each one have an object that their new nodes come from.

ghost use Rattle.std.specs.Prelude.{◌≡◌, length, IfOk};
ghost use Rattle.rf_names.specs.LookUp.{has_new};
ghost use Rattle.rf_names.specs.Tables.{AreCounts};

use crate::parts::ClassDeclaration;
use std::alloc::{AllocError, Global};

fn has_new(class: &ClassDeclaration) -> bool
    ensures { result ≡ has_new class.now }
{
    !class.is_abstract && !class.is_enum
}

/// How many classes before each one have an object that their new nodes come from: they are neither
/// abstract nor enums.
pub fn new_before(alloc: Global, classes: &[ClassDeclaration]) -> Result<Vec<u64>, AllocError>
    ensures { IfOk result (λ counts. AreCounts classes.now (length classes.now) counts.items) }
{
    let mut counts = Vec::new(alloc);
    let mut count = 0;
    for class in classes {
        counts.push(count)?;
        if has_new(class) {
            count += 1;
        }
    }
    Ok(counts)
}
