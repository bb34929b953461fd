//! The numbers of the classes that each class extends directly.

ghost use Rattle.std.specs.Prelude.{◌≡◌, map, IfOk};
ghost use Rattle.rf_names.specs.Tables.{numbers_among};

use crate::numbering::Numbering;
use crate::parts::ClassDeclaration;
use rf_syntax::Name;
use std::alloc::{AllocError, Global};

// The numbers of those of the names that are there.
fn numbers_of(alloc: Global, classes: &Numbering, names: &[&Name]) -> Result<Vec<u64>, AllocError>
    ensures { IfOk result (λ numbers. numbers.items
        ≡ numbers_among (map (λ n. n.now) classes.now.names.items) (map (λ n. n.now) names.now)) }
{
    let mut numbers = Vec::new(alloc);
    for name in names {
        if let Some(number) = classes.find(name.text.as_str()) {
            numbers.push(number)?;
        }
    }
    Ok(numbers)
}

/// For each class the numbers of those that it names after `extends`; a name that isn't one of a class
/// is left out.
pub fn supers_of(
    alloc: Global,
    classes: &Numbering,
    forms: &[ClassDeclaration],
) -> Result<Vec<Vec<u64>>, AllocError>
    ensures { IfOk result (λ supers. map (λ list. list.items) supers.items
        ≡ map (λ c. numbers_among (map (λ n. n.now) classes.now.names.items) c.supers) forms.now) }
{
    let mut supers = Vec::new(alloc);
    for form in forms {
        supers.push(numbers_of(alloc, classes, form.supers.as_slice())?)?;
    }
    Ok(supers)
}
