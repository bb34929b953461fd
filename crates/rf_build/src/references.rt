//! The references of a problem.

ghost use Rattle.std.specs.Prelude.{◌≡◌, ◌<◌, ◌^◌, All, IfOk, map};
ghost use Rattle.rf_build.specs.Resolved.{resolved_reference};

use crate::classes::class_number;
use crate::counts::count_of_mult;
use rf_names::{Names, ReferenceDeclaration, kind_of, opposite};
use rf_problem::Reference;
use std::alloc::{AllocError, Global};

fn resolved_reference(
    alloc: Global,
    names: &Names,
    form: &ReferenceDeclaration,
) -> Result<Reference, AllocError>
    requires { form.now.source < 2 ^ 32 }
    ensures { IfOk result (λ reference.
        reference ≡ resolved_reference names.now.declared.now form.now) }
{
    let name = form.feature.name.text.clone()?;
    let opposite = opposite(alloc, names, form)?;
    Ok(Reference {
        name,
        kind: kind_of(form.feature.word),
        source: form.source as u32,
        target: class_number(names, &form.feature.target),
        range: count_of_mult(form.feature.mult),
        opposite,
    })
}

/// The references that are declared.
pub fn resolved_references(alloc: Global, names: &Names) -> Result<Vec<Reference>, AllocError>
    requires { All (λ r. r.source < 2 ^ 32) names.now.declared.now.references }
    ensures { IfOk result (λ references. references.items
        ≡ map (resolved_reference names.now.declared.now) names.now.declared.now.references) }
{
    let declared = names.declared;
    let mut references = Vec::new(alloc);
    for form in declared.references.as_slice() {
        references.push(resolved_reference(alloc, names, form)?)?;
    }
    Ok(references)
}
