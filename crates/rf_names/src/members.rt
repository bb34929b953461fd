//! The references of a name that a class declares, or that the classes above it do.

ghost use Rattle.std.specs.Prelude.{◌≡◌, ◌==◌, IfOk, false, filter, slice_index_or};
ghost use Rattle.rf_names.specs.Tables.{passes_at};

use crate::declarations::Declarations;
use std::alloc::{AllocError, Global};

// Whether this class declares the reference.
fn is_declared_by(declared: &Declarations, class: u32, reference: u32) -> bool
    ensures { result ≡ passes_at (λ r. r.source == class) declared.now.references reference }
{
    match declared.references.get(reference as usize) {
        Some(form) => form.source == class as u64,
        None => false,
    }
}

// Whether a class that is marked declares the reference.
fn is_declared_above(declared: &Declarations, marks: &[bool], reference: u32) -> bool
    ensures { result
        ≡ passes_at (λ r. slice_index_or marks.now r.source false) declared.now.references reference }
{
    match declared.references.get(reference as usize) {
        Some(form) => marks.get(form.source as usize).copied().unwrap_or(false),
        None => false,
    }
}

/// Those of the references that this class declares.
pub fn declared_by(
    alloc: Global,
    declared: &Declarations,
    class: u32,
    references: &[u32],
) -> Result<Vec<u32>, AllocError>
    ensures { IfOk result (λ own. own.items
        ≡ filter (passes_at (λ r. r.source == class) declared.now.references) references.now) }
{
    let mut own = Vec::new(alloc);
    for reference in references {
        if is_declared_by(declared, class, *reference) {
            own.push(*reference)?;
        }
    }
    Ok(own)
}

/// Those of the references that a class declares which is marked.
pub fn declared_above(
    alloc: Global,
    declared: &Declarations,
    marks: &[bool],
    references: &[u32],
) -> Result<Vec<u32>, AllocError>
    ensures { IfOk result (λ above. above.items
        ≡ filter (passes_at (λ r. slice_index_or marks.now r.source false) declared.now.references)
        references.now) }
{
    let mut above = Vec::new(alloc);
    for reference in references {
        if is_declared_above(declared, marks, *reference) {
            above.push(*reference)?;
        }
    }
    Ok(above)
}
