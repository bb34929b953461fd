//! Opposites of references.

ghost use Rattle.std.specs.Prelude.{◌≡◌, ◌&&◌, IfOk, Some};
ghost use Rattle.rf_names.specs.Offsets.{least_of};
ghost use Rattle.rf_names.specs.LookUp.{class_named, opposite_of, opposites_named, the_first};

use crate::names::Names;
use crate::parts::ReferenceDeclaration;
use rf_syntax::Name;
use std::alloc::{AllocError, Global};

/// What the name after `opposite` stands for: members of the target.
#[tactic(auto, using(crate::proofs::FoundLemmas::position_fits))]
pub fn opposites_named(
    alloc: Global,
    names: &Names,
    reference: &ReferenceDeclaration,
    name: &Name,
) -> Result<Vec<u32>, AllocError>
    ensures { IfOk result (λ members.
        members.items ≡ opposites_named names.now.declared.now reference.now name.now) }
{
    let target = names.class_named(reference.feature.target.text.as_str());
    names.members(alloc, target, name.text.as_str())
}

#[tactic(auto, using(crate::proofs::FoundLemmas::first_is))]
fn the_first(numbers: &[u32]) -> Option<u32>
    ensures { result ≡ the_first numbers.now }
{
    numbers.first().copied()
}

/// The number of the opposite of a reference: the first that its name stands for.
pub fn opposite(
    alloc: Global,
    names: &Names,
    reference: &ReferenceDeclaration,
) -> Result<Option<u32>, AllocError>
    ensures { IfOk result (λ at.
        at ≡ opposite_of names.now.declared.now reference.now reference.now.feature.opposite) }
{
    match &reference.feature.opposite {
        None => Ok(None),
        Some(name) => {
            let members = opposites_named(alloc, names, reference, name)?;
            Ok(the_first(members.as_slice()))
        }
    }
}
