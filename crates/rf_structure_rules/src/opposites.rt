//! Opposites of references.

ghost use Rattle.std.specs.Prelude.{◌≡◌, ◌&&◌, IfOk, Some};
ghost use Rattle.rf_names.specs.Offsets.{least_of};
ghost use Rattle.rf_names.specs.LookUp.{class_named, opposite_of};
ghost use Rattle.rf_structure_rules.specs.StructureOffsets.{bad_opposite, bad_opposite_offsets, bad_opposites_from, is_same_number, leads_back};

use rf_names::{Names, ReferenceDeclaration, lesser, offset_if, opposite};
use std::alloc::{AllocError, Global};

fn is_same_number(there: Option<u32>, number: u64) -> bool
    ensures { result ≡ is_same_number there (Some number) }
{
    match there {
        None => false,
        Some(own) => u64::from(own) == number,
    }
}

fn is_target(names: &Names, reference: &ReferenceDeclaration, class: u64) -> bool
    ensures { result ≡
        is_same_number (class_named names.now.declared.now reference.now.feature.target.text)
        (Some class) }
{
    is_same_number(
        names.class_named(reference.feature.target.text.as_str()),
        class,
    )
}

// Whether a reference leads back to the reference of this number, and has it as its opposite.
fn is_mirror(
    alloc: Global,
    names: &Names,
    number: u64,
    reference: &ReferenceDeclaration,
    back: &ReferenceDeclaration,
) -> Result<bool, AllocError>
    ensures { IfOk result (λ yes. yes ≡ (
        is_same_number (class_named names.now.declared.now reference.now.feature.target.text)
        (Some back.now.source)
        && (is_same_number (class_named names.now.declared.now back.now.feature.target.text)
        (Some reference.now.source)
        && is_same_number (opposite_of names.now.declared.now back.now back.now.feature.opposite)
        (Some number)))) }
{
    let own = opposite(alloc, names, back)?;
    let there = is_target(names, reference, back.source);
    let here = is_target(names, back, reference.source);
    let paired = is_same_number(own, number);
    Ok(there && (here && paired))
}

fn leads_back(
    alloc: Global,
    names: &Names,
    number: u64,
    reference: &ReferenceDeclaration,
    opposite: Option<u32>,
) -> Result<bool, AllocError>
    ensures { IfOk result (λ back.
        back ≡ leads_back names.now.declared.now number reference.now opposite) }
{
    let declared = names.declared;
    let Some(there) = opposite else {
        return Ok(false);
    };
    match declared.references.get(there as usize) {
        None => Ok(false),
        Some(back) => is_mirror(alloc, names, number, reference, back),
    }
}

fn bad(
    alloc: Global,
    names: &Names,
    number: u64,
    reference: &ReferenceDeclaration,
) -> Result<Option<u64>, AllocError>
    ensures { IfOk result (λ at.
        at ≡ least_of (
        bad_opposite names.now.declared.now number reference.now
        reference.now.feature.opposite)) }
{
    let opposite = opposite(alloc, names, reference)?;
    match &reference.feature.opposite {
        None => Ok(None),
        Some(name) => {
            let mirrored = leads_back(alloc, names, number, reference, opposite)?;
            Ok(offset_if(!mirrored, name.at))
        }
    }
}

#[tactic(auto, using(crate::proofs::NumberedOffsets::least_of_opposites_more))]
fn bad_among(
    alloc: Global,
    names: &Names,
    references: &[ReferenceDeclaration],
) -> Result<Option<u64>, AllocError>
    ensures { IfOk result (λ at.
        at ≡ least_of (bad_opposites_from names.now.declared.now 0 references.now)) }
{
    let mut least = None;
    for (number, reference) in references.iter().enumerate() {
        least = lesser(least, bad(alloc, names, number as u64, reference)?);
    }
    Ok(least)
}

/// The least offset of a name after `opposite` whose reference doesn't lead back.
pub fn bad_opposite(alloc: Global, names: &Names) -> Result<Option<u64>, AllocError>
    ensures { IfOk result (λ at. at ≡ least_of (bad_opposite_offsets names.now.declared.now)) }
{
    let declared = names.declared;
    bad_among(alloc, names, declared.references.as_slice())
}
