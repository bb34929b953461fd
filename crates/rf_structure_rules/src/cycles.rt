//! Classes that extend themselves.

ghost use Rattle.std.specs.Prelude.{◌≡◌, ◌<◌, Some, IfOk, IsTrue, length};
ghost use Rattle.rf_names.specs.Offsets.{least_of, lesser, offset_if};
ghost use Rattle.rf_names.specs.LookUp.{extends_somehow};
ghost use Rattle.rf_structure_rules.specs.StructureOffsets.{cycle_offsets, cycles_from};

use rf_names::{ClassDeclaration, Names, lesser, offset_if};
use std::alloc::{AllocError, Global};

/// The least offset of a class that extends itself, directly or through others. Where ranks of the
/// classes show that there is none, nothing is searched; else each class takes a search, but for those
/// after the least offset so far.
#[tactic(auto, using(crate::proofs::NumberedOffsets::no_cycle))]
pub fn class_cycle(alloc: Global, names: &Names) -> Result<Option<u64>, AllocError>
    ensures { IfOk result (λ at. at ≡ least_of (cycle_offsets names.now.declared.now)) }
{
    if names.is_clear_of_cycles(alloc)? {
        return Ok(None);
    }
    let declared = names.declared;
    cycles_among(alloc, names, declared.classes.as_slice())
}

fn extends_itself(alloc: Global, names: &Names, number: u64) -> Result<bool, AllocError>
    requires { number < length names.now.declared.now.classes }
    ensures { IfOk result (λ yes. yes ≡ extends_somehow names.now.declared.now number number) }
{
    let Ok(class) = u32::try_from(number) else {
        return Err(AllocError);
    };
    let marks = names.classes_above(alloc, class)?;
    Ok(marks[class as usize])
}

fn is_no_lesser(at: u64, least: Option<u64>) -> bool
    ensures { IsTrue result → lesser least (Some at) ≡ least }
{
    match least {
        None => false,
        Some(least) => least <= at,
    }
}

// The lesser of an offset and that of a class, where it extends itself. A class whose offset isn't
// the lesser isn't asked.
#[tactic(auto, using(crate::proofs::NumberedOffsets::no_lesser))]
fn lesser_in_class(
    alloc: Global,
    names: &Names,
    number: u64,
    at: u64,
    least: Option<u64>,
) -> Result<Option<u64>, AllocError>
    requires { number < length names.now.declared.now.classes }
    ensures { IfOk result (λ lesser_one.
        lesser_one ≡
        lesser least
        (least_of (offset_if (extends_somehow names.now.declared.now number number) at))) }
{
    if is_no_lesser(at, least) {
        return Ok(least);
    }
    let cyclic = extends_itself(alloc, names, number)?;
    Ok(lesser(least, offset_if(cyclic, at)))
}

#[tactic(auto, using(crate::proofs::NumberedOffsets::least_of_cycles_more))]
fn cycles_among(
    alloc: Global,
    names: &Names,
    classes: &[ClassDeclaration],
) -> Result<Option<u64>, AllocError>
    requires { classes.now ≡ names.now.declared.now.classes }
    ensures { IfOk result (λ at. at ≡ least_of (cycles_from names.now.declared.now 0 classes.now)) }
{
    let mut least = None;
    for (number, class) in classes.iter().enumerate() {
        least = lesser_in_class(alloc, names, number as u64, class.name.at, least)?;
    }
    Ok(least)
}
