//! The first rule of names that is broken.

ghost use Rattle.std.specs.Prelude.{◌≡◌, ◌∷◌, [], IfOk};
ghost use Rattle.std.specs.Option.{option_map};
ghost use Rattle.rf_limits.specs.Limits.{earliest, limit_kinds};
ghost use Rattle.rf_resolve.specs.Fault.{fault_of, first_of, limit_error};
ghost use Rattle.rf_names.specs.Offsets.{least_of};
ghost use Rattle.rf_name_rules.specs.NameOffsets.{ambiguous_offsets, twice_offsets, unknown_offsets};
ghost use Rattle.rf_structure_rules.specs.StructureOffsets.{arity_offsets, bad_container_offsets, bad_opposite_offsets, bad_range_offsets, cycle_offsets, equals_two_offsets};
ghost use Rattle.rf_clause_rules.specs.ClauseOffsets.{loose_offsets, recursive_offsets};
ghost use Rattle.rf_resolve.specs.declared.error.NameError.TheVariants.{Ambiguous, Arity, BadContainer, BadOpposite, BadRange, ClassCycle, EqualsTwo, LooseVariable, Recursive, Twice, Unknown};

use crate::NameError;
use rf_clause_rules::{loose_variable, recursive};
use rf_limits::limits;
use rf_name_rules::{ambiguous, twice, unknown};
use rf_names::Names;
use rf_structure_rules::{arity, bad_container, bad_opposite, bad_range, class_cycle, equals_two};
use std::alloc::{AllocError, Global};

/// The first rule that is broken, with its least offset. A rule is asked only where those before it
/// of it hold.
pub fn first_fault(alloc: Global, names: &Names<'_>) -> Result<Option<NameError>, AllocError>
    ensures { IfOk result (λ e. e ≡ fault_of names.now.declared.now) }
{
    if let Some(error) = fault_of_names(alloc, names)? {
        return Ok(Some(error));
    }
    if let Some(error) = fault_of_classes(alloc, names)? {
        return Ok(Some(error));
    }
    if let Some(error) = fault_of_predicates(alloc, names)? {
        return Ok(Some(error));
    }
    fault_of_rest(alloc, names)
}

fn fault_of_names(alloc: Global, names: &Names<'_>) -> Result<Option<NameError>, AllocError>
    ensures { IfOk result (λ e. e ≡ first_of (
        option_map Twice (least_of (twice_offsets names.now.declared.now))
        ∷ option_map Unknown (least_of (unknown_offsets names.now.declared.now))
        ∷ option_map Ambiguous (least_of (ambiguous_offsets names.now.declared.now))
        ∷ [])) }
{
    if let Some(at) = twice(alloc, names.declared)? {
        return Ok(Some(NameError::Twice(at)));
    }
    if let Some(at) = unknown(alloc, names)? {
        return Ok(Some(NameError::Unknown(at)));
    }
    if let Some(at) = ambiguous(alloc, names)? {
        return Ok(Some(NameError::Ambiguous(at)));
    }
    Ok(None)
}

fn fault_of_classes(alloc: Global, names: &Names<'_>) -> Result<Option<NameError>, AllocError>
    ensures { IfOk result (λ e. e ≡ first_of (
        option_map ClassCycle (least_of (cycle_offsets names.now.declared.now))
        ∷ option_map BadOpposite (least_of (bad_opposite_offsets names.now.declared.now))
        ∷ option_map BadContainer (least_of (bad_container_offsets names.now.declared.now))
        ∷ option_map BadRange (least_of (bad_range_offsets names.now.declared.now))
        ∷ [])) }
{
    if let Some(at) = class_cycle(alloc, names)? {
        return Ok(Some(NameError::ClassCycle(at)));
    }
    if let Some(at) = bad_opposite(alloc, names)? {
        return Ok(Some(NameError::BadOpposite(at)));
    }
    if let Some(at) = bad_container(alloc, names)? {
        return Ok(Some(NameError::BadContainer(at)));
    }
    if let Some(at) = bad_range(names.declared) {
        return Ok(Some(NameError::BadRange(at)));
    }
    Ok(None)
}

fn fault_of_predicates(alloc: Global, names: &Names<'_>) -> Result<Option<NameError>, AllocError>
    ensures { IfOk result (λ e. e ≡ first_of (
        option_map Arity (least_of (arity_offsets names.now.declared.now))
        ∷ option_map LooseVariable (least_of (loose_offsets names.now.declared.now))
        ∷ option_map Recursive (least_of (recursive_offsets names.now.declared.now))
        ∷ [])) }
{
    if let Some(at) = arity(alloc, names)? {
        return Ok(Some(NameError::Arity(at)));
    }
    if let Some(at) = loose_variable(alloc, names)? {
        return Ok(Some(NameError::LooseVariable(at)));
    }
    if let Some(at) = recursive(alloc, names)? {
        return Ok(Some(NameError::Recursive(at)));
    }
    Ok(None)
}

fn fault_of_rest(alloc: Global, names: &Names<'_>) -> Result<Option<NameError>, AllocError>
    ensures { IfOk result (λ e. e ≡ first_of (
        option_map EqualsTwo (least_of (equals_two_offsets names.now.declared.now))
        ∷ option_map limit_error (earliest names.now.declared.now limit_kinds)
        ∷ [])) }
{
    if let Some(at) = equals_two(alloc, names)? {
        return Ok(Some(NameError::EqualsTwo(at)));
    }
    if let Some(past) = limits(alloc, names)? {
        return Ok(Some(NameError::Limit(past.kind, past.at)));
    }
    Ok(None)
}
