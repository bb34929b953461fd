//! Ranges whose upper number is less than their lower one.

ghost use Rattle.std.specs.Prelude.{◌≡◌, map};
ghost use Rattle.std.specs.List.{flat_map};
ghost use Rattle.rf_names.specs.Offsets.{least_of};
ghost use Rattle.rf_structure_rules.specs.StructureOffsets.{bad_mult, bad_range, bad_range_offsets, bad_range_or_none, is_less};

use rf_names::{Declarations, ReferenceDeclaration, lesser, offset_if};
use rf_syntax::{Bound, Item, MultPlace, Range, Upper};

/// The least offset of a range without numbers.
#[tactic(auto, using(rf_names::proofs::LeastOffsets::least_steps))]
pub fn bad_range(declared: &Declarations<'_>) -> Option<u64>
    ensures { result ≡ least_of (bad_range_offsets declared.now) }
{
    let references = bad_mults(declared.references.as_slice());
    let items = bad_items(declared.items.as_slice());
    let bounds = bad_bounds(declared.bounds.as_slice());
    lesser(references, lesser(items, bounds))
}

fn is_less(upper: Upper, lo: u32) -> bool
    ensures { result ≡ is_less upper lo }
{
    match upper {
        Upper::Absent | Upper::Star => false,
        Upper::Number(n) => n < lo,
    }
}

fn bad(range: Range) -> Option<u64>
    ensures { result ≡ least_of (bad_range range) }
{
    offset_if(is_less(range.hi, range.lo), range.at)
}

fn bad_or_none(range: Option<Range>) -> Option<u64>
    ensures { result ≡ least_of (bad_range_or_none range) }
{
    match range {
        Some(range) => bad(range),
        None => None,
    }
}

fn bad_in_mult(mult: MultPlace) -> Option<u64>
    ensures { result ≡ least_of (bad_mult mult) }
{
    match mult {
        MultPlace::Absent => None,
        MultPlace::AfterType(mult) | MultPlace::AfterName(mult) => bad_or_none(mult.range),
    }
}

fn bad_in_reference(reference: &ReferenceDeclaration<'_>) -> Option<u64>
    ensures { result ≡ least_of (bad_mult reference.now.feature.mult) }
{
    bad_in_mult(reference.feature.mult)
}

#[tactic(auto, using(rf_names::proofs::LeastOffsets::least_steps))]
fn bad_mults(references: &[ReferenceDeclaration<'_>]) -> Option<u64>
    ensures { result ≡ least_of (flat_map (λ r. bad_mult r.feature.mult) references.now) }
{
    let mut least = None;
    for reference in references {
        least = lesser(least, bad_in_reference(reference));
    }
    least
}

#[tactic(auto, using(rf_names::proofs::LeastOffsets::least_steps))]
fn bad_items(items: &[&Item]) -> Option<u64>
    ensures { result ≡ least_of (flat_map (λ i. bad_range_or_none i.range) (map
        (λ i. i.now) items.now)) }
{
    let mut least = None;
    for item in items {
        least = lesser(least, bad_or_none(item.range));
    }
    least
}

#[tactic(auto, using(rf_names::proofs::LeastOffsets::least_steps))]
fn bad_bounds(bounds: &[&Bound]) -> Option<u64>
    ensures { result ≡ least_of (flat_map (λ b. bad_range b.range) (map (λ b. b.now) bounds.now)) }
{
    let mut least = None;
    for bound in bounds {
        least = lesser(least, bad(bound.range));
    }
    least
}
