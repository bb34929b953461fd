//! Containment and its opposites.

ghost use Rattle.std.specs.Prelude.{◌≡◌, IfOk};
ghost use Rattle.rf_problem.specs.Parts.{is_contains};
ghost use Rattle.rf_names.specs.Offsets.{least_of};
ghost use Rattle.rf_structure_rules.specs.StructureOffsets.{bad_container, bad_container_offsets, breaks_containment, is_contained_by};
ghost use Rattle.rf_names.specs.Declarations.{kind_of_word};

use rf_names::{
    Names, OffsetRule, ReferenceDeclaration, kind_of, least_among, offset_if, opposite,
};
use rf_problem::RefKind;
use std::alloc::{AllocError, Global};

fn contains(reference: &ReferenceDeclaration) -> bool
    ensures { result ≡ is_contains (kind_of_word reference.now.feature.word) }
{
    matches!(kind_of(reference.feature.word), RefKind::Contains)
}

fn is_contained_by(names: &Names, opposite: Option<u32>) -> bool
    ensures { result ≡ is_contained_by names.now.declared.now opposite }
{
    let declared = names.declared;
    let Some(number) = opposite else {
        return false;
    };
    match declared.references.get(number as usize) {
        None => false,
        Some(reference) => contains(reference),
    }
}

fn breaks_containment(kind: RefKind, opposite_contains: bool) -> bool
    ensures { result ≡ breaks_containment kind opposite_contains }
{
    match kind {
        RefKind::Plain => false,
        RefKind::Contains => opposite_contains,
        RefKind::Container => !opposite_contains,
    }
}

// The rule of the containment of references.
#[derive(Clone, Copy)]
struct Containment<'n, 'a> {
    names: &'n Names<'a>,
}

impl<'n, 'a> OffsetRule<ReferenceDeclaration<'a>> for Containment<'n, 'a> {
    ghost offsets = { λ rule. bad_container rule.names.now.declared.now };

    fn least_in(
        &self,
        alloc: Global,
        reference: &ReferenceDeclaration<'a>,
    ) -> Result<Option<u64>, AllocError> {
        let opposite_contains = is_contained_by(
            self.names,
            opposite(alloc, self.names, reference)?,
        );
        let kind = kind_of(reference.feature.word);
        Ok(offset_if(
            breaks_containment(kind, opposite_contains),
            reference.feature.name.at,
        ))
    }
}

/// The least offset of a reference whose containment its opposite doesn't meet.
pub fn bad_container(alloc: Global, names: &Names) -> Result<Option<u64>, AllocError>
    ensures { IfOk result (λ at. at ≡ least_of (bad_container_offsets names.now.declared.now)) }
{
    let declared = names.declared;
    least_among(
        alloc,
        &Containment { names },
        declared.references.as_slice(),
    )
}
