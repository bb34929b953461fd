//! The problem that declarations stand for.

ghost use Rattle.std.specs.Prelude.{IfNone, IfOk, IfSome};
ghost use Rattle.rf_build.specs.Parts.{PartsFit};
ghost use Rattle.rf_build.specs.Resolved.{IsResolved};
ghost use Rattle.rf_build.specs.Small.{IsSmall};

use crate::assertions::resolved_assertions;
use crate::classes::resolved_classes;
use crate::objects::resolved_objects;
use crate::predicates::resolved_predicates;
use crate::references::resolved_references;
use crate::scopes::resolved_scopes;
use rf_names::Names;
use rf_problem::Problem;
use std::alloc::{AllocError, Global};

/// The problem that the declarations stand for, or None where the lists that they stand for aren't
/// the parts of one. There they break a rule.
pub fn build(alloc: Global, names: &Names) -> Result<Option<Problem>, AllocError>
    requires { IsSmall names.now.declared.now }
    ensures resolved { IfOk result (λ made. IfSome made (λ p. IsResolved names.now.declared.now p)) }
    ensures refused { IfOk result (λ made. IfNone made (PartsFit names.now.declared.now → ⊥)) }
{
    let classes = resolved_classes(alloc, names)?;
    let references = resolved_references(alloc, names)?;
    let predicates = resolved_predicates(alloc, names)?;
    let objects = resolved_objects(alloc, names, &classes)?;
    let assertions = resolved_assertions(alloc, names)?;
    let scopes = resolved_scopes(alloc, names)?;
    Problem::new(
        alloc, classes, references, predicates, objects, assertions, scopes,
    )
}
