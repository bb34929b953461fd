//! Problems made of their parts.

ghost use Rattle.std.specs.Prelude.{◌≡◌, ◌↔◌, IfNone, IfOk, IfSome, IsTrue};
ghost use Rattle.rf_problem.specs.Made.{AreParts};

mod apart;
mod assertions;
mod classes;
mod counts;
mod cycles;
mod literals;
mod objects;
mod predicates;
mod references;
mod scopes;
mod symbols;

use crate::{
    Assertion, Assertions, Class, Classes, ObjectDecl, Predicate, Problem, Reference, Scope,
};
use assertions::are_assertions;
use classes::are_classes;
use objects::are_objects;
use predicates::are_predicates;
use references::are_references;
use rf_text::Items;
use scopes::are_scopes;
use std::alloc::{AllocError, Global};

fn are_parts(
    alloc: Global,
    classes: &[Class],
    references: &[Reference],
    predicates: &[Predicate],
    objects: &[ObjectDecl],
    assertions: &[Assertion],
    scopes: &[Scope],
) -> Result<bool, AllocError>
    ensures { IfOk result (λ fit. IsTrue fit ↔ AreParts classes.now references.now predicates.now
        objects.now assertions.now scopes.now) }
{
    if !are_classes(classes) || !are_references(classes, references) {
        return Ok(false);
    }
    if !are_objects(alloc, classes, objects)? {
        return Ok(false);
    }
    if !are_predicates(classes, references, objects, predicates) {
        return Ok(false);
    }
    Ok(
        are_assertions(classes, references, predicates, objects, assertions)
            && are_scopes(classes, scopes),
    )
}

impl Problem {
    /// The problem of these parts, or None where they aren't what the parts of every problem are.
    /// Names of classes and of references are compared pair by pair.
    pub fn new(
        alloc: Global,
        classes: Vec<Class>,
        references: Vec<Reference>,
        predicates: Vec<Predicate>,
        objects: Vec<ObjectDecl>,
        assertions: Vec<Assertion>,
        scopes: Vec<Scope>,
    ) -> Result<Option<Problem>, AllocError>
        ensures classes { IfOk result (λ made. IfSome made (λ p. p.classes ≡ classes.items)) }
        ensures references { IfOk result (λ made. IfSome made (λ p. p.references ≡ references.items)) }
        ensures predicates { IfOk result (λ made. IfSome made (λ p. p.predicates ≡ predicates.items)) }
        ensures objects { IfOk result (λ made. IfSome made (λ p. p.objects ≡ objects.items)) }
        ensures assertions { IfOk result (λ made. IfSome made (λ p. p.assertions ≡ assertions.items)) }
        ensures scopes { IfOk result (λ made. IfSome made (λ p. p.scopes ≡ scopes.items)) }
        ensures refused { IfOk result (λ made. IfNone made (
            AreParts classes.items references.items predicates.items
            objects.items assertions.items scopes.items → ⊥)) }
    {
        if !are_parts(
            alloc,
            &classes,
            &references,
            &predicates,
            &objects,
            &assertions,
            &scopes,
        )? {
            return Ok(None);
        }
        Ok(Some(Problem {
            classes: Classes::of(alloc, classes)?,
            references: Items::from_vec(references),
            predicates: Items::from_vec(predicates),
            objects: Items::from_vec(objects),
            assertions: Assertions::of(alloc, assertions)?,
            scopes: Items::from_vec(scopes),
        }))
    }
}
