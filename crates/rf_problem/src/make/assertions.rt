//! What the assertions of every problem keep.

ghost use Rattle.std.specs.Prelude.{◌<◌, ◌↔◌, All, IsTrue, length};
ghost use Rattle.std.specs.Option.{ForSome};
ghost use Rattle.rf_problem.specs.Valid.{AreAssertions, FitsAssertion};

use super::symbols::Declared;
use crate::{Assertion, Class, ObjectDecl, Predicate, Reference};
use rf_bounds::MOST_ASSERTIONS;

fn is_object(arg: Option<u64>, objects: u64) -> bool
    ensures { IsTrue result ↔ ForSome arg (λ o. o < objects) }
{
    arg.is_none_or(|object| object < objects)
}

fn are_objects(args: &[Option<u64>], objects: u64) -> bool
    ensures { IsTrue result ↔ All (λ arg. ForSome arg (λ o. o < objects)) args.now }
{
    args.iter().all(|arg| is_object(*arg, objects))
}

fn fits_assertion(declared: &Declared, objects: u64, assertion: &Assertion) -> bool
    ensures { IsTrue result ↔ FitsAssertion declared.now.classes declared.now.references declared.now.predicates.now objects assertion.now }
{
    if !declared.is_asserted(assertion.symbol) {
        return false;
    }
    assertion.args.len() == declared.arity_of(assertion.symbol)
        && are_objects(&assertion.args, objects)
}

fn all_fit(declared: &Declared, objects: u64, assertions: &[Assertion]) -> bool
    ensures { IsTrue result ↔ All (FitsAssertion declared.now.classes declared.now.references declared.now.predicates.now objects) assertions.now }
{
    assertions
        .iter()
        .all(|assertion| fits_assertion(declared, objects, assertion))
}

/// Whether they are what the assertions of every problem of these other parts are.
pub fn are_assertions(
    classes: &[Class],
    references: &[Reference],
    predicates: &[Predicate],
    objects: &[ObjectDecl],
    assertions: &[Assertion],
) -> bool
    ensures { IsTrue result ↔ AreAssertions classes.now references.now predicates.now objects.now assertions.now }
{
    let declared = Declared {
        classes: classes.len(),
        references: references.len(),
        objects,
        predicates,
    };
    assertions.len() <= MOST_ASSERTIONS && all_fit(&declared, objects.len() as u64, assertions)
}
