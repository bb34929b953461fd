//! What the scopes of every problem keep.

ghost use Rattle.std.specs.Prelude.{◌<◌, ◌↔◌, All, IsTrue, length};
ghost use Rattle.std.specs.Option.{ForSome};
ghost use Rattle.rf_problem.specs.Valid.{AreScopes, IsSmall};

use super::counts::is_small;
use crate::{Class, Scope};
use rf_bounds::MOST_SCOPES;

fn has_class(scope: &Scope, classes: usize) -> bool
    ensures { IsTrue result ↔ ForSome scope.now.class (λ c. c < classes) }
{
    scope.class.is_none_or(|class| (class as usize) < classes)
}

fn have_classes(scopes: &[Scope], classes: usize) -> bool
    ensures { IsTrue result ↔ All (λ s. ForSome s.class (λ c. c < classes)) scopes.now }
{
    scopes.iter().all(|scope| has_class(scope, classes))
}

fn have_small_ranges(scopes: &[Scope]) -> bool
    ensures { IsTrue result ↔ All (λ s. IsSmall s.range) scopes.now }
{
    scopes.iter().all(|scope| is_small(scope.range))
}

/// Whether they are what the scopes of every problem of these classes are.
pub fn are_scopes(classes: &[Class], scopes: &[Scope]) -> bool
    ensures { IsTrue result ↔ AreScopes classes.now scopes.now }
{
    scopes.len() <= MOST_SCOPES && have_classes(scopes, classes.len()) && have_small_ranges(scopes)
}
