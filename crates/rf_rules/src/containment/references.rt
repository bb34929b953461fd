//! Which references contain, and what they contain.

ghost use Rattle.std.specs.Prelude.{◌≡◌, ◌<◌, length};
ghost use Rattle.rf_problem.specs.Contained.{is_contained_class, is_containing};
ghost use Rattle.rf_rules.specs.Words.{classes_where};

use rf_problem::Problem;
use rf_values::ClassSet;

/// Whether an edge of a reference contains what it leads to.
pub fn is_containing(problem: &Problem, r: u32) -> bool
    requires { r < length problem.now.references }
    ensures { result ≡ is_containing problem.now r }
{
    problem.reference(r).kind.is_contains()
}

/// The classes whose nodes are contained.
pub fn contained_classes(problem: &Problem) -> ClassSet
    ensures { result ≡ classes_where problem.now (is_contained_class problem.now) }
{
    problem.contained_classes()
}
