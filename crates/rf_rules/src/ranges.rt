//! Whether the numbers of rules and decisions are in range.

ghost use Rattle.std.specs.Prelude.{◌≡◌};
ghost use Rattle.rf_rules.specs.Predicates.{free_count};
ghost use Rattle.rf_rules.specs.Rules.{are_objects, is_called, is_edge, is_literal, is_object, is_scoped};

use rf_problem::Problem;
use rf_state::Facts;

/// Whether there is an object of this number.
pub fn is_object<F: Facts>(view: &F, o: u64) -> bool
    ensures { result ≡ is_object (F.state view.now) o }
{
    o < view.objects()
}

/// Whether there is an object of each of these numbers.
pub fn are_objects<F: Facts>(view: &F, objects: &[u64]) -> bool
    ensures { result ≡ are_objects (F.state view.now) objects.now }
{
    objects.iter().all(|o| is_object(view, *o))
}

/// Whether there are a reference and two objects of these numbers.
pub fn is_edge<F: Facts>(view: &F, r: u32, a: u64, b: u64) -> bool
    ensures { result ≡ is_edge (F.problem view.now) (F.state view.now) r a b }
{
    (r as usize) < view.problem().references.len() && (is_object(view, a) && is_object(view, b))
}

/// Whether there are a scope and an object of these numbers.
pub fn is_scoped<F: Facts>(view: &F, scope: u32, o: u64) -> bool
    ensures { result ≡ is_scoped (F.problem view.now) (F.state view.now) scope o }
{
    (scope as usize) < view.problem().scopes.len() && is_object(view, o)
}

/// Whether there is a predicate of this number, with as many parameters as there are objects.
pub fn is_called(problem: &Problem, predicate: u32, objects: &[u64]) -> bool
    ensures { result ≡ is_called problem.now predicate objects.now }
{
    (predicate as usize) < problem.predicates.len()
        && objects.len() == problem.predicate(predicate).arity as usize
}

/// How many variables range over a clause.
pub fn free_count(variables: &[Option<u8>]) -> usize
    ensures { result ≡ free_count variables.now }
{
    let mut count = 0;
    for entry in variables {
        if entry.is_none() {
            count += 1;
        }
    }
    count
}

/// Whether there is a literal of these numbers, of a clause over which as many variables range as there
/// are objects.
pub fn is_literal(
    problem: &Problem,
    predicate: u32,
    clause: u32,
    literal: u32,
    objects: &[u64],
) -> bool
    ensures { result ≡ is_literal problem.now predicate clause literal objects.now }
{
    if predicate as usize >= problem.predicates.len() {
        return false;
    }
    let clauses = problem.predicate(predicate).clauses.as_slice();
    if clause as usize >= clauses.len() {
        return false;
    }
    let clause = &clauses[clause as usize];
    (literal as usize) < clause.literals.len()
        && objects.len() == free_count(clause.variables.as_slice())
}
