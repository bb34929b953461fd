//! How many nodes each scope counts.

ghost use Rattle.std.specs.Prelude.{◌≡◌, ◌<◌, length, not};
ghost use Rattle.std.specs.Option.{ForSome};
ghost use Rattle.rf_finite.specs.Range.{count_below};
ghost use Rattle.rf_graph.specs.First.{first_scope, when};
ghost use Rattle.rf_graph.specs.Graph.{Fits, size_of};
ghost use Rattle.rf_problem.specs.Counted.{has_scope_class};
ghost use Rattle.rf_graph.specs.Violations.{is_counted};
ghost use Rattle.rf_graph.specs.declared.verdict.Violation.TheVariants.{Scope};
ghost use Rattle.rf_problem.specs.Parts.{scope_at};
ghost use Rattle.rf_values.specs.Count.{contains};
ghost use Rattle.rf_problem.specs.Valid.{is_named};

use crate::found::when;
use crate::kinds::nodes::{class_of, origin_of};
use rf_finite::{Rule, first_found};
use rf_graph::{Graph, Violation};
use rf_problem::{ObjectName, Problem};

fn is_named(name: &ObjectName) -> bool
    ensures { result ≡ is_named name.now }
{
    match name {
        ObjectName::Named(_) => true,
        ObjectName::NewOf(_) => false,
    }
}

// Whether a class is below that of a scope, if it has one.
fn has_scope_class(problem: &Problem, scope_class: Option<u32>, class: u32) -> bool
    requires scope { ForSome scope_class (λ c. c < length problem.now.classes) }
    ensures { result ≡ has_scope_class problem.now scope_class class }
{
    match scope_class {
        Some(top) => problem.is_below(class, top),
        None => true,
    }
}

// Whether the scope of this number counts a node.
fn is_counted(problem: &Problem, graph: &Graph, scope: u32, node: u64) -> bool
    requires fits { Fits problem.now graph.now }
    requires scope { scope < length problem.now.scopes }
    requires node { node < size_of graph.now }
    ensures { result ≡ is_counted problem.now graph.now (scope_at problem.now.scopes scope) node }
{
    let scope = problem.scope(scope);
    let object = problem.object(origin_of(graph, node));
    has_scope_class(problem, scope.class, class_of(graph, node))
        && (!scope.only_new || !is_named(&object.name))
}

fn count_nodes(problem: &Problem, graph: &Graph, scope: u32) -> u64
    requires fits { Fits problem.now graph.now }
    requires scope { scope < length problem.now.scopes }
    ensures { result ≡ count_below (size_of graph.now) (is_counted problem.now graph.now (scope_at problem.now.scopes scope)) }
{
    let mut count = 0u64;
    for node in 0..graph.nodes.len() as u64 {
        if is_counted(problem, graph, scope, node) {
            count += 1;
        }
    }
    count
}

fn is_on_scope(problem: &Problem, graph: &Graph, scope: u32) -> bool
    requires fits { Fits problem.now graph.now }
    requires scope { scope < length problem.now.scopes }
    ensures { result ≡ contains (scope_at problem.now.scopes scope).range (count_below (size_of graph.now) (is_counted problem.now graph.now (scope_at problem.now.scopes scope))) }
{
    let range = problem.scope(scope).range;
    range.contains(count_nodes(problem, graph, scope))
}

// The rule that a scope counts as many nodes as its range says.
#[derive(Drop)]
struct ScopeRule<'a> {
    problem: &'a Problem,
    graph: &'a Graph,
    ghost fits: { Fits problem.now graph.now },
}

impl Rule<Violation> for ScopeRule<'_> {
    ghost bound = { λ s. length s.problem.now.scopes };

    ghost found = { λ s k.
        when (not (contains (scope_at s.problem.now.scopes k).range
        (count_below (size_of s.graph.now)
        (is_counted s.problem.now s.graph.now (scope_at s.problem.now.scopes k))))) (Scope k) };

    fn bound(&self) -> u64 {
        self.problem.scopes.len() as u64
    }

    fn find(&self, number: u64) -> Option<Violation> {
        let scope = number as u32;
        let in_range = is_on_scope(self.problem, self.graph, scope);
        when(!in_range, Violation::Scope(scope))
    }
}

pub fn first_scope(problem: &Problem, graph: &Graph) -> Option<Violation>
    requires { Fits problem.now graph.now }
    ensures { result ≡ first_scope problem.now graph.now }
{
    first_found(&ScopeRule { problem, graph })
}
