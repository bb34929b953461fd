//! Nodes and their classes.

ghost use Rattle.std.specs.Prelude.{◌≡◌, ◌<◌, length};
ghost use Rattle.rf_graph.specs.First.{first_class, when};
ghost use Rattle.rf_graph.specs.Graph.{Fits, class_of, origin_of, size_of};
ghost use Rattle.rf_graph.specs.declared.verdict.Violation.TheVariants.{Class};
ghost use Rattle.rf_problem.specs.Classes.{class_at};

use crate::found::when;
use rf_finite::{Rule, first_found};
use rf_graph::{Graph, Violation};
use rf_problem::Problem;

/// The number of the class of a node, or 0 where there is no such node.
pub fn class_of(graph: &Graph, node: u64) -> u32
    ensures { result ≡ class_of graph.now node }
{
    match graph.nodes.get(node as usize) {
        Some(node) => node.class,
        None => 0,
    }
}

/// The number of the object that a node comes from, or 0 where there is no such node.
pub fn origin_of(graph: &Graph, node: u64) -> u64
    ensures { result ≡ origin_of graph.now node }
{
    match graph.nodes.get(node as usize) {
        Some(node) => node.origin,
        None => 0,
    }
}

/// The rule that the class of a node isn't abstract.
#[derive(Drop)]
struct ClassRule<'a> {
    problem: &'a Problem,
    graph: &'a Graph,
    ghost fits: { Fits problem.now graph.now },
}

impl Rule<Violation> for ClassRule<'_> {
    ghost bound = { λ s. size_of s.graph.now };

    ghost found = { λ s x.
        when (class_at s.problem.now.classes (class_of s.graph.now x)).is_abstract (Class x) };

    fn bound(&self) -> u64 {
        self.graph.nodes.len() as u64
    }

    fn find(&self, node: u64) -> Option<Violation> {
        let class = self.problem.class(class_of(self.graph, node));
        when(class.is_abstract, Violation::Class(node))
    }
}

pub fn first_class(problem: &Problem, graph: &Graph) -> Option<Violation>
    requires { Fits problem.now graph.now }
    ensures { result ≡ first_class problem.now graph.now }
{
    first_found(&ClassRule { problem, graph })
}
