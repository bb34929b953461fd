//! Edges whose ends are of other classes than their reference leads between.

ghost use Rattle.std.specs.Prelude.{◌≡◌};
ghost use Rattle.rf_graph.specs.First.{first_edge, fits_ends};
ghost use Rattle.rf_graph.specs.Graph.{Fits, FitsEdge, size_of};

use crate::kinds::nodes::class_of;
use crate::least::earlier;
use rf_graph::{Edge, Graph, Violation};
use rf_problem::Problem;

fn fits_ends(problem: &Problem, graph: &Graph, edge: Edge) -> bool
    requires fits { Fits problem.now graph.now }
    requires edge { FitsEdge problem.now (size_of graph.now) edge }
    ensures { result ≡ fits_ends problem.now graph.now edge.reference edge.from edge.to }
{
    let reference = problem.reference(edge.reference);
    problem.is_below(class_of(graph, edge.from), reference.source)
        && problem.is_below(class_of(graph, edge.to), reference.target)
}

pub fn first_edge(problem: &Problem, graph: &Graph) -> Option<Violation>
    requires { Fits problem.now graph.now }
    ensures { result ≡ first_edge problem.now graph.now }
{
    let mut least = None;
    for edge in graph.edges.as_slice() {
        if !fits_ends(problem, graph, *edge) {
            least = earlier(least, *edge);
        }
    }
    match least {
        Some(edge) => Some(Violation::Edge(edge.reference, edge.from, edge.to)),
        None => None,
    }
}
