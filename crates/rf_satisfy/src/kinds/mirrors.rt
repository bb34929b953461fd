//! Edges whose opposite isn't there.

ghost use Rattle.std.specs.Prelude.{◌≡◌, ◌<◌, length};
ghost use Rattle.rf_graph.specs.First.{first_opposite, has_mirror};
ghost use Rattle.rf_graph.specs.Graph.{Fits};
ghost use Rattle.rf_problem.specs.Parts.{reference_at};

use crate::index::edges::EdgeIndex;
use crate::least::earlier;
use rf_graph::{Edge, Violation};
use rf_problem::Problem;

fn has_mirror(problem: &Problem, index: &EdgeIndex<'_>, edge: Edge) -> bool
    requires { edge.reference < length problem.now.references }
    ensures { result ≡ has_mirror index.now.graph.now (reference_at problem.now.references edge.reference).opposite edge.from edge.to }
{
    match problem.reference(edge.reference).opposite {
        Some(opposite) => index.has(opposite, edge.to, edge.from),
        None => true,
    }
}

pub fn first_opposite(problem: &Problem, index: &EdgeIndex<'_>) -> Option<Violation>
    requires { Fits problem.now index.now.graph.now }
    ensures { result ≡ first_opposite problem.now index.now.graph.now }
{
    let mut least = None;
    for edge in index.graph.edges.as_slice() {
        if !has_mirror(problem, index, *edge) {
            least = earlier(least, *edge);
        }
    }
    match least {
        Some(edge) => Some(Violation::Opposite(edge.reference, edge.from, edge.to)),
        None => None,
    }
}
