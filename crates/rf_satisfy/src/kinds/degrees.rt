//! How many edges lead from each node.

ghost use Rattle.std.specs.Prelude.{◌≡◌, ◌<◌, All, IfOk, length};
ghost use Rattle.rf_graph.specs.First.{first_degree, is_in_range};
ghost use Rattle.rf_graph.specs.Graph.{Fits, size_of};
ghost use Rattle.rf_graph.specs.Violations.{degree_of};
ghost use Rattle.rf_satisfy.specs.Edges.{CountsFrom, first_degree_of};

use crate::kinds::nodes::class_of;
use crate::tables::zeros;
use rf_graph::{Graph, Violation};
use rf_problem::Problem;
use std::alloc::{AllocError, Global};

/// Counts the edges of this reference from each node.
pub fn count_from(graph: &Graph, reference: u32, degrees: &mut [u64])
    requires ends { All (λ e. e.from < size_of graph.now) graph.now.edges }
    requires size { length degrees.old ≡ size_of graph.now }
    ensures { CountsFrom reference graph.now.edges degrees.new }
{
    degrees.fill(0);
    for edge in graph.edges.as_slice() {
        if edge.reference == reference {
            degrees[edge.from as usize] += 1;
        }
    }
}

// Whether a node has as many edges of a reference as it has to.
fn is_in_range(problem: &Problem, graph: &Graph, reference: u32, node: u64, degree: u64) -> bool
    requires fits { Fits problem.now graph.now }
    requires reference { reference < length problem.now.references }
    requires node { node < size_of graph.now }
    requires degree { degree ≡ degree_of graph.now reference node }
    ensures { result ≡ is_in_range problem.now graph.now reference node }
{
    let reference = problem.reference(reference);
    !problem.is_below(class_of(graph, node), reference.source) || reference.range.contains(degree)
}

// The first node that hasn't as many edges of a reference as it has to.
fn first_outside(
    problem: &Problem,
    graph: &Graph,
    reference: u32,
    degrees: &[u64],
) -> Option<Violation>
    requires fits { Fits problem.now graph.now }
    requires reference { reference < length problem.now.references }
    requires size { length degrees.now ≡ size_of graph.now }
    requires degrees { CountsFrom reference graph.now.edges degrees.now }
    ensures { result ≡ first_degree_of problem.now graph.now reference }
{
    for node in 0..graph.nodes.len() as u64 {
        if !is_in_range(problem, graph, reference, node, degrees[node as usize]) {
            return Some(Violation::Degree(reference, node));
        }
    }
    None
}

pub fn first_degree(
    alloc: Global,
    problem: &Problem,
    graph: &Graph,
) -> Result<Option<Violation>, AllocError>
    requires { Fits problem.now graph.now }
    ensures { IfOk result (λ v. v ≡ first_degree problem.now graph.now) }
{
    let mut degrees = zeros(alloc, graph.nodes.len())?;
    for reference in 0..problem.references.len() as u32 {
        count_from(graph, reference, degrees.as_mut_slice());
        let first = first_outside(problem, graph, reference, degrees.as_slice());
        if first.is_some() {
            return Ok(first);
        }
    }
    Ok(None)
}
