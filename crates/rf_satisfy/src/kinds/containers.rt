//! Containers: which nodes have too many, and which should have one and have none.

ghost use Rattle.std.specs.Prelude.{◌≡◌, ◌<◌, ◌==◌, ◌&&◌, ◌||◌, nat_le, ℕ, IfNone, IfOk, length, vec_len, slice_index};
ghost use Rattle.std.specs.FinSet.{contains};
ghost use Rattle.rf_graph.specs.First.{first_containers};
ghost use Rattle.rf_graph.specs.Graph.{Fits, class_of, size_of};
ghost use Rattle.rf_problem.specs.Contained.{is_containing};
ghost use Rattle.rf_graph.specs.Violations.{container_count};
ghost use Rattle.rf_satisfy.specs.Containers.{AreContainedOnce, contains_node};

use crate::kinds::nodes::class_of;
use crate::tables::zeros;
use rf_graph::{Graph, Violation};
use rf_problem::Problem;
use rf_values::ClassSet;
use std::alloc::{AllocError, Global};

/// Whether an edge of this reference contains the node that it leads to.
pub fn is_containing(problem: &Problem, reference: u32) -> bool
    requires { reference < length problem.now.references }
    ensures { result ≡ is_containing problem.now reference }
{
    problem.reference(reference).kind.is_contains()
}

/// How many edges contain each node.
fn container_counts(alloc: Global, problem: &Problem, graph: &Graph) -> Result<Vec<u64>, AllocError>
    requires { Fits problem.now graph.now }
    ensures len { IfOk result (λ counts. vec_len counts ≡ size_of graph.now) }
    ensures counts { IfOk result (λ counts. (z : ℕ) → z < size_of graph.now
        → slice_index counts.items z ≡ container_count problem.now graph.now z) }
{
    let mut counts = zeros(alloc, graph.nodes.len())?;
    for edge in graph.edges.iter() {
        if is_containing(problem, edge.reference) {
            counts[edge.to as usize] += 1;
        }
    }
    Ok(counts)
}

/// Whether a node with this many containers has too many, or none though its class is among those
/// whose nodes have to be contained.
fn is_wrongly_contained(containers: u64, class: u32, contained: ClassSet) -> bool
    ensures { result ≡ (nat_le 2 containers || (containers == 0 && contains contained class)) }
{
    containers >= 2 || containers == 0 && contained.has(class)
}

/// The first node that has more than one container, or none though its class is below the target of a
/// reference that contains.
pub fn first_containers(
    alloc: Global,
    problem: &Problem,
    graph: &Graph,
) -> Result<Option<Violation>, AllocError>
    requires { Fits problem.now graph.now }
    ensures first { IfOk result (λ v. v ≡ first_containers problem.now graph.now) }
    ensures once { IfOk result (λ v. IfNone v (AreContainedOnce problem.now graph.now)) }
{
    let counts = container_counts(alloc, problem, graph)?;
    let contained = problem.contained_classes();
    for node in 0..graph.nodes.len() as u64 {
        if is_wrongly_contained(counts[node as usize], class_of(graph, node), contained) {
            return Ok(Some(Violation::Containers(node)));
        }
    }
    Ok(None)
}
