//! Which node contains which, where no node has more than one container.

ghost use Rattle.std.specs.Prelude.{◌≡◌, ◌<◌, ℕ, None, IfOk, replicate, vec_len};
ghost use Rattle.rf_graph.specs.Graph.{Fits, size_of};
ghost use Rattle.rf_graph.specs.Violations.{contains_in};
ghost use Rattle.rf_satisfy.specs.Containers.{AreContainedOnce};
ghost use Rattle.rf_satisfy.specs.ContainerOf.{AreInside, contains_by};

use crate::kinds::containers::is_containing;
use rf_graph::Graph;
use rf_problem::Problem;
use std::alloc::{AllocError, Global};

/// No containers of `size` nodes.
fn no_containers(alloc: Global, size: usize) -> Result<Vec<Option<u64>>, AllocError>
    ensures { IfOk result (λ containers. containers.items ≡ replicate size None) }
{
    vec![in alloc; None; size]
}

/// The node that contains each node, if one does.
pub fn containers_of(
    alloc: Global,
    problem: &Problem,
    graph: &Graph,
) -> Result<Vec<Option<u64>>, AllocError>
    requires fits { Fits problem.now graph.now }
    requires once { AreContainedOnce problem.now graph.now }
    ensures len { IfOk result (λ containers. vec_len containers ≡ size_of graph.now) }
    ensures inside { IfOk result (λ containers. AreInside containers.items) }
    ensures containment { IfOk result (λ containers. (x z : ℕ) → x < size_of graph.now → z < size_of graph.now
        → contains_by containers.items x z ≡ contains_in problem.now graph.now x z) }
{
    let mut containers = no_containers(alloc, graph.nodes.len())?;
    for edge in graph.edges.iter() {
        if is_containing(problem, edge.reference) {
            containers[edge.to as usize] = Some(edge.from);
        }
    }
    Ok(containers)
}
