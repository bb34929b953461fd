//! Cycles of nodes that contain each other.

ghost use Rattle.std.specs.Prelude.{◌≡◌, ◌<◌, ℕ, not, true, IfOk, length, vec_len, slice_index_or, false};
ghost use Rattle.rf_finite.specs.Walks.{walk_below};
ghost use Rattle.rf_graph.specs.First.{first_cycle, when};
ghost use Rattle.rf_graph.specs.Graph.{Fits, size_of};
ghost use Rattle.rf_graph.specs.Violations.{contains_in};
ghost use Rattle.rf_graph.specs.declared.verdict.Violation.TheVariants.{Cycle};
ghost use Rattle.rf_satisfy.specs.Containers.{AreContainedOnce};

use crate::found::when;
use crate::kinds::container_of::containers_of;
use crate::kinds::peeling::off_cycles;
use rf_finite::{Rule, first_found};
use rf_graph::{Graph, Violation};
use rf_problem::Problem;
use std::alloc::{AllocError, Global};

/// Marks each node that lies on no cycle of nodes that contain each other.
fn nodes_off_cycles(
    alloc: Global,
    problem: &Problem,
    graph: &Graph,
) -> Result<Vec<bool>, AllocError>
    requires fits { Fits problem.now graph.now }
    requires once { AreContainedOnce problem.now graph.now }
    ensures len { IfOk result (λ marks. vec_len marks ≡ size_of graph.now) }
    ensures marks { IfOk result (λ marks. (x : ℕ) → x < size_of graph.now
        → slice_index_or marks.items x false
        ≡ not (walk_below (contains_in problem.now graph.now) (λ y. true) (size_of graph.now) x x)) }
{
    let containers = containers_of(alloc, problem, graph)?;
    let marks = off_cycles(alloc, &containers)?;
    Ok(marks)
}

/// The rule that no node contains itself, directly or through others.
#[derive(Drop)]
struct CycleRule<'a> {
    problem: &'a Problem,
    graph: &'a Graph,
    marks: &'a [bool],
    ghost len: { length marks.now ≡ size_of graph.now },
    ghost marked: { (x : ℕ) → x < size_of graph.now → slice_index_or marks.now x false
        ≡ not (walk_below (contains_in problem.now graph.now) (λ y. true) (size_of graph.now) x x) },
}

impl Rule<Violation> for CycleRule<'_> {
    ghost bound = { λ s. size_of s.graph.now };

    ghost found = { λ s x.
        when (walk_below (contains_in s.problem.now s.graph.now) (λ y. true) (size_of s.graph.now) x x) (Cycle x) };

    fn bound(&self) -> u64 {
        self.graph.nodes.len() as u64
    }

    fn find(&self, node: u64) -> Option<Violation> {
        when(!self.marks[node as usize], Violation::Cycle(node))
    }
}

/// The first node that lies on a cycle of nodes that contain each other.
pub fn first_cycle(
    alloc: Global,
    problem: &Problem,
    graph: &Graph,
) -> Result<Option<Violation>, AllocError>
    requires fits { Fits problem.now graph.now }
    requires once { AreContainedOnce problem.now graph.now }
    ensures { IfOk result (λ v. v ≡ first_cycle problem.now graph.now) }
{
    let marks = nodes_off_cycles(alloc, problem, graph)?;
    Ok(first_found(&CycleRule {
        problem,
        graph,
        marks: &marks,
    }))
}
