//! Whether a graph satisfies a problem, kind by kind of violation.

ghost use Rattle.std.specs.Prelude.{◌≡◌, IfOk};
ghost use Rattle.std.specs.Option.{option_or};
ghost use Rattle.rf_graph.specs.First.{first_asserted, first_class, first_containers, first_cycle, first_degree, first_edge, first_object, first_opposite, first_scope, first_violation};
ghost use Rattle.rf_graph.specs.Graph.{Fits};
ghost use Rattle.rf_graph.specs.Violations.{FirstViolation, IsVerdict, Sat};
ghost use Rattle.rf_graph.specs.declared.verdict.Verdict.TheVariants.{Satisfied, Violated};
ghost use Rattle.rf_graph.specs.declared.verdict.Violation.{Violation};

use crate::index::edges::EdgeIndex;
use crate::index::graph_index::GraphIndex;
use crate::kinds::asserted::first_asserted;
use crate::kinds::containers::first_containers;
use crate::kinds::cycle::first_cycle;
use crate::kinds::degrees::first_degree;
use crate::kinds::ends::first_edge;
use crate::kinds::mirrors::first_opposite;
use crate::kinds::nodes::first_class;
use crate::kinds::objects::first_object;
use crate::kinds::scopes::first_scope;
use rf_graph::{Graph, Verdict, Violation};
use rf_problem::Problem;
use std::alloc::{AllocError, Global};

// The first violation that a node or an edge makes by itself.
fn first_alone(problem: &Problem, edge_index: &EdgeIndex<'_>) -> Option<Violation>
    requires { Fits problem.now edge_index.now.graph.now }
    ensures { result ≡ option_or (first_class problem.now edge_index.now.graph.now)
        (option_or (first_edge problem.now edge_index.now.graph.now)
        (first_opposite problem.now edge_index.now.graph.now)) }
{
    let class = first_class(problem, edge_index.graph);
    if class.is_some() {
        return class;
    }
    let edge = first_edge(problem, edge_index.graph);
    if edge.is_some() {
        return edge;
    }
    first_opposite(problem, edge_index)
}

// The first violation of how many edges nodes have, and of what contains what.
fn first_of_edges(
    alloc: Global,
    problem: &Problem,
    graph: &Graph,
) -> Result<Option<Violation>, AllocError>
    requires { Fits problem.now graph.now }
    ensures { IfOk result (λ v. v ≡ option_or (first_degree problem.now graph.now)
        (option_or (first_containers problem.now graph.now)
        (first_cycle problem.now graph.now))) }
{
    let degree = first_degree(alloc, problem, graph)?;
    if degree.is_some() {
        return Ok(degree);
    }
    let containers = first_containers(alloc, problem, graph)?;
    if containers.is_some() {
        return Ok(containers);
    }
    first_cycle(alloc, problem, graph)
}

// The first violation of what is stated of objects, of facts and of scopes.
fn first_stated(
    alloc: Global,
    problem: &Problem,
    edge_index: &EdgeIndex<'_>,
) -> Result<Option<Violation>, AllocError>
    requires { Fits problem.now edge_index.now.graph.now }
    ensures { IfOk result (λ v. v ≡ option_or (first_object problem.now edge_index.now.graph.now)
        (option_or (first_asserted problem.now edge_index.now.graph.now)
        (first_scope problem.now edge_index.now.graph.now))) }
{
    let object = first_object(alloc, problem, edge_index.graph)?;
    if object.is_some() {
        return Ok(object);
    }
    let index = GraphIndex::new(alloc, problem, edge_index)?;
    let asserted = first_asserted(alloc, &index)?;
    if asserted.is_some() {
        return Ok(asserted);
    }
    Ok(first_scope(problem, edge_index.graph))
}

fn first_violation(
    alloc: Global,
    problem: &Problem,
    graph: &Graph,
) -> Result<Option<Violation>, AllocError>
    requires { Fits problem.now graph.now }
    ensures { IfOk result (λ v. v ≡ first_violation problem.now graph.now) }
{
    let edge_index = EdgeIndex::new(alloc, graph)?;
    let alone = first_alone(problem, &edge_index);
    if alone.is_some() {
        return Ok(alone);
    }
    let edges = first_of_edges(alloc, problem, graph)?;
    if edges.is_some() {
        return Ok(edges);
    }
    first_stated(alloc, problem, &edge_index)
}

/// Whether a graph that fits a problem satisfies it, and else the first of its violations.
pub fn judge(alloc: Global, problem: &Problem, graph: &Graph) -> Result<Verdict, AllocError>
    requires { Fits problem.now graph.now }
    ensures verdict { IfOk result (IsVerdict problem.now graph.now) }
    ensures satisfied { Sat problem.now graph.now → IfOk result (λ verdict. verdict ≡ Satisfied) }
    ensures violated { (v : Violation) → FirstViolation problem.now graph.now v → IfOk result (λ verdict. verdict ≡ Violated v) }
{
    match first_violation(alloc, problem, graph)? {
        Some(violation) => Ok(Verdict::Violated(violation)),
        None => Ok(Verdict::Satisfied),
    }
}
