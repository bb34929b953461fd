//! Objects and the nodes that come from them.

ghost use Rattle.std.specs.Prelude.{◌≡◌, ◌<◌, ◌&&◌, ◌||◌, IfOk, false, length, not, replicate};
ghost use Rattle.rf_graph.specs.First.{first_object, has_stranger, when};
ghost use Rattle.rf_graph.specs.Graph.{Fits, size_of};
ghost use Rattle.rf_graph.specs.Violations.{nodes_from};
ghost use Rattle.rf_graph.specs.declared.verdict.Violation.TheVariants.{Object};
ghost use Rattle.rf_problem.specs.Asserted.{admitted};
ghost use Rattle.rf_problem.specs.Classes.{may_have_class};
ghost use Rattle.rf_values.specs.Count.{contains};
ghost use Rattle.rf_satisfy.specs.Objects.{CountsNodes, is_native};

use crate::found::when;
use crate::kinds::nodes::{class_of, origin_of};
use crate::tables::{falses, zeros};
use rf_finite::{Rule, first_found};
use rf_graph::{Graph, Violation};
use rf_problem::{ObjectDecl, ObjectKind, ObjectName, Problem};
use std::alloc::{AllocError, Global};

// Whether a node of this class may come from an object: `C::new` has nodes of class C, a literal those
// of its enum, and any other object those of classes that are no enums.
fn may_have_class(problem: &Problem, object: &ObjectDecl, class: u32) -> bool
    requires { class < length problem.now.classes }
    ensures { result ≡ may_have_class problem.now.classes object.now.name object.now.kind class }
{
    match (&object.name, object.kind) {
        (ObjectName::NewOf(own), _) => class == *own,
        (ObjectName::Named(_), ObjectKind::LiteralOf(own)) => class == own,
        (ObjectName::Named(_), _) => !problem.class(class).is_enum,
    }
}

// Whether the class of a node is one that its object may have.
fn is_native(problem: &Problem, graph: &Graph, node: u64) -> bool
    requires fits { Fits problem.now graph.now }
    requires node { node < size_of graph.now }
    ensures { result ≡ is_native problem.now graph.now node }
{
    let object = problem.object(origin_of(graph, node));
    may_have_class(problem, object, class_of(graph, node))
}

fn count_nodes(problem: &Problem, graph: &Graph, counts: &mut [u64], strange: &mut [bool])
    requires fits { Fits problem.now graph.now }
    requires zeros { counts.old ≡ replicate (length problem.now.objects) 0 }
    requires none { strange.old ≡ replicate (length problem.now.objects) false }
    ensures { CountsNodes problem.now graph.now (size_of graph.now) counts.new strange.new }
{
    for node in 0..graph.nodes.len() as u64 {
        let object = origin_of(graph, node) as usize;
        counts[object] += 1;
        if !is_native(problem, graph, node) {
            strange[object] = true;
        }
    }
}

// Whether an object has as many nodes as it admits, and none of a class that they may not have.
fn is_satisfied(problem: &Problem, object: u64, nodes: u64, strange: bool) -> bool
    requires { object < length problem.now.objects }
    ensures { result ≡ (contains (admitted problem.now object) nodes && not strange) }
{
    problem.admitted(object).contains(nodes) && !strange
}

// The rule that an object has as many nodes as it admits, and none of a class that they may not have.
#[derive(Drop)]
struct ObjectRule<'a> {
    problem: &'a Problem,
    graph: &'a Graph,
    counts: &'a [u64],
    strange: &'a [bool],
    ghost len: { length counts.now ≡ length problem.now.objects },
    ghost strange_len: { length strange.now ≡ length problem.now.objects },
    ghost counted: { CountsNodes problem.now graph.now (size_of graph.now) counts.now strange.now },
}

impl Rule<Violation> for ObjectRule<'_> {
    ghost bound = { λ s. length s.problem.now.objects };

    ghost found = { λ s o.
        when (not (contains (admitted s.problem.now o) (nodes_from s.graph.now o))
        || has_stranger s.problem.now s.graph.now o) (Object o) };

    fn bound(&self) -> u64 {
        self.problem.objects.len() as u64
    }

    fn find(&self, object: u64) -> Option<Violation> {
        let nodes = self.counts[object as usize];
        let strange = self.strange[object as usize];
        let satisfied = is_satisfied(self.problem, object, nodes, strange);
        when(!satisfied, Violation::Object(object))
    }
}

pub fn first_object(
    alloc: Global,
    problem: &Problem,
    graph: &Graph,
) -> Result<Option<Violation>, AllocError>
    requires { Fits problem.now graph.now }
    ensures { IfOk result (λ v. v ≡ first_object problem.now graph.now) }
{
    let mut counts = zeros(alloc, problem.objects.len())?;
    let mut strange = falses(alloc, problem.objects.len())?;
    count_nodes(
        problem,
        graph,
        counts.as_mut_slice(),
        strange.as_mut_slice(),
    );
    Ok(first_found(&ObjectRule {
        problem,
        graph,
        counts: &counts,
        strange: &strange,
    }))
}
