//! The depth of a problem.

ghost use Rattle.std.specs.Prelude.{◌≡◌, ◌+◌, ◌*◌, ◌≤◌};
ghost use Rattle.rf_bounds.specs.declared.TheConstants.{GREATEST_NUMBER, MOST_CLASSES, MOST_OBJECTS, MOST_REFERENCES};
ghost use Rattle.rf_depth.specs.Depth.{concrete_classes, counts_all, depth, node_end};

use rf_problem::{Problem, Scope};
use rf_values::Count;

/// Whether a scope counts all nodes.
fn counts_all(scope: &Scope) -> bool
    ensures { result ≡ counts_all scope.now }
{
    scope.class.is_none() && !scope.only_new
}

/// The bound on all nodes: the least upper end of a scope that counts them.
fn node_end(scopes: &[Scope]) -> Option<u64>
    ensures { result ≡ node_end scopes.now }
{
    let mut allowed = Count { lo: 0, hi: None };
    for scope in scopes {
        if counts_all(scope) {
            allowed = allowed.meet(scope.range);
        }
    }
    allowed.hi
}

/// How many classes nodes may have.
fn concrete_classes(problem: &Problem) -> u64
    ensures { result ≡ concrete_classes problem.now }
{
    let mut count = 0;
    for class in 0..problem.classes.as_slice().len() as u32 {
        if problem.classes.concrete().has(class) {
            count += 1;
        }
    }
    count
}

/// How many decisions so many nodes leave to be taken.
fn depth_with(nodes: u64, objects: u64, classes: u64, references: u64) -> u64
    requires nodes { nodes ≤ GREATEST_NUMBER }
    requires objects { objects ≤ MOST_OBJECTS + MOST_CLASSES }
    requires classes { classes ≤ MOST_CLASSES }
    requires references { references ≤ MOST_REFERENCES }
    ensures { result ≡ nodes + (objects + (nodes * classes + references * (nodes * nodes))) }
{
    nodes + (objects + (nodes * classes + references * (nodes * nodes)))
}

/// How many decisions a search can take one after another: where N is the least upper end of a scope on `node` with
/// `=`, M the number of objects, those of new nodes included, K that of classes that nodes may have and R that of
/// references, it is N + M + N*K + R*N*N. None where no such scope has an upper end. It takes no memory.
#[tactic(auto, using(crate::proofs::Few::objects_few, crate::proofs::Few::classes_few, crate::proofs::Few::nodes_few))]
pub fn depth(problem: &Problem) -> Option<u64>
    ensures { result ≡ depth problem.now }
{
    let nodes = node_end(problem.scopes.as_slice())?;
    Some(depth_with(
        nodes,
        problem.objects.len() as u64,
        concrete_classes(problem),
        problem.references.len() as u64,
    ))
}
