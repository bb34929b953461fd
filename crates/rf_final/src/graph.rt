//! The graph of a state.

ghost use Rattle.std.specs.Prelude.{◌≡◌, ◌<◌, ◌≤◌, ◌++◌, IfOk, OnOk, length, map};
ghost use Rattle.rf_final.specs.GraphOf.{class_in, edge_if, edges_of, graph_of, is_edge, node_of, reference_edges, row_edges, singles};
ghost use Rattle.rf_rules.specs.Words.{is_one};

use rf_finite::{Test, first_passing};
use rf_graph::{Edge, Graph, Node};
use rf_state::Facts;
use rf_text::Items;
use rf_values::{ClassSet, Truth};
use std::alloc::{AllocError, Global};

// Whether an object is one node.
fn is_one<F: Facts>(view: &F, o: u64) -> bool
    requires { o < length (F.state view.now).objects }
    ensures { result ≡ is_one (F.state view.now) o }
{
    view.count(o).is_single()
}

// The objects that are one node, in order.
fn singles<F: Facts>(alloc: Global, view: &F) -> Result<Vec<u64>, AllocError>
    ensures { IfOk result (λ v. v.items ≡ singles (F.state view.now)) }
{
    let mut singles = Vec::new(alloc);
    for o in 0..view.objects() {
        if is_one(view, o) {
            singles.push(o)?;
        }
    }
    Ok(singles)
}

// The candidates of an object among so many classes.
#[derive(Drop)]
struct Candidates {
    classes: u64,
    set: ClassSet,
    ghost few: { classes ≤ 256 },
}

impl Test for Candidates {
    ghost use Rattle.std.specs.FinSet.{contains};

    ghost bound = { λ it. it.classes };

    ghost passing = { λ it c. contains it.set c };

    fn bound(&self) -> u64 {
        self.classes
    }

    fn passes(&self, number: u64) -> bool {
        self.set.has(number as u32)
    }
}

// The first candidate of an object.
fn class_in<F: Facts>(view: &F, o: u64) -> u32
    requires { o < length (F.state view.now).objects }
    ensures { result ≡ class_in (F.problem view.now) (F.state view.now) o }
{
    let candidates = Candidates {
        classes: view.problem().classes.as_slice().len() as u64,
        set: view.candidates(o),
    };
    first_passing(&candidates).unwrap_or(0) as u32
}

// The node that an object is.
fn node_of<F: Facts>(view: &F, o: u64) -> Node
    requires { o < length (F.state view.now).objects }
    ensures { result ≡ node_of (F.problem view.now) (F.state view.now) o }
{
    Node {
        class: class_in(view, o),
        origin: view.origin(o),
    }
}

// The nodes that some objects are.
fn nodes<F: Facts>(alloc: Global, view: &F, objects: &[u64]) -> Result<Vec<Node>, AllocError>
    requires { objects.now ≡ singles (F.state view.now) }
    ensures { IfOk result (λ v. v.items ≡ map (node_of (F.problem view.now) (F.state view.now)) objects.now) }
{
    let mut nodes = Vec::new(alloc);
    for o in objects {
        nodes.push(node_of(view, *o))?;
    }
    Ok(nodes)
}

// Whether an edge of a reference leads from node x to node y.
fn is_edge<F: Facts>(view: &F, objects: &[u64], r: u32, x: usize, y: usize) -> bool
    requires reference { r < length (F.problem view.now).references }
    requires singles { objects.now ≡ singles (F.state view.now) }
    requires from { x < length objects.now }
    requires to { y < length objects.now }
    ensures { result ≡ is_edge (F.problem view.now) (F.state view.now) r x y }
{
    view.fact(r, objects[x], objects[y]) == Truth::True
}

// Adds the edge, where there is one.
fn push_edge<F: Facts>(
    view: &F,
    objects: &[u64],
    r: u32,
    x: usize,
    y: usize,
    edges: &mut Vec<Edge>,
) -> Result<(), AllocError>
    requires reference { r < length (F.problem view.now).references }
    requires singles { objects.now ≡ singles (F.state view.now) }
    requires from { x < length objects.now }
    requires to { y < length objects.now }
    ensures { OnOk result (edges.new.items ≡ edges.old.items ++ edge_if (is_edge (F.problem view.now) (F.state view.now) r x y) r x y) }
{
    if is_edge(view, objects, r, x, y) {
        edges.push(Edge {
            reference: r,
            from: x as u64,
            to: y as u64,
        })?;
    }
    Ok(())
}

// Adds the edges of a reference that lead from a node.
fn push_row<F: Facts>(
    view: &F,
    objects: &[u64],
    r: u32,
    x: usize,
    edges: &mut Vec<Edge>,
) -> Result<(), AllocError>
    requires reference { r < length (F.problem view.now).references }
    requires singles { objects.now ≡ singles (F.state view.now) }
    requires from { x < length objects.now }
    ensures { OnOk result (edges.new.items ≡ edges.old.items ++ row_edges (F.problem view.now) (F.state view.now) r x (length objects.now)) }
{
    for y in 0..objects.len() {
        push_edge(view, objects, r, x, y, edges)?;
    }
    Ok(())
}

// Adds the edges of a reference.
fn push_reference<F: Facts>(
    view: &F,
    objects: &[u64],
    r: u32,
    edges: &mut Vec<Edge>,
) -> Result<(), AllocError>
    requires reference { r < length (F.problem view.now).references }
    requires singles { objects.now ≡ singles (F.state view.now) }
    ensures { OnOk result (edges.new.items ≡ edges.old.items ++ reference_edges (F.problem view.now) (F.state view.now) r (length objects.now)) }
{
    for x in 0..objects.len() {
        push_row(view, objects, r, x, edges)?;
    }
    Ok(())
}

// The edges between the nodes.
fn edges<F: Facts>(alloc: Global, view: &F, objects: &[u64]) -> Result<Vec<Edge>, AllocError>
    requires { objects.now ≡ singles (F.state view.now) }
    ensures { IfOk result (λ v. v.items ≡ edges_of (F.problem view.now) (F.state view.now) (length objects.now)) }
{
    let mut edges = Vec::new(alloc);
    for r in 0..view.problem().references.len() {
        push_reference(view, objects, r as u32, &mut edges)?;
    }
    Ok(edges)
}

/// The graph of a state, as it is read.
pub fn graph_of<F: Facts>(alloc: Global, view: &F) -> Result<Graph, AllocError>
    ensures { IfOk result (λ g. g ≡ graph_of (F.problem view.now) (F.state view.now)) }
{
    let objects = singles(alloc, view)?;
    let nodes = nodes(alloc, view, objects.as_slice())?;
    let edges = edges(alloc, view, objects.as_slice())?;
    Ok(Graph {
        nodes: Items::from_vec(nodes),
        edges: Items::from_vec(edges),
    })
}
