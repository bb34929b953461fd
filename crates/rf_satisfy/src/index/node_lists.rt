//! The nodes of a graph by the objects that they come from.

ghost use Rattle.std.specs.Prelude.{◌≡◌, ◌≢◌, ◌<◌, ◌++◌, ◌∷◌, [], ℕ, All, IfOk, OnOk, vec_len};
ghost use Rattle.rf_graph.specs.Graph.{origin_of, size_of};
ghost use Rattle.rf_satisfy.specs.NodeLists.{AreLists, row_of};

use rf_graph::Graph;
use std::alloc::{AllocError, Global};

/// Lists of nodes, each in ascending order.
#[derive(Drop)]
pub struct NodeLists {
    /// All nodes.
    pub all: Vec<u64>,
    /// For each object the nodes that come from it.
    pub rows: Vec<Vec<u64>>,
}

/// So many empty lists.
pub fn no_rows(alloc: Global, count: usize) -> Result<Vec<Vec<u64>>, AllocError>
    ensures len { IfOk result (λ rows. vec_len rows ≡ count) }
    ensures none { IfOk result (λ rows. (o : ℕ) → row_of rows.items o ≡ []) }
{
    let mut rows = Vec::new(alloc);
    while rows.len() < count {
        rows.push(Vec::new(alloc))?;
    }
    Ok(rows)
}

/// Puts a node after the others of its object.
pub fn put(rows: &mut Vec<Vec<u64>>, object: usize, node: u64) -> Result<(), AllocError>
    requires { object < vec_len rows.old }
    ensures len { OnOk result (vec_len rows.new ≡ vec_len rows.old) }
    ensures put { OnOk result (row_of rows.new.items object ≡ row_of rows.old.items object ++ node ∷ []) }
    ensures others { OnOk result ((o : ℕ) → o ≢ object → row_of rows.new.items o ≡ row_of rows.old.items o) }
{
    rows[object].push(node)?;
    Ok(())
}

/// The lists of the nodes of a graph, which come from so many objects.
pub fn node_lists(alloc: Global, objects: usize, graph: &Graph) -> Result<NodeLists, AllocError>
    requires { All (λ node. node.origin < objects) graph.now.nodes }
    ensures { IfOk result (λ lists.
        AreLists (size_of graph.now) graph.now objects lists.all.items lists.rows.items) }
{
    let mut all = Vec::new(alloc);
    let mut rows = no_rows(alloc, objects)?;
    for x in 0..graph.nodes.len() {
        put(&mut rows, graph.nodes[x].origin as usize, x as u64)?;
        all.push(x as u64)?;
    }
    Ok(NodeLists { all, rows })
}
