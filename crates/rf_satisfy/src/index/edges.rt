//! Which edges a graph has.

ghost use Rattle.std.specs.Prelude.{◌≡◌, IfOk};
ghost use Rattle.rf_satisfy.specs.Edges.{AreKeysOf};
ghost use Rattle.rf_satisfy.specs.EdgeEnds.{AreFrom, AreInto};

use crate::index::edge_ends::{EdgeEnds, edge_ends, ends_at};
use rf_graph::{Edge, Graph};
use std::alloc::{AllocError, Global};
use std::collections::BTreeSet;

/// The edges of a graph: each is found in logarithmic time, and so are those at a node.
#[derive(Drop)]
pub struct EdgeIndex<'g> {
    pub graph: &'g Graph,
    keys: BTreeSet<(u32, u64, u64)>,
    ends: EdgeEnds,
    ghost indexed: { AreKeysOf keys graph.now.edges },
    ghost listed_from: { AreFrom ends.from graph.now.edges },
    ghost listed_into: { AreInto ends.into graph.now.edges },
}

fn keys_of(alloc: Global, edges: &[Edge]) -> Result<BTreeSet<(u32, u64, u64)>, AllocError>
    ensures { IfOk result (λ keys. AreKeysOf keys edges.now) }
{
    let mut keys = BTreeSet::new(alloc);
    for edge in edges {
        keys.insert((edge.reference, edge.from, edge.to))?;
    }
    Ok(keys)
}

impl<'g> EdgeIndex<'g> {
    ghost use Rattle.std.specs.Prelude.{ℕ};
    ghost use Rattle.rf_graph.specs.Graph.{has_edge};
    ghost use Rattle.rf_satisfy.specs.EdgeEnds.{is_listed};

    pub fn new(alloc: Global, graph: &'g Graph) -> Result<EdgeIndex<'g>, AllocError>
        ensures { IfOk result (λ index. index.graph.now ≡ graph.now) }
    {
        let keys = keys_of(alloc, graph.edges.as_slice())?;
        let ends = edge_ends(alloc, graph.edges.as_slice())?;
        Ok(EdgeIndex { graph, keys, ends })
    }

    /// Whether an edge of this reference leads from one node to the other.
    pub fn has(&self, reference: u32, from: u64, to: u64) -> bool
        ensures { result ≡ has_edge self.now.graph.now reference from to }
    {
        self.keys.contains(&(reference, from, to))
    }
    /// The nodes that edges of this reference lead to from a node.
    pub fn ends_from(&self, reference: u32, from: u64) -> &[u64]
        ensures { (y : ℕ) → is_listed result.now y ≡ has_edge self.now.graph.now reference from y }
    {
        ends_at(&self.ends.from, reference, from)
    }

    /// The nodes that edges of this reference lead from to a node.
    pub fn ends_into(&self, reference: u32, to: u64) -> &[u64]
        ensures { (x : ℕ) → is_listed result.now x ≡ has_edge self.now.graph.now reference x to }
    {
        ends_at(&self.ends.into, reference, to)
    }
}
