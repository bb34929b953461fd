//! The nodes at the other ends of a node's edges.

ghost use Rattle.std.specs.Prelude.{◌≡◌, ◌++◌, ◌∷◌, [], if◌then◌else◌, IfOk, OnOk};
ghost use Rattle.rf_satisfy.specs.EdgeEnds.{AreFrom, AreInto, End, ends_at, is_end};

use rf_graph::Edge;
use std::alloc::{AllocError, Global};
use std::collections::BTreeMap;

/// For a reference and the node at one end of its edges, the nodes at their other ends.
#[derive(Drop)]
pub struct EdgeEnds {
    /// The nodes that edges lead to, by the node that they lead from.
    pub from: BTreeMap<(u32, u64), Vec<u64>>,
    /// The nodes that edges lead from, by the node that they lead to.
    pub into: BTreeMap<(u32, u64), Vec<u64>>,
}

/// Puts a node after the others that are listed for an end.
fn put(
    alloc: Global,
    lists: &mut BTreeMap<(u32, u64), Vec<u64>>,
    end: (u32, u64),
    other: u64,
) -> Result<(), AllocError>
    ensures { OnOk result ((q : End) → ends_at lists.new q
        ≡ (if is_end end q then ends_at lists.old q ++ other ∷ [] else ends_at lists.old q)) }
{
    if let Some(others) = lists.get_mut(&end) {
        others.push(other)?;
        return Ok(());
    }
    let mut others = Vec::new(alloc);
    others.push(other)?;
    lists.insert(end, others)?;
    Ok(())
}

/// The nodes at the other ends of all of these edges.
pub fn edge_ends(alloc: Global, edges: &[Edge]) -> Result<EdgeEnds, AllocError>
    ensures from { IfOk result (λ ends. AreFrom ends.from edges.now) }
    ensures into { IfOk result (λ ends. AreInto ends.into edges.now) }
{
    let mut from = BTreeMap::new(alloc);
    let mut into = BTreeMap::new(alloc);
    for edge in edges {
        put(alloc, &mut from, (edge.reference, edge.from), edge.to)?;
        put(alloc, &mut into, (edge.reference, edge.to), edge.from)?;
    }
    Ok(EdgeEnds { from, into })
}

/// The nodes that are listed for a reference and a node.
pub fn ends_at(lists: &BTreeMap<(u32, u64), Vec<u64>>, reference: u32, node: u64) -> &[u64]
    ensures { result.now ≡ ends_at lists.now (reference, node) }
{
    match lists.get(&(reference, node)) {
        Some(nodes) => nodes.as_slice(),
        None => &[],
    }
}
