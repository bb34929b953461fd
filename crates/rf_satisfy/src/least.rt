//! The first of some edges: by reference, then by the node that they lead from, then by the other.

ghost use Rattle.std.specs.Prelude.{◌≡◌};
ghost use Rattle.rf_satisfy.specs.Least.{comes_before, earlier};

use rf_graph::Edge;

fn comes_before(edge: Edge, other: Edge) -> bool
    ensures { result ≡ comes_before edge other }
{
    if edge.reference != other.reference {
        return edge.reference < other.reference;
    }
    if edge.from != other.from {
        return edge.from < other.from;
    }
    edge.to < other.to
}

/// The one of the two that comes first.
pub fn earlier(least: Option<Edge>, edge: Edge) -> Option<Edge>
    ensures { result ≡ earlier least edge }
{
    match least {
        Some(other) => {
            if comes_before(edge, other) {
                Some(edge)
            } else {
                Some(other)
            }
        }
        None => Some(edge),
    }
}
