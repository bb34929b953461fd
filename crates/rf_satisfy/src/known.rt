//! A graph as what is known of its nodes: each fact holds or doesn't.

ghost use Rattle.std.specs.Prelude.{◌≡◌};
ghost use Rattle.rf_satisfy.specs.GraphKnown.{certain, graph_known};

use crate::index::graph_index::GraphIndex;
use crate::kinds::nodes::origin_of;
use rf_evaluate::{Elements, Knowledge};
use rf_problem::{Problem, Symbol};
use rf_values::Truth;

/// The truth of what holds or doesn't.
fn certain(holds: bool) -> Truth
    ensures { result ≡ certain holds }
{
    Truth::of(holds, holds)
}

impl Knowledge for GraphIndex<'_> {
    ghost known = { λ index. graph_known index.problem index.graph };

    fn problem(&self) -> &Problem {
        self.problem()
    }

    fn size(&self) -> u64 {
        self.size()
    }

    fn is_present(&self, x: u64) -> Truth {
        Truth::True
    }

    fn has_class(&self, class: u32, x: u64) -> Truth {
        certain(self.has_class(class, x))
    }

    fn has_edge(&self, reference: u32, x: u64, y: u64) -> Truth {
        certain(self.has_edge(reference, x, y))
    }

    fn is_same(&self, x: u64, y: u64) -> Truth {
        certain(x == y)
    }

    fn is_different(&self, x: u64, y: u64) -> Truth {
        certain(x != y)
    }

    fn origin(&self, x: u64) -> u64 {
        origin_of(self.graph(), x)
    }

    fn from_object(&self, object: u64) -> Elements<'_> {
        Elements::Listed(self.nodes_matching(Some(object)))
    }

    fn ends_from(&self, reference: u32, x: u64) -> Elements<'_> {
        Elements::Listed(self.ends_from(reference, x))
    }

    fn ends_into(&self, reference: u32, y: u64) -> Elements<'_> {
        Elements::Listed(self.ends_into(reference, y))
    }

    fn kept_value(&self, predicate: u32, elements: &[u64]) -> Option<Truth> {
        None
    }

    fn kept_walk(&self, symbol: Symbol, x: u64, y: u64) -> Option<Truth> {
        None
    }
}
